// What a call is handed and what it is lent: the problem's lists, the working room, and the lists of the result. They stand beside one another, a list
// for each kind of number, since C lends them so.

// np primary and ns secondary items, at most `cap` rounds; an entry is an item and a colour, and option k ends before entry ends[k]. The lists are
// of numbers, or of bytes, four to a number.
#[derive(Clone, Copy)]
pub struct Given<'a, T> {
    pub np: u32,
    pub ns: u32,
    pub cap: u32,
    pub items: &'a [T],
    pub colours: &'a [T],
    pub ends: &'a [T],
}

// The lists of a problem alone, of numbers: what the checks and the core take beside the problem that was made of their counts.
#[derive(Clone, Copy)]
pub struct Lists<'a> {
    pub items: &'a [u32],
    pub colours: &'a [u32],
    pub ends: &'a [u32],
}

// The working lists, in which the nodes are built: four of a number for each node, and one of a mark for each item.
#[derive(Drop)]
pub struct Room<'a> {
    pub heads: &'a mut [i32],
    pub up: &'a mut [u32],
    pub down: &'a mut [u32],
    pub tints: &'a mut [u32],
    pub marks: &'a mut [u32],
}

// The kept items; and of the options that are left the ends, the numbers, the items and the colours. Of numbers or of bytes, too.
#[derive(Drop)]
pub struct Results<'a, T> {
    pub kept: &'a mut [T],
    pub ends: &'a mut [T],
    pub numbers: &'a mut [T],
    pub items: &'a mut [T],
    pub colours: &'a mut [T],
}
