// The nodes, as the walks are lent them: lists beside one another, since C lends them so. The colours and the marks are lent beside the nodes: a walk that
// only reads them takes a `&`, and so leaves them as they are. What the lists hold is said by the clauses, over a ground, and not by a ghost field: between
// `unlink` and `fewer` they hold no tidy ground, and a call tells how the ground changes. Each function that is lent them to write in says that
// they stay the same lists (`SameNodes`), since its caller would else know nothing of its own.
ghost use Rattle.std.specs.Prelude.{◌≡◌, false, ◌<◌, eqb, length, set, pos, negsuc};
ghost use Rattle.rules.specs.Bounds.{node_bound, word_bound};
ghost use Rattle.links.specs.Head.{item_of, zero_head, below_zero, head};
ghost use Rattle.links.specs.Column.{at};

use crate::shape::Shape;
use rules::number::Opt;

#[derive(Drop)]
pub struct Nodes<'a> {
    // of a header the length of its column, of an entry its column, of a boundary its option: signed numbers, as C lends them
    pub heads: &'a mut [i32],
    pub up: &'a mut [u32],
    pub down: &'a mut [u32],
    pub shape: Shape,
}

// What a node says.
impl<'a> Nodes<'a> {
    ghost use Rattle.links.specs.Nodes.{column_in, option_in};

    // The column of the entry at node x, if it is one that is not shortened.
    pub fn column(&self, x: usize) -> Option<usize>
        requires { x < length self.now.heads.now }
        ensures { result ≡ column_in (head self.now.heads.now x) }
    {
        let h = self.heads[x];
        if h > 0 { Some(h as usize) } else { None }
    }

    // The same where x is known to be such an entry; of a header, the length of its column.
    pub fn column_at(&self, x: usize) -> usize
        requires { (x < length self.now.heads.now) × (below_zero (head self.now.heads.now x) ≡ false) }
        ensures { result ≡ item_of (head self.now.heads.now x) }
    {
        self.heads[x] as usize
    }

    // The option before boundary x, if x is one behind an option.
    pub fn option(&self, x: usize) -> Option<Opt>
        requires { x < length self.now.heads.now }
        ensures { result ≡ option_in (head self.now.heads.now x) }
    {
        let h = self.heads[x];
        if h < 0 {
            Some(Opt::from((-1 - h) as u32))
        } else {
            None
        }
    }

    // The head at node x is 0: a shortened entry, the first boundary, or the header of an empty column.
    pub fn is_zero(&self, x: usize) -> bool
        requires { x < length self.now.heads.now }
        ensures { result ≡ zero_head (head self.now.heads.now x) }
    {
        self.heads[x] == 0
    }

    // Column c holds no entry.
    pub fn is_empty(&self, c: usize) -> bool
        requires { c < length self.now.heads.now }
        ensures { result ≡ eqb (item_of (head self.now.heads.now c)) 0 }
    {
        self.heads[c] <= 0
    }

    // The node above x in its column, or where a walk backwards leads on.
    pub fn above(&self, x: usize) -> usize
        requires { x < length self.now.up.now }
        ensures node { result ≡ at self.now.up.now x }
        ensures small { result < word_bound }
    {
        self.up[x] as usize
    }

    pub fn below(&self, x: usize) -> usize
        requires { x < length self.now.down.now }
        ensures node { result ≡ at self.now.down.now x }
        ensures small { result < word_bound }
    {
        self.down[x] as usize
    }
}

// What is written at one node.
impl<'a> Nodes<'a> {
    ghost use Rattle.links.specs.Nodes.{SameNodes};

    pub fn set_above(&mut self, x: usize, y: usize)
        requires { (y < node_bound) × (x < length self.old.up.now) }
        ensures nodes { SameNodes self.old self.new }
        ensures heads { self.new.heads.now ≡ self.old.heads.now }
        ensures up { self.new.up.now ≡ set self.old.up.now x y }
        ensures down { self.new.down.now ≡ self.old.down.now }
    {
        self.up[x] = y as u32;
    }

    pub fn set_below(&mut self, x: usize, y: usize)
        requires { (y < node_bound) × (x < length self.old.down.now) }
        ensures nodes { SameNodes self.old self.new }
        ensures heads { self.new.heads.now ≡ self.old.heads.now }
        ensures up { self.new.up.now ≡ self.old.up.now }
        ensures down { self.new.down.now ≡ set self.old.down.now x y }
    {
        self.down[x] = y as u32;
    }

    // Writes an entry's column, or a column's length, or 0.
    pub fn set_head(&mut self, x: usize, c: usize)
        requires { (c < node_bound) × (x < length self.old.heads.now) }
        ensures nodes { SameNodes self.old self.new }
        ensures heads { self.new.heads.now ≡ set self.old.heads.now x (pos c) }
        ensures up { self.new.up.now ≡ self.old.up.now }
        ensures down { self.new.down.now ≡ self.old.down.now }
    {
        self.heads[x] = c as i32;
    }

    // Writes the boundary after option k.
    pub fn set_boundary(&mut self, x: usize, k: Opt)
        requires { (k.0 < node_bound) × (x < length self.old.heads.now) }
        ensures nodes { SameNodes self.old self.new }
        ensures heads { self.new.heads.now ≡ set self.old.heads.now x (negsuc k.0) }
        ensures up { self.new.up.now ≡ self.old.up.now }
        ensures down { self.new.down.now ≡ self.old.down.now }
    {
        self.heads[x] = -1 - (k.0 as i32);
    }
}
