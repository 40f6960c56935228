// The numbers of a text: plain, `0 1 4 2`, or the options of a problem as document 01 writes them, `[0 1 4:1],[2]`, with a colour behind a colon.
// What has no room in the list that is read into is left out (no heap: into a list that is lent, and the count may be above its length).
ghost use Rattle.std.specs.Prelude.{◌≡◌, ◌≤◌, ◌==◌, length, count_by};

use crate::parts::front;

// The digit that a byte is.
fn digit(b: u8) -> Option<u32> {
    match b {
        b'0'..=b'9' => Some(u32::from(b - b'0')),
        _ => None,
    }
}

// The number that the digits of a text write; it stops at the highest.
fn number(t: &[u8]) -> u32 {
    t.iter()
        .filter_map(|b| digit(*b))
        .fold(0u32, |n, d| n.saturating_mul(10).saturating_add(d))
}

// Whether a byte stands between entries.
fn is_apart(b: &u8) -> bool {
    !(b.is_ascii_digit() || *b == b':')
}

// An entry is a run of digits and colons that has a digit.
fn is_entry(run: &&[u8]) -> bool {
    run.iter().any(u8::is_ascii_digit)
}

// How many entries a text has.
fn count(t: &[u8]) -> usize {
    t.split(is_apart).filter(is_entry).count()
}

// Reads the entries of a text, each by `value`, and says how many there are.
fn read<F: Fn(&[u8]) -> u32>(t: &[u8], l: &mut [u32], value: F) -> usize
    requires { F.IsAlwaysCallable value }
    ensures { length l.new ≡ length l.old }
{
    let entries = t.split(is_apart).filter(is_entry);
    for (place, entry) in l.iter_mut().zip(entries) {
        *place = value(entry);
    }
    count(t)
}

// Reads the plain numbers and the items of a text; says how many there are.
pub fn entries(t: &[u8], l: &mut [u32]) -> usize
    ensures { length l.new ≡ length l.old }
{
    read(t, l, |entry| {
        number(entry.split(|b| *b == b':').next().unwrap_or(entry))
    })
}

// The same for the colours, 0 where there is none: the calls are lent it so, and what a text leaves out was read so from the first.
pub fn colours(t: &[u8], l: &mut [u32]) -> usize
    ensures { length l.new ≡ length l.old }
{
    read(t, l, |entry| {
        number(entry.splitn(2, |b| *b == b':').nth(1).unwrap_or(&[]))
    })
}

// The same for the ends of the options: each is the count of the entries up to it, and there are as many as closing brackets stand there.
pub fn ends(t: &[u8], l: &mut [u32]) -> usize
    ensures room { length l.new ≡ length l.old }
    ensures count { result ≡ count_by (λ b. b == 93) t.now }
{
    let mut end: usize = 0;
    let options = t
        .split_inclusive(|b| *b == b']')
        .filter(|option| option.ends_with(b"]"));
    for (place, option) in l.iter_mut().zip(options) {
        end = end.saturating_add(count(option));
        if let Ok(n) = u32::try_from(end) {
            *place = n;
        }
    }
    t.iter().filter(|b| **b == b']').count()
}

// The plain numbers of a text, as far as the list holds them.
pub fn list<'a>(t: &[u8], l: &'a mut [u32]) -> &'a [u32]
    ensures { length result.now ≤ length l.old }
{
    let n = entries(t, &mut *l);
    front(l, n)
}

// The first plain numbers of a text, with zeros for those that aren't there: the programs read so what a line leaves out.
pub fn row<const N: usize>(t: &[u8]) -> [u32; N]
    ensures { N ≡ length result }
{
    let mut l = [0; N];
    entries(t, &mut l);
    l
}
