// Parts and numbers of a list, as far as the list goes.
ghost use Rattle.std.specs.Prelude.{◌≡◌, take, slice_index};

// The front of a list.
pub fn front<T>(l: &[T], n: usize) -> &[T]
    ensures { result.now ≡ take n l.now }
{
    l.get(..n).unwrap_or(l)
}

// The same, lent to be written.
pub fn part<T>(l: &mut [T], n: usize) -> &mut [T]
    ensures { result.now ≡ take n l.old }
{
    let end = n.min(l.len());
    &mut l[..end]
}

// The number at a place; 0 behind the end, since the programs read what a line leaves out as 0 and did so from the first.
pub fn number_at(l: &[u32], k: usize) -> u32
    ensures { result ≡ slice_index l.now k }
{
    l.get(k).copied().unwrap_or(0)
}
