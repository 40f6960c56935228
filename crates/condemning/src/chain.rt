// The chain of the options that are found blocked, the highest first: the colour of the boundary before an option names the one found before
// it, by its first live entry. A colour is a number, as C lends the list, and so 0 says there that the chain ends.
ghost use Rattle.std.specs.Prelude.{◌≡◌, ℕ, ◌<◌, length, set};
ghost use Rattle.rules.specs.Bounds.{node_bound};
ghost use Rattle.links.specs.Column.{at};
ghost use Rattle.links.specs.Nodes.{column};

// The option behind boundary q in the chain.
pub fn chained(tints: &[u32], q: usize) -> Option<usize>
    requires { q < length tints.now }
    ensures { result ≡ column (at tints.now q) }
{
    let r = tints[q] as usize;
    if r == 0 { None } else { Some(r) }
}

// Has boundary q name the option behind it in the chain.
pub fn chain(tints: &mut [u32], q: usize, next: Option<usize>)
    requires { (q < length tints.old) × (r : ℕ) × (next ≡ column r) × (r < node_bound) }
    ensures { (r : ℕ) → next ≡ column r → tints.new ≡ set tints.old q r }
{
    tints[q] = next.map_or(0, |r| r as u32);
}
