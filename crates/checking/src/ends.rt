// Check 16, of the ends of the options.
ghost use Rattle.std.specs.Prelude.{◌≡◌, ◌<◌, length};
ghost use Rattle.rules.specs.Bounds.{word_bound};
ghost use Rattle.rules.specs.Checks.{check16};
ghost use Rattle.rules.specs.Refusals.{refusal_in};

use rules::refusal::{Check, Refusal, refuse_if};

// The first option whose end is below the one before it or above the count of entries; else, if the last end isn't that count, the last.
pub fn check_ends(ends: &[u32], entries: usize) -> Result<(), Refusal>
    requires { length ends.now < word_bound }
    ensures { refusal_in result ≡ check16 entries ends.now }
{
    let mut before = 0;
    for (k, end) in ends.iter().enumerate() {
        let end = *end as usize;
        refuse_if((end < before) | (entries < end), Check::WrongEnd, k as u32)?;
        before = end;
    }
    let last = ends.len().saturating_sub(1);
    refuse_if(before != entries, Check::WrongEnd, last as u32)
}
