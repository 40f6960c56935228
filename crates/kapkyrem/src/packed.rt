// The answer as one number, for C. What each field holds is in specs/Packed.antt.
ghost use Rattle.std.specs.Prelude.{◌≡◌, cond};
ghost use Rattle.rules.specs.Paper.{paper, cause_number};
ghost use Rattle.rules.specs.Refusals.{as_paper};
ghost use Rattle.renumbering.specs.Outcome.{refusal};
ghost use Rattle.kapkyrem.specs.Calls.{packed_renumbered};
ghost use Rattle.kapkyrem.specs.Packed.{packed_refusal, packed_infeasible, packed_reduced, packed_at, packed_desk, packed_lists, InOrder, InfeasibleFits, ReducedFits, Fits};

use renumbering::answer::Unnumbered;
use rules::answer::{Answer, Cause};
use rules::number::Item;
use rules::refusal::Refusal;

// A refusal: its number, and its place behind it.
pub fn pack_refusal(refusal: Refusal) -> u64
    ensures { result ≡ packed_refusal (as_paper refusal) }
{
    u64::from(refusal.check.number()) + 256 * u64::from(refusal.place)
}

// Infeasible: the item, the cause and the round.
pub fn pack_infeasible(item: Item, cause: Cause, round: u32) -> u64
    requires { InfeasibleFits item.0 (cause_number cause) round }
    ensures { result ≡ packed_infeasible item.0 (cause_number cause) round }
{
    1 + 256 * u64::from(item.0)
        + 16777216 * u64::from(cause.number())
        + 4294967296 * u64::from(round)
}

// Reduced, where the primaries begin at bit P, the secondaries at bit S and the options at bit O.
pub fn pack_reduced<const P: u32, const S: u32, const O: u32>(
    primaries: u32,
    secondaries: u32,
    options: u32,
    rounds: u32,
    settled: bool,
) -> u64
    requires order { InOrder P S O }
    requires fits { ReducedFits P S O primaries secondaries options rounds (cond settled 1 0) }
    ensures { result ≡ packed_reduced P S O primaries secondaries options rounds (cond settled 1 0) }
{
    256 * u64::from(rounds)
        + 16777216 * u64::from(settled)
        + (u64::from(primaries) << P)
        + (u64::from(secondaries) << S)
        + (u64::from(options) << O)
}

// An answer, with a reduced problem's fields at these bits.
pub fn pack<const P: u32, const S: u32, const O: u32>(answer: Answer) -> u64
    requires order { InOrder P S O }
    requires fits { Fits P S O answer }
    ensures { result ≡ packed_at P S O (paper answer) }
{
    match answer {
        Answer::Reduced {
            primaries,
            secondaries,
            options,
            rounds,
            settled,
            ..
        } => pack_reduced::<P, S, O>(primaries, secondaries, options, rounds, settled),
        Answer::Infeasible { item, cause, round } => pack_infeasible(item, cause, round),
        Answer::Refused(refusal) => pack_refusal(refusal),
    }
}

// The answer of the desk's call.
pub fn pack_desk(answer: Answer) -> u64
    requires { Fits 32 40 48 answer }
    ensures { result ≡ packed_desk (paper answer) }
{
    pack::<32, 40, 48>(answer)
}

// The answer of the call over lists of numbers, whose counts are larger.
pub fn pack_lists(answer: Answer) -> u64
    requires { Fits 25 36 47 answer }
    ensures { result ≡ packed_lists (paper answer) }
{
    pack::<25, 36, 47>(answer)
}

// The answer of the compact numbers: 0 if done, else the reason's number, and its place behind it, of which seven bytes fit.
pub fn pack_renumbered(answer: Result<(), Unnumbered>) -> u64
    ensures { result ≡ packed_renumbered (refusal answer) }
{
    match answer {
        Ok(()) => 0,
        Err(reason) => {
            u64::from(reason.number()) + 256 * (reason.place() as u64 % 72057594037927936)
        }
    }
}
