// A refusal: which check of document 01's table refuses the input, and at which entry or option.
ghost use Rattle.std.specs.Prelude.{◌≡◌, IsFalse, OnOk};
ghost use Rattle.rules.specs.Checks.{refuse};
ghost use Rattle.rules.specs.Refusals.{number_of, refusal_in};

// Checks 10 to 22, in their order.
#[derive(Clone, Copy, PartialEq, Eq, Debug)]
pub enum Check {
    // no primary item
    NoPrimary = 10,
    // more items than the figure
    TooManyItems = 11,
    // no option
    NoOption = 12,
    // more options than the figure
    TooManyOptions = 13,
    // the item and colour lists differ in length, or a list of bytes is no whole fours
    Uneven = 14,
    // more entries than the figure
    TooManyEntries = 15,
    // an option's end below the one before it or above the count of entries, or a last end that isn't that count
    WrongEnd = 16,
    // a working list that is too short
    ShortRoom = 17,
    // a list of the result that is
    ShortResult = 18,
    // an entry's item is not below the count of items
    NoSuchItem = 19,
    // a colour above the highest
    ColourTooHigh = 20,
    // a colour on a primary item
    ColouredPrimary = 21,
    // an item that is already in this option
    ItemTwice = 22,
}

impl Check {
    // The number that document 01 gives the check.
    pub fn number(self) -> u32
        ensures { result ≡ number_of self }
    {
        self as u32
    }
}

// The check that refuses, and the place that it names: an entry, an option, or 0. (Document 01 gives place 0 where no entry or option is at fault.
// A speed choice: with the place first, the loop over the entries need not shift it.)
#[derive(Clone, Copy, PartialEq, Eq, Debug)]
pub struct Refusal {
    pub place: u32,
    pub check: Check,
}

// Refuses, if the test says so.
pub fn refuse_if(test: bool, check: Check, place: u32) -> Result<(), Refusal>
    ensures refused { refusal_in result ≡ refuse (number_of check) place test }
    ensures passed { OnOk result (IsFalse test) }
{
    if test {
        return Err(Refusal { check, place });
    }
    Ok(())
}
