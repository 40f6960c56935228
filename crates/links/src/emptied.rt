// What a deletion answers.
use rules::number::Item;

// A primary item that no option holds any more.
#[derive(Clone, Copy, Debug, PartialEq, Eq)]
pub struct Emptied {
    pub item: Item,
}
