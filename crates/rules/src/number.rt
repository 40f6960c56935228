// An item's number and an option's number: two kinds, alike but for the name, so that neither can stand where the other is meant.
ghost use Rattle.std.specs.Prelude.{◌≡◌};

#[derive(Clone, Copy, PartialEq, Eq, Debug)]
pub struct Item(pub u32);

#[derive(Clone, Copy, PartialEq, Eq, Debug)]
pub struct Opt(pub u32);

// The item with this number.
impl From<u32> for Item {
    ghost from_gives = { λ number item. item.0 ≡ number };

    fn from(number: u32) -> Item {
        Item(number)
    }
}

// The option with this number.
impl From<u32> for Opt {
    ghost from_gives = { λ number option. option.0 ≡ number };

    fn from(number: u32) -> Opt {
        Opt(number)
    }
}
