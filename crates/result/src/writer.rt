// Writing the options that are left, one behind another.
ghost use Rattle.std.specs.Prelude.{◌≡◌, ◌+◌, ◌<◌, length, set};
ghost use Rattle.rules.specs.Bounds.{word_bound};
ghost use Rattle.result.specs.Writer.{SameWriter};

use rules::number::{Item, Opt};

// The lists of a result that hold options: of each its end and its number, of their entries the items and the colours. All are written from the front.
#[derive(Drop)]
pub struct Writer<'a> {
    pub ends: &'a mut [u32],
    pub numbers: &'a mut [u32],
    pub items: &'a mut [u32],
    pub colours: &'a mut [u32],
    // how many options and entries are written
    pub option: usize,
    pub entry: usize,
}

impl<'a> Writer<'a> {
    // Writes an entry.
    pub fn put(&mut self, item: Item, colour: u32)
        requires { (self.old.entry < length self.old.items.now) × (self.old.entry < length self.old.colours.now) }
        ensures lists { SameWriter self.old self.new }
        ensures ends { self.new.ends.now ≡ self.old.ends.now }
        ensures numbers { self.new.numbers.now ≡ self.old.numbers.now }
        ensures items { self.new.items.now ≡ set self.old.items.now self.old.entry item.0 }
        ensures colours { self.new.colours.now ≡ set self.old.colours.now self.old.entry colour }
        ensures option { self.new.option ≡ self.old.option }
        ensures entry { self.new.entry ≡ self.old.entry + 1 }
    {
        self.items[self.entry] = item.0;
        self.colours[self.entry] = colour;
        self.entry += 1;
    }

    // Ends the option whose entries are written, with its number.
    pub fn end(&mut self, number: Opt)
        requires { (self.old.option < length self.old.ends.now) × (self.old.option < length self.old.numbers.now) × (self.old.entry < word_bound) }
        ensures lists { SameWriter self.old self.new }
        ensures ends { self.new.ends.now ≡ set self.old.ends.now self.old.option self.old.entry }
        ensures numbers { self.new.numbers.now ≡ set self.old.numbers.now self.old.option number.0 }
        ensures items { self.new.items.now ≡ self.old.items.now }
        ensures colours { self.new.colours.now ≡ self.old.colours.now }
        ensures option { self.new.option ≡ self.old.option + 1 }
        ensures entry { self.new.entry ≡ self.old.entry }
    {
        self.ends[self.option] = self.entry as u32;
        self.numbers[self.option] = number.0;
        self.option += 1;
    }
}
