// A number as it stands in a list that is read.
ghost use Rattle.std.specs.Prelude.{◌≡◌, ℕ};
ghost use Rattle.words.specs.Bytes.{four};

// What stands for a number: the number itself, or its four bytes, lowest first.
pub trait Numeral: Copy {
    ghost value: { Self → ℕ };

    // The number that this stands for.
    fn number(self) -> u32
        ensures { result ≡ value self };
}

impl Numeral for u32 {
    ghost value = { λ n. n };

    fn number(self) -> u32 {
        self
    }
}

impl Numeral for [u8; 4] {
    ghost value = { four };

    fn number(self) -> u32 {
        u32::from_le_bytes(self)
    }
}
