// Four bytes to a number, lowest first: how the lists of the C calls are read and written.
// The functions of this crate that have a `requires` are no public calls.
#![tactic(auto)]

ghost use Rattle.std.specs.Prelude.{◌≡◌, ◌*◌, ◌≤◌, length, map, take};
ghost use Rattle.rules.specs.Lists.{any, written};
ghost use Rattle.words.specs.Bytes.{four, numbers_of, bytes_of, ragged_length};

pub mod cell;
pub mod numeral;

use cell::Cell;
use numeral::Numeral;

// Whether a length is no multiple of four.
pub fn is_ragged(len: usize) -> bool
    ensures { result ≡ ragged_length len }
{
    len % 4 != 0
}

// Whether any of some lengths is.
pub fn any_ragged(lengths: &[usize]) -> bool
    ensures { result ≡ any ragged_length lengths.now }
{
    lengths.iter().any(|length| is_ragged(*length))
}

// How many whole fours a byte list has.
pub fn count(bytes: &[u8]) -> usize
    ensures { result ≡ length (numbers_of bytes.now) }
{
    bytes.len() / 4
}

// The whole fours of a byte list.
pub fn fours(bytes: &[u8]) -> &[[u8; 4]]
    ensures { map four result.now ≡ numbers_of bytes.now }
{
    bytes.as_chunks().0
}

// Reads the numbers of a byte list to the front of `out`: by place, since `iter_mut` says nothing of what a list ends as.
pub fn read_words(bytes: &[u8], out: &mut [u32])
    requires { length (numbers_of bytes.now) ≤ length out.old }
    ensures { out.new ≡ written (numbers_of bytes.now) out.old }
{
    for (k, four) in fours(bytes).iter().enumerate() {
        out[k] = four.number();
    }
}

// Writes the first `count` numbers of `words` to the front of a byte list.
pub fn write_words(words: &[u32], count: usize, bytes: &mut [u8])
    requires { (count ≤ length words.now) × (4 * count ≤ length bytes.old) }
    ensures { bytes.new ≡ written (bytes_of (take count words.now)) bytes.old }
{
    // by place, as in `read_words`
    for (k, word) in words[..count].iter().enumerate() {
        u8::put(&mut *bytes, k, *word);
    }
}
