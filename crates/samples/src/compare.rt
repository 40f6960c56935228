// Lists compared in full, each with what is written of it.
use crate::lists::PATTERN;
use crate::show::Numbers;
use lines::parts::front;
use std::fmt;

// A list after a call: its name, the front that is written, and whether it is as it must be.
#[derive(Clone, Copy)]
pub(crate) struct Found<'a> {
    name: &'static str,
    front: &'a [u32],
    right: bool,
}

// Whether a list holds one number only.
fn is_all<T: PartialEq>(l: &[T], n: &T) -> bool {
    l.iter().all(|m| m == n)
}

impl<'a> Found<'a> {
    // A list of the result: n numbers at its front, and the pattern behind them.
    pub(crate) fn result(name: &'static str, l: &'a [u32], n: usize) -> Found<'a> {
        Found {
            name,
            front: front(l, n),
            right: is_all(l.get(n..).unwrap_or(&[]), &PATTERN),
        }
    }

    // A working list, of which nothing is written: as far as it was lent, it must hold one number only.
    pub(crate) fn working<T: PartialEq>(name: &'static str, lent: &[T], n: &T) -> Found<'a> {
        Found {
            name,
            front: &[],
            right: is_all(lent, n),
        }
    }

    pub(crate) fn is_right(self) -> bool {
        self.right
    }
}

impl fmt::Display for Found<'_> {
    fn fmt<W: fmt::Write>(&self, f: &mut fmt::Formatter<W>) -> fmt::Result {
        let name = self.name;
        if !self.front.is_empty() {
            let numbers = Numbers(self.front);
            write!(f, "{name}{numbers}")?;
        }
        if !self.right {
            write!(f, "{name} WRONG")?;
        }
        Ok(())
    }
}
