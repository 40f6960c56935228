// The problem's own type: its counts, and the figures that belong to it, the paper's and the desk's. The lists themselves are lent beside it.
ghost use Rattle.std.specs.Prelude.{◌≡◌, ◌+◌, IfOk};
ghost use Rattle.rules.specs.Problem.{figures, desk_figures};
ghost use Rattle.rules.specs.Refusals.{refusal_in};
ghost use Rattle.rules.specs.Sizing.{figures_of, sizing};

use crate::refusal::{Check, Refusal, refuse_if};

// The most that is taken: the counts of items, options and entries, and the highest colour.
#[derive(Clone, Copy, PartialEq, Eq, Debug)]
pub struct Figures {
    pub items: usize,
    pub options: usize,
    pub entries: usize,
    pub colour: u32,
}

#[derive(Clone, Copy, PartialEq, Eq, Debug)]
pub struct Problem {
    // primary items, which are numbered first, and secondary items
    pub np: u32,
    pub ns: u32,
    // how many there are in the lists
    pub options: usize,
    pub entries: usize,
}

// The figures. Counts of what lists hold are a `usize`, so that they are lengths of lists too.
impl Problem {
    pub const ITEMS: usize = 1024;

    pub const OPTIONS: usize = 4096;

    pub const ENTRIES: usize = 16384;

    pub const COLOUR: u32 = 255;

    // what a problem at the very figures asks for: its nodes, and its marks
    pub const NODES: usize = Problem::ITEMS + 2 + Problem::ENTRIES + Problem::OPTIONS;

    pub const MARKS: usize = Problem::ITEMS + 1;

    // the same of the desk, where colours are as elsewhere
    pub const DESK_ITEMS: usize = 64;

    pub const DESK_OPTIONS: usize = 256;

    pub const DESK_ENTRIES: usize = 1024;

    pub const DESK_NODES: usize = Problem::DESK_ITEMS
        + 2
        + Problem::DESK_ENTRIES
        + Problem::DESK_OPTIONS;

    pub const DESK_MARKS: usize = Problem::DESK_ITEMS + 1;

    // The figures of the paper.
    pub fn figures() -> Figures
        ensures { figures_of result ≡ figures }
    {
        Figures {
            items: Problem::ITEMS,
            options: Problem::OPTIONS,
            entries: Problem::ENTRIES,
            colour: Problem::COLOUR,
        }
    }

    // The figures of the desk.
    pub fn desk_figures() -> Figures
        ensures { figures_of result ≡ desk_figures }
    {
        Figures {
            items: Problem::DESK_ITEMS,
            options: Problem::DESK_OPTIONS,
            entries: Problem::DESK_ENTRIES,
            colour: Problem::COLOUR,
        }
    }
}

impl Problem {
    // The count of all items.
    pub fn n(self) -> usize
        ensures { result ≡ self.np + self.ns }
    {
        self.np as usize + self.ns as usize
    }
}

// The constructors.
impl Problem {
    // A problem of these counts, at some figures: checks 10 to 15. `differ` says that the item and colour lists differ in length.
    #[tactic(auto, unfolding(crate::specs::Sizing::sizing))]
    pub fn within(
        f: Figures,
        np: u32,
        ns: u32,
        options: usize,
        entries: usize,
        differ: bool,
    ) -> Result<Problem, Refusal>
        ensures refused { refusal_in result ≡ sizing (figures_of f) np ns options entries differ }
        ensures counts { IfOk result (λ p. p ≡ record { np = np; ns = ns; options = options; entries = entries }) }
    {
        refuse_if(np == 0, Check::NoPrimary, 0)?;
        // the true sum, never wrapped
        let items = np as usize + ns as usize;
        refuse_if(f.items < items, Check::TooManyItems, 0)?;
        refuse_if(options == 0, Check::NoOption, 0)?;
        refuse_if(f.options < options, Check::TooManyOptions, 0)?;
        refuse_if(differ, Check::Uneven, 0)?;
        refuse_if(f.entries < entries, Check::TooManyEntries, 0)?;
        Ok(Problem {
            np,
            ns,
            options,
            entries,
        })
    }

    // The same at the paper's figures.
    pub fn new(
        np: u32,
        ns: u32,
        options: usize,
        entries: usize,
        differ: bool,
    ) -> Result<Problem, Refusal>
        ensures refused { refusal_in result ≡ sizing figures np ns options entries differ }
        ensures counts { IfOk result (λ p. p ≡ record { np = np; ns = ns; options = options; entries = entries }) }
    {
        Problem::within(Problem::figures(), np, ns, options, entries, differ)
    }

    // The same at the desk's.
    pub fn at_desk(
        np: u32,
        ns: u32,
        options: usize,
        entries: usize,
        differ: bool,
    ) -> Result<Problem, Refusal>
        ensures refused { refusal_in result ≡ sizing desk_figures np ns options entries differ }
        ensures counts { IfOk result (λ p. p ≡ record { np = np; ns = ns; options = options; entries = entries }) }
    {
        Problem::within(Problem::desk_figures(), np, ns, options, entries, differ)
    }
}
