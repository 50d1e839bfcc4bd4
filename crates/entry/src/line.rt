// A line of the book as a value, taken and given back by value.
ghost use Rattle.std.specs.Prelude.{Some, ◌≡◌, ◌+◌, ◌<◌, ◌^◌};
ghost use Rattle.entry.specs.Line.{mark_of, mark_byte, missing, open_of, let_go_of, with_report, with_arrivals, figures_of, figures_text, reported_of};

use crate::report::{Message, Reported, report_told};
use rules::amount::Copies;
use rules::expected::Expected;
use std::fmt;

// The last report mark: none, J or N.
#[derive(Clone, Copy, PartialEq, Eq, Debug)]
pub enum Mark {
    Unmarked,
    Held,
    Dropped,
}

// The ordered quantity Q, the sum A of its slips, and what its last report said: mark, message and expected date.
#[derive(Clone, Copy, PartialEq, Eq, Debug)]
pub struct Line {
    pub ordered: Copies,
    pub arrived: Copies,
    pub mark: Mark,
    pub message: Message,
    pub expected: Expected,
}

#[repr(C)]
#[derive(Clone, Copy, PartialEq, Eq, Debug, Default)]
pub struct Figures {
    pub ordered: Copies,
    pub filled: Copies,
    pub still_open: Copies,
    pub let_go: Copies,
    pub extra: Copies,
}

// The five numbers with a blank between, as a line is printed.
impl fmt::Display for Figures {
    ghost output = { λ f. Some (figures_text f) };

    #[tactic(auto, unfolding(crate::specs::Line::figures_text))]
    fn fmt<W: fmt::Write>(&self, f: &mut fmt::Formatter<W>) -> fmt::Result {
        write!(
            f,
            "{} {} {} {} {}",
            self.ordered.0, self.filled.0, self.still_open.0, self.let_go.0, self.extra.0
        )
    }
}

// The mark that a byte of the book stands for.
impl From<u8> for Mark {
    ghost from_gives = { λ b m. m ≡ mark_of b };

    fn from(b: u8) -> Mark {
        match b {
            1 => Mark::Held,
            2 => Mark::Dropped,
            _ => Mark::Unmarked,
        }
    }
}

impl From<Mark> for u8 {
    ghost from_gives = { λ m b. b ≡ mark_byte m };

    #[tactic(auto, unfolding(crate::specs::Line::mark_byte))]
    fn from(m: Mark) -> u8 {
        match m {
            Mark::Unmarked => 0,
            Mark::Held => 1,
            Mark::Dropped => 2,
        }
    }
}

// The copies of q that are not among a.
pub fn missing(q: Copies, a: Copies) -> Copies
    ensures { result ≡ missing q a }
{
    Copies(q.0 - q.0.min(a.0))
}

impl Mark {
    // What of the copies not filled is open, and what is let go.
    #[tactic(auto, unfolding(crate::specs::Line::open_of))]
    pub fn open_of(self, n: Copies) -> Copies
        ensures { result ≡ open_of self n }
    {
        match self {
            Mark::Dropped => Copies(0),
            Mark::Unmarked | Mark::Held => n,
        }
    }

    #[tactic(auto, unfolding(crate::specs::Line::let_go_of))]
    fn let_go_of(self, n: Copies) -> Copies
        ensures { result ≡ let_go_of self n }
    {
        match self {
            Mark::Dropped => n,
            Mark::Unmarked | Mark::Held => Copies(0),
        }
    }
}

impl Line {
    // The line with what a report says.
    #[tactic(auto, unfolding(crate::specs::Line::with_report))]
    pub fn with_report(self, mark: Mark, message: Message, expected: Expected) -> Self
        ensures { result ≡ with_report mark message expected self }
    {
        Line {
            mark,
            message,
            expected,
            ..self
        }
    }

    // The line with so many copies more.
    #[tactic(auto, unfolding(crate::specs::Line::with_arrivals))]
    pub fn with_arrivals(self, n: Copies) -> Self
        requires { self.arrived.0 + n.0 < 2 ^ 64 }
        ensures { result ≡ with_arrivals n self }
    {
        Line {
            arrived: Copies(self.arrived.0 + n.0),
            ..self
        }
    }

    #[tactic(auto, unfolding(crate::specs::Line::figures_of, crate::specs::Line::filled_of))]
    pub fn figures(self) -> Figures
        ensures { result ≡ figures_of self }
    {
        let ordered = self.ordered;
        let filled = Copies(ordered.0.min(self.arrived.0));
        let left = missing(ordered, self.arrived);
        Figures {
            ordered,
            filled,
            still_open: self.mark.open_of(left),
            let_go: self.mark.let_go_of(left),
            extra: Copies(self.arrived.0 - filled.0),
        }
    }

    // What its last report said, as it is told.
    #[tactic(auto, unfolding(crate::specs::Line::reported_of))]
    pub fn reported(self) -> Reported
        ensures { result ≡ reported_of self }
    {
        report_told(self.message, self.expected)
    }
}
