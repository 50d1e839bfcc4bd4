// What booking and the call by key answer: why not, by their answer numbers (RULES 3), or the line's figures and what its last report said.
ghost use Rattle.std.specs.Prelude.{◌≡◌};
ghost use Rattle.book.specs.Booking.{refused_number, refused_place, refused_as, done_as, booked_as, not_booked};

use entry::line::{Figures, Line};
use entry::report::Reported;
use record::answer::Refusal;
use std::error::Error;
use std::fmt;

#[derive(Clone, Copy, PartialEq, Eq, Debug)]
pub enum Refused {
    // The lent book is unsound, or a room or the roster is of wrong size.
    Unsound,
    // The record is not read.
    Unread(Refusal),
    // A closing record or an advance notice.
    NothingToBook,
    NoCopies,
    NoReference,
    LineExists,
    LinesUsed,
    NoLine,
    // The slip is booked already, for the same line key and quantity.
    SlipBooked,
    // The slip key is booked with another.
    SlipDiffers,
    SlipsUsed,
    TooManyArrived,
    // The school's account is not on the roster.
    NotOnRoster,
    // The order would bring the school's open copies above its ceiling.
    CeilingPassed,
}

// The index of the line that is added or changed, or a refusal.
pub type Verdict = Result<usize, Refused>;

// What is told of a line: its answer number and place, its figures, and what its last report said.
#[repr(C)]
#[derive(Clone, Copy, PartialEq, Eq, Debug)]
pub struct Told {
    pub answer: u64,
    pub place: usize,
    pub figures: Figures,
    pub reported: Reported,
}

// What a booking tells of the articles: numbers, since C reads them in `Booked`.
pub const AGREED: u64 = 1;

pub const NOT_AGREED: u64 = 0;

// What is told of a record's line, and whether the record named the line's article.
#[repr(C)]
#[derive(Clone, Copy, PartialEq, Eq, Debug)]
pub struct Booked {
    pub answer: u64,
    pub place: usize,
    pub figures: Figures,
    pub agreed: u64,
    pub reported: Reported,
}

// The number of a refusal.
impl From<Refused> for u64 {
    ghost from_gives = { λ r n. n ≡ refused_number r };

    #[tactic(auto, unfolding(crate::specs::Booking::refused_number))]
    fn from(r: Refused) -> u64 {
        match r {
            Refused::Unsound => 20,
            Refused::Unread(why) => why.into(),
            Refused::NothingToBook => 13,
            Refused::NoCopies => 11,
            Refused::NoReference => 12,
            Refused::LineExists => 14,
            Refused::LinesUsed => 15,
            Refused::NoLine => 16,
            Refused::SlipBooked => 17,
            Refused::SlipDiffers => 18,
            Refused::SlipsUsed => 19,
            Refused::TooManyArrived => 21,
            Refused::NotOnRoster => 24,
            Refused::CeilingPassed => 25,
        }
    }
}

impl Refused {
    // From 11 on the place is 0.
    #[tactic(auto, unfolding(crate::specs::Booking::refused_place))]
    pub fn place(self) -> usize
        ensures { result ≡ refused_place self }
    {
        match self {
            Refused::Unread(why) => why.place(),
            _ => 0,
        }
    }
}

// In the words of RULES 7.1.
impl fmt::Display for Refused {
    fn fmt<W: fmt::Write>(&self, f: &mut fmt::Formatter<W>) -> fmt::Result {
        match self {
            Refused::Unsound => {
                f.write_str("the roster has not the right size, or the book is not sound")
            }
            Refused::Unread(why) => write!(f, "{why}"),
            Refused::NothingToBook => {
                f.write_str("a closing record or an advance notice is never booked")
            }
            Refused::NoCopies => f.write_str("its quantity is 0"),
            Refused::NoReference => f.write_str("its reference is blank"),
            Refused::LineExists => f.write_str("a line with its key exists"),
            Refused::LinesUsed => f.write_str("all lines of the room are used"),
            Refused::NoLine => f.write_str("there is no line with its key"),
            Refused::SlipBooked => f.write_str("the slip is booked already"),
            Refused::SlipDiffers => {
                f.write_str("the slip is booked with another line or another quantity")
            }
            Refused::SlipsUsed => f.write_str("all slips of the room are used"),
            Refused::TooManyArrived => f.write_str(
                "the copies that arrived would pass their limit",
            ),
            Refused::NotOnRoster => f.write_str("its school is not on the roster"),
            Refused::CeilingPassed => {
                f.write_str("the open copies of its school would pass the ceiling")
            }
        }
    }
}

impl Error for Refused {}

// A refusal with zeros for all other values.
impl From<Refused> for Told {
    ghost from_gives = { λ r t. t ≡ refused_as r };

    #[tactic(auto, unfolding(crate::specs::Booking::refused_as))]
    fn from(r: Refused) -> Told {
        Told {
            answer: r.into(),
            place: r.place(),
            figures: Figures::default(),
            reported: Reported::default(),
        }
    }
}

// Done, with the figures of the line and what its last report said.
impl From<Line> for Told {
    ghost from_gives = { λ l t. t ≡ done_as l };

    #[tactic(auto, unfolding(crate::specs::Booking::done_as))]
    fn from(l: Line) -> Told {
        Told {
            answer: 0,
            place: 0,
            figures: l.figures(),
            reported: l.reported(),
        }
    }
}

impl Told {
    // What is told of a record's line, with whether the articles agreed.
    pub fn with_agreed(self, agreed: u64) -> Booked
        ensures { result ≡ booked_as self agreed }
    {
        Booked {
            answer: self.answer,
            place: self.place,
            figures: self.figures,
            agreed,
            reported: self.reported,
        }
    }
}

// A record that is refused.
impl From<Refused> for Booked {
    ghost from_gives = { λ r b. b ≡ not_booked r };

    fn from(r: Refused) -> Booked {
        Told::from(r).with_agreed(NOT_AGREED)
    }
}
