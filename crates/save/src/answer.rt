// What saving, loading and moving a save answer.
ghost use Rattle.std.specs.Prelude.{◌≡◌};
ghost use Rattle.save.specs.Saved.{refused_number, saved_of};
ghost use Rattle.save.specs.Load.{loaded_of};

use std::fmt;

#[derive(Clone, Copy, PartialEq, Eq, Debug)]
pub enum Refused {
    // The lent book is unsound, or a room is of wrong size.
    Unsound,
    // The bytes are not exactly a valid save.
    NoSave,
    // The lent output or book is too small.
    TooSmall,
    // A message has no place in the old form.
    MessageLost,
}

// The answer number and place, and how long the save is.
#[repr(C)]
#[derive(Clone, Copy, PartialEq, Eq, Debug)]
pub struct Saved {
    pub answer: u64,
    pub place: usize,
    pub length: usize,
}

// The answer number and place.
#[repr(C)]
#[derive(Clone, Copy, PartialEq, Eq, Debug)]
pub struct Loaded {
    pub answer: u64,
    pub place: usize,
}

impl From<Refused> for u64 {
    ghost from_gives = { λ r n. n ≡ refused_number r };

    #[tactic(auto, unfolding(crate::specs::Saved::refused_number))]
    fn from(r: Refused) -> u64 {
        match r {
            Refused::Unsound => 20,
            Refused::NoSave => 22,
            Refused::TooSmall => 23,
            Refused::MessageLost => 28,
        }
    }
}

// Saved or moved, with the length of what was written; or refused, with zeros for all other values.
impl From<Result<usize, Refused>> for Saved {
    ghost from_gives = { λ r s. s ≡ saved_of r };

    #[tactic(auto, unfolding(crate::specs::Saved::saved_of, crate::specs::Saved::not_saved, crate::specs::Saved::saved_as))]
    fn from(r: Result<usize, Refused>) -> Saved {
        match r {
            Ok(length) => Saved {
                answer: 0,
                place: 0,
                length,
            },
            Err(refused) => Saved {
                answer: u64::from(refused),
                place: 0,
                length: 0,
            },
        }
    }
}

// Loaded, or refused.
impl From<Result<(), Refused>> for Loaded {
    ghost from_gives = { λ r s. s ≡ loaded_of r };

    #[tactic(auto, unfolding(crate::specs::Load::loaded_of, crate::specs::Load::not_loaded))]
    fn from(r: Result<(), Refused>) -> Loaded {
        Loaded {
            answer: match r {
                Ok(()) => 0,
                Err(refused) => u64::from(refused),
            },
            place: 0,
        }
    }
}

impl fmt::Display for Refused {
    fn fmt<W: fmt::Write>(&self, f: &mut fmt::Formatter<W>) -> fmt::Result {
        match self {
            Refused::Unsound => write!(f, "the book is unsound, or a room is of wrong size"),
            Refused::NoSave => write!(f, "the bytes are no valid save"),
            Refused::TooSmall => write!(f, "the output or the book is too small"),
            Refused::MessageLost => write!(f, "a message has no place in the old form"),
        }
    }
}
