// What reading answers: why a record is refused, each reason with its place, and the answer numbers (RULES 3.2, 4.1).
ghost use Rattle.std.specs.Prelude.{◌≡◌};
ghost use Rattle.record.specs.Answers.{refusal_number, refusal_place, checked_of};

use crate::layout::MOST_BYTES;
use std::fmt;

#[derive(Clone, Copy, PartialEq, Eq, Debug)]
pub enum Refusal {
    TooLong,
    UnknownKind,
    // Shorter than the fixed part and `*9999`; its length.
    TooShort(usize),
    // The first byte not allowed.
    Byte(usize),
    // The start of the first fixed field that breaks its rule.
    FixedField(usize),
    // Where a star and four digits should stand.
    NoField(usize),
    // *9999 is not last, or absent.
    LastField(usize),
    TooManyFields(usize),
    // The star of a field whose content breaks its rule.
    Content(usize),
    // The star of a field whose group is broken.
    Group(usize),
    SmallTable,
}

// The number of optional fields before *9999, or a refusal.
pub type Verdict = Result<usize, Refusal>;

// The answer number, its place, and the number of optional fields.
#[repr(C)]
#[derive(Clone, Copy, PartialEq, Eq, Debug)]
pub struct Checked {
    pub answer: u64,
    pub place: usize,
    pub fields: usize,
}

// A record read into typed values: what is answered, and the values, zeros on a refusal.
#[derive(Clone, Copy, PartialEq, Eq, Debug)]
pub struct ReadAs<T> {
    pub checked: Checked,
    pub value: T,
}

impl Refusal {
    #[tactic(auto, unfolding(crate::specs::Answers::refusal_place))]
    pub fn place(self) -> usize
        ensures { result ≡ refusal_place self }
    {
        match self {
            Refusal::TooLong => MOST_BYTES,
            Refusal::UnknownKind | Refusal::SmallTable => 0,
            Refusal::TooShort(p)
            | Refusal::Byte(p)
            | Refusal::FixedField(p)
            | Refusal::NoField(p)
            | Refusal::LastField(p)
            | Refusal::TooManyFields(p)
            | Refusal::Content(p)
            | Refusal::Group(p) => p,
        }
    }
}

// The number of a refusal.
impl From<Refusal> for u64 {
    ghost from_gives = { λ r n. n ≡ refusal_number r };

    #[tactic(auto, unfolding(crate::specs::Answers::refusal_number))]
    fn from(r: Refusal) -> u64 {
        match r {
            Refusal::TooLong => 1,
            Refusal::UnknownKind => 2,
            Refusal::TooShort(_) => 3,
            Refusal::Byte(_) => 4,
            Refusal::FixedField(_) => 5,
            Refusal::NoField(_) => 6,
            Refusal::LastField(_) => 7,
            Refusal::TooManyFields(_) => 8,
            Refusal::Content(_) => 9,
            Refusal::Group(_) => 10,
            Refusal::SmallTable => 23,
        }
    }
}

// What a verdict says in numbers.
impl From<Verdict> for Checked {
    ghost from_gives = { λ v c. c ≡ checked_of v };

    #[tactic(auto, unfolding(crate::specs::Answers::checked_of))]
    fn from(v: Verdict) -> Checked {
        match v {
            Err(r) => Checked {
                answer: u64::from(r),
                place: r.place(),
                fields: 0,
            },
            Ok(n) => Checked {
                answer: 0,
                place: 0,
                fields: n,
            },
        }
    }
}

impl fmt::Display for Refusal {
    fn fmt<W: fmt::Write>(&self, f: &mut fmt::Formatter<W>) -> fmt::Result {
        match self {
            Refusal::TooLong => write!(f, "the record is too long"),
            Refusal::UnknownKind => write!(f, "the first four bytes name no kind"),
            Refusal::TooShort(n) => write!(f, "the record is too short, with {n} bytes"),
            Refusal::Byte(p) => write!(f, "the byte at {p} is not allowed"),
            Refusal::FixedField(p) => write!(f, "the fixed field at {p} breaks its rule"),
            Refusal::NoField(p) => write!(f, "no star, or no four digits after it, at {p}"),
            Refusal::LastField(p) => write!(f, "`*9999` is not last, or there is none, at {p}"),
            Refusal::TooManyFields(p) => write!(f, "too many optional fields, at {p}"),
            Refusal::Content(p) => write!(f, "the content of the field at {p} breaks its rule"),
            Refusal::Group(p) => write!(f, "the group of the field at {p} is broken"),
            Refusal::SmallTable => write!(f, "the lent table is too small"),
        }
    }
}

impl std::error::Error for Refusal {}
