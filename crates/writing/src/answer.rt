// What writing answers: why a record is not written, and the answer numbers of RULES 3.2.
ghost use Rattle.std.specs.Prelude.{◌≡◌};
ghost use Rattle.writing.specs.Write.{refusal_number, refusal_place, written_of};

use record::layout::{MOST_BYTES, MOST_FIELDS};
use std::fmt;

#[derive(Clone, Copy, PartialEq, Eq, Debug)]
pub enum Refusal {
    // The index of the first fixed field that breaks its rule or holds a byte not allowed.
    FixedField(usize),
    TooManyFields,
    SmallTable,
    // The index of a field whose ID or content cannot stand.
    Content(usize),
    // The index of a field whose group is broken.
    Group(usize),
    TooLong,
    SmallOutput,
}

// The length of the record, or a refusal.
pub type Verdict = Result<usize, Refusal>;

// The answer number and place, and the number of bytes written.
#[repr(C)]
#[derive(Clone, Copy, PartialEq, Eq, Debug)]
pub struct Written {
    pub answer: u64,
    pub place: usize,
    pub length: usize,
}

// The answer number of a refusal.
impl From<Refusal> for u64 {
    ghost from_gives = { λ r n. n ≡ refusal_number r };

    #[tactic(auto, unfolding(crate::specs::Write::refusal_number))]
    fn from(r: Refusal) -> u64 {
        match r {
            Refusal::FixedField(_) => 5,
            Refusal::TooManyFields => 8,
            Refusal::SmallTable => 23,
            Refusal::Content(_) => 9,
            Refusal::Group(_) => 10,
            Refusal::TooLong => 1,
            Refusal::SmallOutput => 23,
        }
    }
}

impl Refusal {
    // Its place: in writing an index, not a byte.
    #[tactic(auto, unfolding(crate::specs::Write::refusal_place))]
    pub fn place(self) -> usize
        ensures { result ≡ refusal_place self }
    {
        match self {
            Refusal::FixedField(i) => i,
            Refusal::TooManyFields => MOST_FIELDS,
            Refusal::SmallTable => 0,
            Refusal::Content(i) => i,
            Refusal::Group(i) => i,
            Refusal::TooLong => 0,
            Refusal::SmallOutput => 0,
        }
    }
}

// What a verdict says in numbers.
impl From<Verdict> for Written {
    ghost from_gives = { λ v w. w ≡ written_of v };

    #[tactic(auto, unfolding(crate::specs::Write::written_of))]
    fn from(v: Verdict) -> Written {
        match v {
            Err(r) => Written {
                answer: r.into(),
                place: r.place(),
                length: 0,
            },
            Ok(length) => Written {
                answer: 0,
                place: 0,
                length,
            },
        }
    }
}

impl fmt::Display for Refusal {
    fn fmt<W: fmt::Write>(&self, f: &mut fmt::Formatter<W>) -> fmt::Result {
        match self {
            Refusal::FixedField(i) => write!(f, "fixed field {i} is not as it has to be"),
            Refusal::TooManyFields => write!(
                f,
                "more optional fields than a record may have, {MOST_FIELDS}"
            ),
            Refusal::SmallTable => write!(f, "the table has fewer entries than are counted"),
            Refusal::Content(i) => write!(f, "the ID or the content of field {i} cannot stand"),
            Refusal::Group(i) => write!(f, "field {i} breaks its group"),
            Refusal::TooLong => write!(f, "the record has over {MOST_BYTES} bytes"),
            Refusal::SmallOutput => write!(f, "the output has no room for the record"),
        }
    }
}
