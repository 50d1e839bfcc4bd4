// What reading and writing parts answer beside what records do, with the numbers of RULES 3.2.
ghost use Rattle.std.specs.Prelude.{◌≡◌};
ghost use Rattle.parts.specs.Answers.{refusal_number, read_of, not_written};

use writing::answer::Written;

#[derive(Clone, Copy, PartialEq, Eq, Debug)]
pub enum Refusal {
    // The room has not place for the parts.
    SmallRoom,
    // A bundle without parts, or parts that are not as they have to be.
    Broken,
    TooMany,
}

// The number of parts, or a refusal.
pub type Verdict = Result<usize, Refusal>;

// The answer number and place, and the number of parts.
#[repr(C)]
#[derive(Clone, Copy, PartialEq, Eq, Debug)]
pub struct PartsRead {
    pub answer: u64,
    pub place: usize,
    pub parts: usize,
}

// The number of a refusal.
impl From<Refusal> for u64 {
    ghost from_gives = { λ r n. n ≡ refusal_number r };

    #[tactic(auto, unfolding(crate::specs::Answers::refusal_number))]
    fn from(r: Refusal) -> u64 {
        match r {
            Refusal::SmallRoom => 23,
            Refusal::Broken => 26,
            Refusal::TooMany => 27,
        }
    }
}

// What a verdict says of reading, in numbers.
impl From<Verdict> for PartsRead {
    ghost from_gives = { λ v r. r ≡ read_of v };

    #[tactic(auto, unfolding(crate::specs::Answers::read_of))]
    fn from(v: Verdict) -> PartsRead {
        match v {
            Err(r) => PartsRead {
                answer: r.into(),
                place: 0,
                parts: 0,
            },
            Ok(n) => PartsRead {
                answer: 0,
                place: 0,
                parts: n,
            },
        }
    }
}

// What a refusal says of writing, in numbers.
impl From<Refusal> for Written {
    ghost from_gives = { λ r w. w ≡ not_written r };

    #[tactic(auto, unfolding(crate::specs::Answers::not_written))]
    fn from(r: Refusal) -> Written {
        Written {
            answer: r.into(),
            place: 0,
            length: 0,
        }
    }
}
