// The roster as a lent array of schools: whoever calls from C lends it as it stands in memory.
ghost use Rattle.std.specs.Prelude.{◌≡◌, length};
ghost use Rattle.roster.specs.Schools.{is_of, find_school, ceiling_of, standing_of, refused_number, said, told_as};

use crate::MOST_SCHOOLS;
use cells::{same, same_by};
use std::convert::From;

// An entry of the roster: in memory the 16 bytes of one.
#[repr(C)]
#[derive(Clone, Copy, PartialEq, Eq, Debug)]
pub struct School {
    pub address: [u8; 10],
    pub qualifier: [u8; 2],
    pub ceiling: u32,
}

// What is told of an account: 0 and its ceiling, or the number of a refusal.
#[repr(C)]
#[derive(Clone, Copy, PartialEq, Eq, Debug)]
pub struct AccountTold {
    pub answer: u64,
    pub place: usize,
    pub ceiling: u64,
}

// Why nothing is told of an account: the schools are no roster, or none of them has it.
#[derive(Clone, Copy, PartialEq, Eq, Debug)]
pub enum Refused {
    WrongRoom,
    NotOnRoster,
}

impl From<Refused> for u64 {
    ghost from_gives = { λ r n. n ≡ refused_number r };

    fn from(r: Refused) -> u64 {
        match r {
            Refused::WrongRoom => 20,
            Refused::NotOnRoster => 24,
        }
    }
}

// An account, as a record names it.
#[derive(Clone, Copy, PartialEq, Eq, Debug)]
pub struct Account<'a> {
    pub address: &'a [u8],
    pub qualifier: &'a [u8],
}

impl School {
    // Whether a school has an account.
    #[tactic(auto, unfolding(crate::specs::Schools::is_of))]
    fn has(&self, account: Account) -> bool
        ensures { result ≡ is_of self.now account.entry.address.now account.entry.qualifier.now }
    {
        same_by(&self.address, account.address, 0) && same(&self.qualifier, account.qualifier)
    }
}

// The index of the first school with an account.
#[tactic(auto, unfolding(crate::specs::Schools::find_school, crate::specs::Schools::is_account), using(cells::proofs::Searches::first_here, cells::proofs::Searches::first_next, cells::proofs::Searches::first_end))]
pub fn find_school(schools: &[School], account: Account) -> Option<usize>
    ensures { result ≡ find_school schools.now account.entry.address.now account.entry.qualifier.now }
{
    for (i, school) in schools.iter().enumerate() {
        if school.has(account) {
            return Some(i);
        }
    }
    None
}

// The ceiling of the school with an index, 0 past the last.
#[tactic(auto, unfolding(crate::specs::Schools::ceiling_of))]
pub fn ceiling_of(schools: &[School], i: usize) -> u32
    ensures { result ≡ ceiling_of schools.now i }
{
    schools.get(i).map_or(0, |school| school.ceiling)
}

// What the schools say of an account: its ceiling, or why there is none.
#[tactic(auto, unfolding(crate::specs::Schools::said, crate::specs::Schools::standing_of, crate::specs::Schools::standing_among))]
pub fn said(schools: &[School], account: Account) -> Result<u64, Refused>
    ensures { result ≡ said (length schools.now) (standing_of schools.now account.entry.address.now account.entry.qualifier.now) }
{
    if MOST_SCHOOLS < schools.len() {
        return Err(Refused::WrongRoom);
    }
    let i = find_school(schools, account).ok_or(Refused::NotOnRoster)?;
    Ok(u64::from(ceiling_of(schools, i)))
}

impl From<Result<u64, Refused>> for AccountTold {
    ghost from_gives = { λ s told. told ≡ told_as s };

    #[tactic(auto, unfolding(crate::specs::Schools::told_as, crate::specs::Schools::told_of, crate::specs::Schools::not_told))]
    fn from(said: Result<u64, Refused>) -> AccountTold {
        match said {
            Ok(ceiling) => AccountTold {
                answer: 0,
                place: 0,
                ceiling,
            },
            Err(refused) => AccountTold {
                answer: u64::from(refused),
                place: 0,
                ceiling: 0,
            },
        }
    }
}
