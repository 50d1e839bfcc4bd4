// A day of the Gregorian calendar.
ghost use Rattle.std.specs.Prelude.{◌≡◌, ◌++◌, length, get_or, Some, codes, decimal};
ghost use Rattle.rules.specs.Day.{day_width, month_lengths, leap, month_days, real_day, day_of, dated};
ghost use Rattle.signs.specs.Class.{all_of};
ghost use Rattle.signs.specs.declared.Class.TheVariants.{Digit};

use crate::number::pair_at;
use signs::{Class, belongs_to};
use std::fmt;

#[derive(Clone, Copy, PartialEq, Eq, Debug, Default)]
pub struct Day {
    pub year: u64,
    pub month: u64,
    pub day: u64,
}

const FEBRUARY: u64 = 2;

const LAST_MONTH: u64 = 12;

#[tactic(auto, unfolding(crate::specs::Day::leap))]
fn is_leap(year: u64) -> bool
    ensures { result ≡ leap year }
{
    (year % 4 == 0) & ((year % 100 != 0) | (year % 400 == 0))
}

// The days of a month other than February: 31 and 30 in turn up to July, and so from August on; 0 where there is no such month.
fn long_month(month: u64) -> u64
    requires { month ≡ 2 → ⊥ }
    ensures { result ≡ get_or month_lengths month 0 }
{
    if !(1..=LAST_MONTH).contains(&month) {
        return 0;
    }
    30 + (month + month / 8) % 2
}

// The days of a month, 0 where there is no such month.
#[tactic(auto, unfolding(crate::specs::Day::month_days))]
fn month_days(year: u64, month: u64) -> u64
    ensures { result ≡ month_days year month }
{
    if month != FEBRUARY {
        return long_month(month);
    }
    if is_leap(year) {
        return 29;
    }
    28
}

// Whether bytes are digits; none of them ends the test, so that they are judged together.
#[tactic(auto, unfolding(signs::specs::Class::all_of), using(signs::proofs::Runs::all_on, signs::proofs::Runs::all_end))]
fn are_digits(s: &[u8]) -> bool
    ensures { result ≡ all_of Digit s.now }
{
    let mut kept = true;
    for b in s {
        kept &= belongs_to(Class::Digit, *b);
    }
    kept
}

// The parts of a day in eight digits, whether or not there is such a day.
#[tactic(auto, unfolding(crate::specs::Day::day_of), using(crate::proofs::Digits::pairs_are))]
fn day_parts(s: &[u8]) -> Day
    requires { length s.now ≡ day_width }
    ensures { result ≡ day_of s.now }
{
    let year = pair_at(s, 0) * 100 + pair_at(s, 2);
    let month = pair_at(s, 4);
    let day = pair_at(s, 6);
    Day { year, month, day }
}

impl Day {
    pub const FIRST_YEAR: u64 = 1;

    pub const LAST_YEAR: u64 = 9999;

    pub const WIDTH: usize = 8;

    // Whether there is such a day.
    #[tactic(auto, unfolding(crate::specs::Day::real_day))]
    pub fn is_real(self) -> bool
        ensures { result ≡ real_day self }
    {
        let days = month_days(self.year, self.month);
        (Day::FIRST_YEAR..=Day::LAST_YEAR).contains(&self.year) & (1..=days).contains(&self.day)
    }

    // A day from its digits, which are judged.
    #[tactic(auto, unfolding(crate::specs::Day::dated, crate::specs::Day::is_day))]
    pub fn of_digits(s: &[u8]) -> Option<Day>
        ensures { result ≡ dated s.now }
    {
        if s.len() != Day::WIDTH {
            return None;
        }
        if !are_digits(s) {
            return None;
        }
        let day = day_parts(s);
        if !day.is_real() {
            return None;
        }
        Some(day)
    }
}

// Year, month and day, without zeros in front.
impl fmt::Display for Day {
    ghost output = { λ d. Some (decimal d.year ++ (codes "-" ++ (decimal d.month ++ (codes "-" ++ decimal d.day)))) };

    fn fmt<W: fmt::Write>(&self, f: &mut fmt::Formatter<W>) -> fmt::Result {
        let Day { year, month, day } = *self;
        write!(f, "{year}-{month}-{day}")
    }
}
