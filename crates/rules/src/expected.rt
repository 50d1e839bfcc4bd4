// An expected date.
ghost use Rattle.std.specs.Prelude.{◌≡◌};
ghost use Rattle.rules.specs.Values.{expected_of};

use crate::day::Day;
use signs::{Class, all_of};

// A day, eight zeros or eight blanks (RULES 1.5); which of the three it was is kept.
#[derive(Clone, Copy, PartialEq, Eq, Debug, Default)]
pub enum Expected {
    On(Day),
    #[default]
    Zeros,
    Blanks,
}

#[tactic(auto, unfolding(crate::specs::Values::expected_of))]
pub fn expected_of(s: &[u8]) -> Expected
    ensures { result ≡ expected_of s.now }
{
    match Day::of_digits(s) {
        Some(day) => Expected::On(day),
        None => {
            if all_of(Class::Blank, s) {
                return Expected::Blanks;
            }
            Expected::Zeros
        }
    }
}
