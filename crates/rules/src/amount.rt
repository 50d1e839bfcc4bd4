// Prices, discounts and copies, kept apart from each other.
ghost use Rattle.std.specs.Prelude.{◌≡◌, ℕ, ◌≤◌, length, Some, decimal};
ghost use Rattle.rules.specs.Number.{number};
ghost use Rattle.rules.specs.Values.{price, discount, copies};

use crate::number::number_of;
use std::fmt;

// Ten-thousandths of the currency.
#[derive(Clone, Copy, PartialEq, Eq, Debug, Default)]
pub struct Price(pub u64);

// Ten-thousandths of a percent.
#[derive(Clone, Copy, PartialEq, Eq, Debug, Default)]
pub struct Discount(pub u64);

// So many copies; a number of 64 bits for C too.
#[repr(C)]
#[derive(Clone, Copy, PartialEq, Eq, Debug, Default)]
pub struct Copies(pub u64);

// What digits count of: `of` gives that many.
pub trait Amount {
    ghost of: { ℕ → Self };

    fn of(n: u64) -> Self
        ensures { result ≡ of n };
}

impl Amount for Price {
    ghost of = { price };

    fn of(n: u64) -> Price {
        Price(n)
    }
}

impl Amount for Discount {
    ghost of = { discount };

    fn of(n: u64) -> Discount {
        Discount(n)
    }
}

impl Amount for Copies {
    ghost of = { copies };

    fn of(n: u64) -> Copies {
        Copies(n)
    }
}

// The amount that at most fifteen digits spell.
pub fn amount_of<A: Amount>(s: &[u8]) -> A
    requires { length s.now ≤ 15 }
    ensures { result ≡ A.of (number s.now) }
{
    A::of(number_of(s))
}

impl fmt::Display for Copies {
    ghost output = { λ c. Some (decimal c.0) };

    fn fmt<W: fmt::Write>(&self, f: &mut fmt::Formatter<W>) -> fmt::Result {
        let n = self.0;
        write!(f, "{n}")
    }
}
