// Numbers in decimal digits.
ghost use Rattle.std.specs.Prelude.{◌≡◌, ◌+◌, ◌-◌, ◌≤◌, length};
ghost use Rattle.std.proofs.Math.Seq.{slice};
ghost use Rattle.rules.specs.Number.{digit_value, number};

use signs::ZERO;

// What a digit counts; a byte below 0 counts nothing.
pub fn digit_value(b: u8) -> u64
    ensures { (result ≡ digit_value b) × (result ≤ 207) }
{
    u64::from(b.saturating_sub(ZERO))
}

// The number that the two digits at a place spell; of any two bytes it is at most eleven times 207.
#[tactic(auto, using(crate::proofs::Digits::pair_is))]
pub fn pair_at(s: &[u8], at: usize) -> u64
    requires { at + 2 ≤ length s.now }
    ensures { (result ≡ number (slice at (at + 2) s.now)) × (result ≤ 2277) }
{
    digit_value(s[at]) * 10 + digit_value(s[at + 1])
}

// The number that at most fifteen digits spell.
#[tactic(auto, using(crate::proofs::Digits::number_end))]
pub fn number_of(s: &[u8]) -> u64
    requires { length s.now ≤ 15 }
    ensures { result ≡ number s.now }
{
    let mut n: u64 = 0;
    for b in s {
        n = n * 10 + digit_value(*b);
    }
    n
}
