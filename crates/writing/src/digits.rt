// Numbers written in decimal digits.
ghost use Rattle.std.specs.Prelude.{◌≡◌, ◌+◌, ◌%◌, ◌^◌, ◌≤◌, [], ◌∷◌, length};
ghost use Rattle.std.proofs.lemmas.List.Edits.{sets};
ghost use Rattle.writing.specs.Digits.{digits_of, unwritable, number_bytes};

use signs::ZERO;

// One byte into a slice.
pub fn put_byte(out: &mut [u8], at: usize, b: u8)
    requires { at + 1 ≤ length out.old }
    ensures { out.new ≡ sets out.old at (b ∷ []) }
{
    out[at] = b;
}

// The digit that stands last in a number.
fn last_digit(n: u64) -> u8
    ensures { result ≡ 48 + n % 10 }
{
    ZERO + (n % 10) as u8
}

// The last digits of a number, as many as the width says, from the last one to the first.
#[tactic(auto, unfolding(crate::specs::Digits::digits_of), using(crate::proofs::Decimals::digits_back))]
pub fn put_digits(out: &mut [u8], at: usize, width: usize, number: u64)
    requires { (width ≤ 15) × (at + width ≤ length out.old) }
    ensures { out.new ≡ sets out.old at (digits_of width number) }
{
    let mut n = number;
    for i in (0..width).rev() {
        put_byte(out, at + i, last_digit(n));
        n /= 10;
    }
}

// Bytes that break every rule, for a value outside its range.
#[tactic(auto, unfolding(crate::specs::Digits::unwritable), using(cells::proofs::Stores::put_is))]
pub fn put_unwritable(out: &mut [u8], at: usize, width: usize)
    requires { (width ≤ 15) × (at + width ≤ length out.old) }
    ensures { out.new ≡ sets out.old at (unwritable width) }
{
    out[at..at + width].fill(0);
}

// A number in W digits, or where it has more, bytes that break every rule.
#[tactic(auto, unfolding(crate::specs::Digits::number_bytes), using(std::proofs::lemmas::Bool::Decides::nat_tests))]
pub fn put_number<const W: usize>(out: &mut [u8], at: usize, number: u64)
    requires { (W ≤ 15) × (at + W ≤ length out.old) }
    ensures { out.new ≡ sets out.old at (number_bytes W number) }
{
    if number < 10u64.pow(W as u32) {
        put_digits(out, at, W, number);
    } else {
        put_unwritable(out, at, W);
    }
}
