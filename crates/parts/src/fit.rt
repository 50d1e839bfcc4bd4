// Bytes in front of an array, with zeros behind them.
ghost use Rattle.std.specs.Prelude.{◌≡◌};
ghost use Rattle.parts.specs.Part.{fitted};

use cells::{bytes_at, paste_at};

// The most digits of an amount.
pub const MOST_DIGITS: usize = 15;
// The bytes of an article.
pub const ARTICLE_WIDTH: usize = 35;

// The bytes in front, as many as there is room for, at the width that a value of a part has.
#[tactic(auto, using(crate::proofs::Fits::fitted_full, crate::proofs::Fits::fitted_over))]
pub fn fitted<const N: usize>(s: &[u8]) -> [u8; N]
    ensures { result ≡ fitted N s.now }
{
    if N <= s.len() {
        return bytes_at(s, 0);
    }
    let mut a = [0u8; N];
    paste_at(&mut a, 0, s);
    a
}
