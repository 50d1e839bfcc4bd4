// Articles and their check digits.
ghost use Rattle.std.specs.Prelude.{◌≡◌, true, ◌≤◌, length};
ghost use Rattle.cells.specs.Bytes.{all};
ghost use Rattle.rules.specs.Article.{low, check_value, weighted, gs1, isbn, series_volume, article};

use crate::number::digit_value;
use cells::{part, same};
use signs::{Class, LETTER_X, all_of, is_padded, of_class};

const GS1: [u64; 13] = [1, 3, 1, 3, 1, 3, 1, 3, 1, 3, 1, 3, 1];

const ISBN: [u64; 10] = [10, 9, 8, 7, 6, 5, 4, 3, 2, 1];

// What a character of a check sum counts.
#[tactic(auto, unfolding(crate::specs::Article::check_value))]
fn check_value(b: u8) -> u64
    ensures { (result ≡ check_value b) × (result ≤ 207) }
{
    if b == LETTER_X {
        return 10;
    }
    digit_value(b)
}

// The sum of the characters, each times its weight.
#[tactic(auto, using(crate::proofs::Sums::term, crate::proofs::Sums::weighed, crate::proofs::Sums::small_at))]
fn weighted_sum(weights: &[u64], s: &[u8]) -> u64
    requires { (length s.now ≤ length weights.now) × (length weights.now ≤ 13) × (all low weights.now ≡ true) }
    ensures { result ≡ weighted weights.now s.now }
{
    let mut sum: u64 = 0;
    for (i, b) in s.iter().enumerate() {
        sum += weights[i] * check_value(*b);
    }
    sum
}

// Thirteen digits with the GS1 check digit.
#[tactic(auto, unfolding(crate::specs::Article::gs1))]
fn is_gs1(s: &[u8]) -> bool
    ensures { result ≡ gs1 s.now }
{
    if !of_class(Class::Digit, 13, 13, s) {
        return false;
    }
    weighted_sum(&GS1, s) % 10 == 0
}

// Ten characters with the modulo 11 check.
#[tactic(auto, unfolding(crate::specs::Article::isbn, cells::specs::Bytes::all))]
fn is_isbn(s: &[u8]) -> bool
    requires { length s.now ≤ 10 }
    ensures { result ≡ isbn s.now }
{
    let sum = weighted_sum(&ISBN, s);
    all_of(Class::Digit, part(s, 0, 9))
        & (of_class(Class::DigitOrX, 1, 1, part(s, 9, 10)) & (sum % 11 == 0))
}

// Three digits, five blanks, five digits.
#[tactic(auto, unfolding(crate::specs::Article::series_volume))]
fn is_series_volume(s: &[u8]) -> bool
    ensures { result ≡ series_volume s.now }
{
    all_of(Class::Digit, part(s, 0, 3))
        & (all_of(Class::Blank, part(s, 3, 8)) & of_class(Class::Digit, 5, 5, part(s, 8, 13)))
}

// The article by the qualifier after it.
#[tactic(auto, unfolding(crate::specs::Article::article))]
pub fn is_article(qualifier: &[u8], s: &[u8]) -> bool
    ensures { result ≡ article qualifier.now s.now }
{
    if same(qualifier, b"EN") {
        return is_gs1(s);
    }
    if same(qualifier, b"IB") {
        return is_isbn(part(s, 0, 10)) & all_of(Class::Blank, part(s, 10, 13));
    }
    if same(qualifier, b"KN") {
        return is_padded(Class::Digit, 7, 8, s);
    }
    if same(qualifier, b"UM") {
        return is_padded(Class::Digit, 1, 13, s);
    }
    if same(qualifier, b"RK") {
        return is_series_volume(s);
    }
    true
}
