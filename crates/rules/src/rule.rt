// The field rules as data.
ghost use Rattle.std.specs.Prelude.{◌≡◌, ◌+◌, ◌^◌, ◌≤◌, ◌<◌};
ghost use Rattle.std.proofs.Math.Seq.{slice};
ghost use Rattle.cells.specs.Bytes.{among};
ghost use Rattle.rules.specs.Day.{is_day};
ghost use Rattle.rules.specs.Rule.{texts, day_count, expected, keeps};

use crate::article::is_article;
use crate::day::Day;
use crate::number::number_of;
use cells::{part, same};
use signs::{Class, is_named, is_padded, of_class};

const MOST_DAYS: u64 = 360;

// Texts that a field may hold.
#[derive(Clone, Copy, PartialEq, Eq, Debug)]
pub enum Texts {
    Party,
    Numbering,
    Measure,
    HoldMark,
    TaxMark,
    PartTax,
    YesOnly,
    YesOrU,
    Medium,
    NetPrice,
    ListPrice,
}

#[derive(Clone, Copy, PartialEq, Eq, Debug)]
pub enum Rule {
    // Anything.
    Free,
    // Least to most bytes of a class.
    Of(Class, usize, usize),
    // Least to most bytes of a class, then blanks only.
    Padded(Class, usize, usize),
    // Bytes of a class, all blank or the first not blank.
    Named(Class),
    OneOf(Texts),
    // A number of days.
    DayCount,
    Date,
    ExpectedDate,
    // By the qualifier after it.
    Article,
}

// Whether a field holds one of the texts.
#[tactic(auto, unfolding(crate::specs::Rule::texts, cells::specs::Bytes::among))]
pub fn is_one_of(t: Texts, s: &[u8]) -> bool
    ensures { result ≡ among s.now (texts t) }
{
    match t {
        Texts::Party => same(s, b"VD") | same(s, b"IB") | same(s, b"SA"),
        Texts::Numbering => same(s, b"EN")
            | same(s, b"IB")
            | same(s, b"KN")
            | same(s, b"UM")
            | same(s, b"RK"),
        Texts::Measure => same(s, b"ST") | same(s, b"NP"),
        Texts::HoldMark => same(s, b"J") | same(s, b"N"),
        Texts::TaxMark => same(s, b"0") | same(s, b"1") | same(s, b"2") | same(s, b"6"),
        Texts::PartTax => same(s, b"0") | same(s, b"1") | same(s, b"2"),
        Texts::YesOnly => same(s, b"J"),
        Texts::YesOrU => same(s, b"J") | same(s, b"U"),
        Texts::Medium => same(s, b"PHY") | same(s, b"DIG"),
        Texts::NetPrice => same(s, b"NO"),
        Texts::ListPrice => same(s, b"LP") | same(s, b"FP"),
    }
}

// One to three digits that spell a number from 1 to 360.
#[tactic(auto, unfolding(crate::specs::Rule::day_count))]
pub fn is_day_count(s: &[u8]) -> bool
    ensures { result ≡ day_count s.now }
{
    if !of_class(Class::Digit, 1, 3, s) {
        return false;
    }
    let n = number_of(s);
    (1..=MOST_DAYS).contains(&n)
}

// Whether eight bytes are the digits of a day.
#[tactic(auto, unfolding(crate::specs::Day::dated))]
pub fn is_day(s: &[u8]) -> bool
    ensures { result ≡ is_day s.now }
{
    Day::of_digits(s).is_some()
}

// Whether bytes are one of the three forms of an expected date.
#[tactic(auto, unfolding(crate::specs::Rule::expected))]
pub fn is_expected(s: &[u8]) -> bool
    ensures { result ≡ expected s.now }
{
    is_day(s)
        | (of_class(Class::Zero, Day::WIDTH, Day::WIDTH, s)
            | of_class(Class::Blank, Day::WIDTH, Day::WIDTH, s))
}

// Whether a field keeps its rule; the article's rule alone asks for the two bytes after it, so it is told what the field stands in and where it ends.
#[tactic(auto, unfolding(crate::specs::Rule::keeps))]
pub fn keeps_rule(rule: Rule, whole: &[u8], end: usize, s: &[u8]) -> bool
    requires { end + 2 < 2 ^ 64 }
    ensures { result ≡ keeps rule (slice end (end + 2) whole.now) s.now }
{
    match rule {
        Rule::Free => true,
        Rule::Of(c, least, most) => of_class(c, least, most, s),
        Rule::Padded(c, least, most) => is_padded(c, least, most, s),
        Rule::Named(c) => is_named(c, s),
        Rule::OneOf(t) => is_one_of(t, s),
        Rule::DayCount => is_day_count(s),
        Rule::Date => is_day(s),
        Rule::ExpectedDate => is_expected(s),
        Rule::Article => is_article(part(whole, end, end + 2), s),
    }
}
