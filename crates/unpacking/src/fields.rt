// The values of a part, taken from its loop of fields.
ghost use Rattle.std.specs.Prelude.{◌≡◌, ◌+◌, ◌<◌, get_or};
ghost use Rattle.parts.specs.Loops.{loop_fields};
ghost use Rattle.parts.specs.Named.{fields_of};
ghost use Rattle.parts.specs.Part.{price_from, article_from, part_of};

use cells::part;
use parts::fit::{ARTICLE_WIDTH, MOST_DIGITS, fitted};
use parts::part::{Medium, Part, PartArticle, PartPrice};
use parts::table::Loop;
use rules::amount::amount_of;

// The price in three fields of a loop.
#[tactic(auto, unfolding(parts::specs::Part::price_from))]
fn price_from(l: Loop, i: usize) -> PartPrice
    requires { i + 2 < loop_fields }
    ensures { result ≡ price_from i (fields_of l.entry.fields) }
{
    let digits = part(l.text(i), 0, MOST_DIGITS);
    PartPrice {
        amount: amount_of(digits),
        digits: digits.len() as u8,
        qualifier: fitted(l.text(i + 1)),
        currency: fitted(l.text(i + 2)),
    }
}

// The article in two fields of a loop.
#[tactic(auto, unfolding(parts::specs::Part::article_from))]
fn article_from(l: Loop, i: usize) -> PartArticle
    requires { i + 1 < loop_fields }
    ensures { result ≡ article_from i (fields_of l.entry.fields) }
{
    let text = part(l.text(i), 0, ARTICLE_WIDTH);
    PartArticle {
        length: text.len() as u8,
        bytes: fitted(text),
        qualifier: fitted(l.text(i + 1)),
    }
}

// The first byte, or 0 where there is none.
fn first_byte(s: &[u8]) -> u8
    ensures { result ≡ get_or s.now 0 0 }
{
    s.first().copied().unwrap_or(0)
}

// The part that a loop says.
#[tactic(auto, unfolding(parts::specs::Part::part_of))]
pub fn part_of(l: Loop) -> Part
    ensures { result ≡ part_of (fields_of l.entry.fields) }
{
    let net = price_from(l, 1);
    let list = price_from(l, 4);
    Part {
        tax: first_byte(l.text(0)),
        medium: Medium::from(l.text(9)),
        net,
        list,
        article: article_from(l, 7),
    }
}
