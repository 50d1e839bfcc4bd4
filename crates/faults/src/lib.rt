// The fields of lent parts, judged where the parts stand, and how long they become.
#![tactic(auto)]

ghost use Rattle.std.specs.Prelude.{◌≡◌, [], ◌∷◌, ◌*◌, ◌<◌, length, unwrap_or, IfSome};
ghost use Rattle.parts.specs.Loops.{loop_fields, are_loops};
ghost use Rattle.parts.specs.Part.{lent_price, lent_article};
ghost use Rattle.parts.specs.Fields.{amount_text, article_text, lent_loop, lent_fields};
ghost use Rattle.lent_parts.specs.Faults.{is_kept, first_fault, price_loop, article_loop, fields_text};

use lent_parts::entries::{LentPart, LentParts, LentPrice};
use parts::fit::MOST_DIGITS;
use parts::loops::LOOP_FIELDS;
use rules::rule::{Texts, is_one_of};
use signs::{Class, of_class};
use writing::entries::is_content;

// The fewest digits of an amount.
const LEAST_DIGITS: usize = 5;
// The heads of a loop's fields and its contents but for the two amounts and the article.
const LOOP_LEAST: usize = 66;

// Whether the amount of a price can be written in its digits.
#[tactic(auto, using(crate::proofs::Kept::amount_few, crate::proofs::Kept::amount_many, crate::proofs::Kept::amount_within))]
fn is_amount(p: LentPrice) -> bool
    ensures { result ≡ is_kept 1029 (amount_text (lent_price p.entry.room.now p.entry.at)) }
{
    let digits = p.digits() as usize;
    if digits < LEAST_DIGITS {
        return false;
    }
    if MOST_DIGITS < digits {
        return false;
    }
    p.amount() < 10u64.pow(digits as u32)
}

// The first field of a price that cannot be written.
#[tactic(auto, using(crate::proofs::First::fault_found, crate::proofs::Kept::qualifier_kept, crate::proofs::Kept::currency_kept))]
fn price_fault(p: LentPrice) -> Option<usize>
    ensures first { unwrap_or result 3 ≡ first_fault (price_loop (lent_price p.entry.room.now p.entry.at)) }
    ensures inside { IfSome result (λ i. i < 3) }
{
    if !is_amount(p) {
        return Some(0);
    }
    if !of_class(Class::Capital, 2, 2, p.qualifier()) {
        return Some(1);
    }
    if !of_class(Class::Capital, 3, 3, p.currency()) {
        return Some(2);
    }
    None
}

// Whether the article of a part can be written.
#[tactic(auto, using(crate::proofs::Kept::article_none, crate::proofs::Kept::article_kept, parts::proofs::Texts::article_fits))]
fn is_article_kept(p: LentPart) -> bool
    ensures { result ≡ is_kept 1101 (article_text (lent_article p.entry.room.now p.entry.at)) }
{
    let text = p.article_text();
    if text.is_empty() {
        return false;
    }
    is_content(text)
}

// The first field behind the prices of a part that cannot be written.
#[tactic(auto, using(crate::proofs::First::fault_found, crate::proofs::Kept::article_qualifier_kept, crate::proofs::Kept::medium_kept))]
fn article_fault(p: LentPart) -> Option<usize>
    ensures first { unwrap_or result 3 ≡ first_fault (article_loop p.entry.room.now p.entry.at) }
    ensures inside { IfSome result (λ i. i < 3) }
{
    if !is_article_kept(p) {
        return Some(0);
    }
    if !of_class(Class::Capital, 2, 2, p.article_qualifier()) {
        return Some(1);
    }
    if !p.is_medium() {
        return Some(2);
    }
    None
}

// The first field of a part that cannot be written: the tax mark, then those of the prices and of the article.
#[tactic(auto, using(crate::proofs::First::part_faults, crate::proofs::Kept::tax_kept))]
fn part_fault(p: LentPart) -> Option<usize>
    ensures first { unwrap_or result loop_fields ≡ first_fault (lent_loop p.entry.room.now p.entry.at) }
    ensures inside { IfSome result (λ i. i < loop_fields) }
{
    if !is_one_of(Texts::PartTax, &[p.tax()]) {
        return Some(0);
    }
    if let Some(i) = price_fault(p.net()) {
        return Some(1 + i);
    }
    if let Some(i) = price_fault(p.list()) {
        return Some(4 + i);
    }
    if let Some(i) = article_fault(p) {
        return Some(7 + i);
    }
    None
}

// The first field of lent parts that cannot be written.
#[tactic(auto, using(crate::proofs::First::faults_left))]
pub fn first_fault(parts: LentParts) -> Option<usize>
    ensures first { unwrap_or result (parts.entry.count * loop_fields) ≡ first_fault (lent_fields parts.entry.count parts.entry.room.now 0) }
    ensures inside { IfSome result (λ i. i < parts.entry.count * loop_fields) }
{
    for j in 0..parts.count {
        if let Some(i) = part_fault(parts.nth(j)) {
            return Some(j * LOOP_FIELDS + i);
        }
    }
    None
}

// Whether the prices of lent parts have the qualifiers that a loop asks for.
#[tactic(auto, using(crate::proofs::Asked::loops_asked))]
pub fn are_lent_loops(parts: LentParts) -> bool
    ensures { result ≡ are_loops parts.entry.count (lent_fields parts.entry.count parts.entry.room.now 0) }
{
    for j in 0..parts.count {
        let p = parts.nth(j);
        if !is_one_of(Texts::NetPrice, p.net().qualifier()) {
            return false;
        }
        if !is_one_of(Texts::ListPrice, p.list().qualifier()) {
            return false;
        }
    }
    true
}

// How long an amount becomes that is to be written in so many digits.
#[tactic(auto, using(parts::proofs::Texts::amount_long))]
fn amount_width(p: LentPrice) -> usize
    ensures { result ≡ length (amount_text (lent_price p.entry.room.now p.entry.at)) }
{
    let digits = p.digits() as usize;
    if MOST_DIGITS < digits {
        return 1;
    }
    digits
}

// How long the fields of lent parts become.
#[tactic(auto, using(crate::proofs::Asked::width_next, crate::proofs::Asked::width_end, parts::proofs::Texts::amount_fits, parts::proofs::Texts::article_fits))]
pub fn loops_width(parts: LentParts) -> usize
    ensures { result ≡ length (fields_text (lent_fields parts.entry.count parts.entry.room.now 0)) }
{
    let mut width: usize = 0;
    for j in 0..parts.count {
        let p = parts.nth(j);
        let amounts = amount_width(p.net()) + amount_width(p.list());
        width += LOOP_LEAST + amounts + p.article_text().len();
    }
    width
}
