// The fields of lent parts, put into the output once nothing can be refused any more.
#![tactic(auto)]

ghost use Rattle.std.specs.Prelude.{◌≡◌, true, ◌+◌, ◌*◌, ◌≤◌, length, get_or};
ghost use Rattle.std.proofs.lemmas.List.Edits.{sets};
ghost use Rattle.record.specs.Fields.{head_width};
ghost use Rattle.writing.specs.Write.{field_text};
ghost use Rattle.parts.specs.Loops.{loop_fields};
ghost use Rattle.parts.specs.Part.{medium_at, is_medium, lent_price};
ghost use Rattle.parts.specs.Fields.{amount_text, medium_text, lent_loop, lent_fields};
ghost use Rattle.lent_parts.specs.Faults.{is_kept, first_fault, price_loop, article_loop, fields_text};

use lent_parts::entries::{LentPart, LentParts, LentPrice};
use parts::loops::{
    AMOUNT_ID, ARTICLE_ID, ARTICLE_QUALIFIER_ID, CURRENCY_ID, MEDIUM_ID, PART_ID,
    PRICE_QUALIFIER_ID,
};
use parts::part::Medium;
use record::fields::HEAD_WIDTH;
use writing::digits::put_digits;
use writing::field::{put_field, put_head};

// The amount of a price, whose digits are made here; where the next field starts.
#[tactic(auto, using(crate::proofs::Kept::amount_most, crate::proofs::Kept::amount_kept, parts::proofs::Texts::amount_digits, writing::proofs::Records::content_stored))]
fn put_amount(out: &mut [u8], at: usize, p: LentPrice) -> usize
    requires { (is_kept 1029 (amount_text (lent_price p.room.now p.at)) ≡ true) × (at + head_width + length (amount_text (lent_price p.room.now p.at)) ≤ length out.old) }
    ensures { (out.new ≡ sets out.old at (field_text (record { id = 1029; content = amount_text (lent_price p.entry.room.now p.entry.at) }))) × (result ≡ at + head_width + length (amount_text (lent_price p.entry.room.now p.entry.at))) }
{
    let digits = p.digits() as usize;
    put_head(out, at, AMOUNT_ID);
    put_digits(out, at + HEAD_WIDTH, digits, p.amount());
    at + HEAD_WIDTH + digits
}

// The three fields of a price; where the next one starts.
#[tactic(auto, using(crate::proofs::Texts::fields_stored))]
fn put_price(out: &mut [u8], at: usize, p: LentPrice) -> usize
    requires { (is_kept 1029 (amount_text (lent_price p.room.now p.at)) ≡ true) × (at + length (fields_text (price_loop (lent_price p.room.now p.at))) ≤ length out.old) }
    ensures { (out.new ≡ sets out.old at (fields_text (price_loop (lent_price p.entry.room.now p.entry.at)))) × (result ≡ at + length (fields_text (price_loop (lent_price p.entry.room.now p.entry.at)))) }
{
    let qualifier = put_amount(out, at, p);
    let currency = put_field(out, qualifier, PRICE_QUALIFIER_ID, p.qualifier());
    put_field(out, currency, CURRENCY_ID, p.currency())
}

// A medium by its name; where the next field starts.
#[tactic(auto, unfolding(parts::specs::Fields::medium_text))]
fn put_medium(out: &mut [u8], at: usize, medium: Medium) -> usize
    requires { at + head_width + 3 ≤ length out.old }
    ensures { (out.new ≡ sets out.old at (field_text (record { id = 1151; content = medium_text true medium }))) × (result ≡ at + head_width + 3) }
{
    match medium {
        Medium::Physical => put_field(out, at, MEDIUM_ID, b"PHY"),
        Medium::Digital => put_field(out, at, MEDIUM_ID, b"DIG"),
    }
}

// The three fields behind the prices of a part; where the next one starts.
#[tactic(auto, unfolding(parts::specs::Part::lent_part), using(crate::proofs::Texts::fields_stored, parts::proofs::Texts::medium_length))]
fn put_article(out: &mut [u8], at: usize, p: LentPart) -> usize
    requires { (is_medium (get_or p.room.now (p.at + medium_at) 0) ≡ true) × (at + length (fields_text (article_loop p.room.now p.at)) ≤ length out.old) }
    ensures { (out.new ≡ sets out.old at (fields_text (article_loop p.entry.room.now p.entry.at))) × (result ≡ at + length (fields_text (article_loop p.entry.room.now p.entry.at))) }
{
    let qualifier = put_field(out, at, ARTICLE_ID, p.article_text());
    let medium = put_field(out, qualifier, ARTICLE_QUALIFIER_ID, p.article_qualifier());
    put_medium(out, medium, p.medium())
}

// The ten fields of a part; where the next one starts.
#[tactic(auto, using(crate::proofs::Loops::loop_kept, crate::proofs::Loops::loop_put, crate::proofs::Loops::loop_long))]
fn put_loop(out: &mut [u8], at: usize, p: LentPart) -> usize
    requires { (first_fault (lent_loop p.room.now p.at) ≡ loop_fields) × (at + length (fields_text (lent_loop p.room.now p.at)) ≤ length out.old) }
    ensures { (out.new ≡ sets out.old at (fields_text (lent_loop p.entry.room.now p.entry.at))) × (result ≡ at + length (fields_text (lent_loop p.entry.room.now p.entry.at))) }
{
    let net = put_field(out, at, PART_ID, &[p.tax()]);
    let list = put_price(out, net, p.net());
    let article = put_price(out, list, p.list());
    put_article(out, article, p)
}

// The fields of lent parts from a place of the output on; where they end.
#[tactic(auto, using(crate::proofs::Loops::loops_put))]
pub fn put_loops(out: &mut [u8], at: usize, parts: LentParts) -> usize
    requires { (first_fault (lent_fields parts.count parts.room.now 0) ≡ parts.count * loop_fields) × (at + length (fields_text (lent_fields parts.count parts.room.now 0)) ≤ length out.old) }
    ensures { (out.new ≡ sets out.old at (fields_text (lent_fields parts.entry.count parts.entry.room.now 0))) × (result ≡ at + length (fields_text (lent_fields parts.entry.count parts.entry.room.now 0))) }
{
    let mut next = at;
    for j in 0..parts.count {
        next = put_loop(out, next, parts.nth(j));
    }
    next
}
