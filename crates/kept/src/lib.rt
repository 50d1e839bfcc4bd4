// An entry of a saved book, judged by its body.
#![tactic(auto)]

pub mod lines;

ghost use Rattle.std.specs.Prelude.{◌≡◌, [], ◌∷◌, eqb};
ghost use Rattle.signs.specs.Class.{all_of};
ghost use Rattle.signs.specs.declared.Class.TheVariants.{Allowed};
ghost use Rattle.save.specs.Entries.{reference_at, line_fields, goods_fields, fields_kept, report_kept, line_kept, parties_agree, slip_named, slip_kept};
ghost use Rattle.save.specs.Form.{front_of};
ghost use Rattle.save.specs.Saved.{line_in};
ghost use Rattle.cells.specs.Bytes.{within};
ghost use Rattle.entry.specs.Stored.{most_copies};
ghost use Rattle.record.specs.Layout.{first_broken};

use crate::lines::KeptLines;
use cells::little::get;
use cells::{bytes_at, part, same};
use entry::key::{
    ARTICLE_AT, ARTICLE_QUALIFIER_AT, DATE_AT, FIRST_QUALIFIER_AT, PARTIES_WIDTH, POSITION_AT,
    REFERENCE_AT, SECOND_PARTY_AT, SECOND_QUALIFIER_AT, SLIP_NUMBER_AT,
};
use entry::report::{MOST_MARK, is_report_sound};
use rules::article::is_article;
use rules::rule::{Texts, is_day, is_one_of};
use save::form::Form;
use save::lines::LineBody;
use save::slips::SlipBody;
use signs::{Class, all_of, allowed_run, is_named, is_padded, of_class};
use stored::{EXPECTED_AT, MARK_AT, MESSAGE_AT, MOST_COPIES, ORDERED_AT, SLIP_KEY_WIDTH};

const POSITION_WIDTH: usize = 4;

// Whether all bytes are allowed.
#[tactic(auto, unfolding(signs::specs::Class::all_of), using(signs::proofs::Runs::all_run))]
fn are_allowed(s: &[u8]) -> bool
    ensures { result ≡ all_of Allowed s.now }
{
    allowed_run(s) == s.len()
}

// Whether a key begins with two addresses and their qualifiers.
#[tactic(auto, using(save::proofs::Keys::parties_judged))]
fn are_parties(key: &[u8]) -> bool
    ensures { result ≡ eqb (first_broken (goods_fields (1 ∷ 2 ∷ 3 ∷ 4 ∷ [])) key.now) 4 }
{
    (is_padded(Class::Account, 1, 10, part(key, 0, FIRST_QUALIFIER_AT))
        & is_one_of(Texts::Party, part(key, FIRST_QUALIFIER_AT, SECOND_PARTY_AT)))
        & (is_padded(
            Class::Account,
            1,
            10,
            part(key, SECOND_PARTY_AT, SECOND_QUALIFIER_AT),
        ) & is_one_of(Texts::Party, part(key, SECOND_QUALIFIER_AT, PARTIES_WIDTH)))
}

// Whether what a line is named by keeps the rules: its parties, its reference, which is not blank, and its article with its qualifier.
#[tactic(auto, using(save::proofs::Keys::line_judged, save::proofs::Keys::parties_judged))]
fn is_line_named(named: &[u8]) -> bool
    ensures { result ≡ fields_kept line_fields reference_at named.now }
{
    if !are_allowed(named) {
        return false;
    }
    if !are_parties(named) {
        return false;
    }
    let reference = part(named, REFERENCE_AT, ARTICLE_AT);
    let article = part(named, ARTICLE_AT, ARTICLE_QUALIFIER_AT);
    let qualifier = part(named, ARTICLE_QUALIFIER_AT, ORDERED_AT);
    (is_named(Class::Any, reference)
        & (is_article(qualifier, article) & is_one_of(Texts::Numbering, qualifier)))
        & !all_of(Class::Blank, reference)
}

// Whether what a slip is named by besides its parties keeps the rules: its date, its slip number, which is not blank, and its position.
#[tactic(auto, unfolding(save::specs::Entries::slip_named))]
fn is_slip_named(key: &[u8]) -> bool
    ensures { result ≡ slip_named key.now }
{
    if !are_allowed(key) {
        return false;
    }
    let date = part(key, DATE_AT, SLIP_NUMBER_AT);
    let slip_number = part(key, SLIP_NUMBER_AT, POSITION_AT);
    let position = part(key, POSITION_AT, SLIP_KEY_WIDTH);
    (is_day(date)
        & (is_named(Class::Any, slip_number)
            & of_class(Class::Digit, POSITION_WIDTH, POSITION_WIDTH, position)))
        & !all_of(Class::Blank, slip_number)
}

// Whether so many copies may be ordered, or come by one slip.
fn is_quantity(copies: u64) -> bool
    ensures { result ≡ within 1 most_copies copies }
{
    (1 <= copies) & (copies <= MOST_COPIES)
}

// Whether mark, message and expected date of a line go together; in the old form there is the mark alone.
#[tactic(auto, unfolding(save::specs::Entries::report_kept, save::specs::Form::front_of, save::specs::Form::line_body_width), using(save::proofs::Fronts::old_report))]
fn is_report_kept(line: LineBody) -> bool
    ensures { result ≡ report_kept (front_of line.entry.form line.entry.bytes.now) }
{
    let body = line.bytes;
    let mark = body[MARK_AT];
    match line.form {
        Form::Old => mark <= MOST_MARK,
        Form::New => {
            is_report_sound(
                mark,
                get::<2>(body, MESSAGE_AT),
                bytes_at(body, EXPECTED_AT),
            )
        }
    }
}

// Whether a line of a save keeps the rules.
#[tactic(auto, unfolding(save::specs::Entries::line_kept), using(save::proofs::Fronts::width_least, save::proofs::Fronts::front_named, save::proofs::Fronts::front_ordered))]
pub fn is_line_kept(line: LineBody) -> bool
    ensures { result ≡ line_kept (front_of line.entry.form line.entry.bytes.now) }
{
    if !is_line_named(part(line.bytes, 0, ORDERED_AT)) {
        return false;
    }
    is_quantity(get::<2>(line.bytes, ORDERED_AT)) & is_report_kept(line)
}

// Whether a slip has the school and the supplier of a line.
#[tactic(auto, unfolding(save::specs::Entries::parties_agree))]
fn do_parties_agree(slip: &[u8], line: &[u8]) -> bool
    ensures { result ≡ parties_agree slip.now line.now }
{
    same(
        part(slip, 0, SECOND_PARTY_AT),
        part(line, SECOND_PARTY_AT, PARTIES_WIDTH),
    ) & same(
        part(slip, SECOND_PARTY_AT, PARTIES_WIDTH),
        part(line, 0, SECOND_PARTY_AT),
    )
}

// Whether a slip of a save keeps the rules, by the lines of it: its parties are its line's, which were judged, so they are only compared.
#[tactic(auto, unfolding(save::specs::Saved::line_in), using(save::proofs::Keys::slip_kept_by, save::proofs::Fronts::front_parties))]
pub fn is_slip_kept(kept: KeptLines, slip: SlipBody) -> bool
    ensures { result ≡ slip_kept kept.entry.lines.count (line_in kept.entry.lines.form kept.entry.lines.bytes.now) slip.entry.bytes.now }
{
    let lines = kept.lines;
    if !is_slip_named(part(slip.bytes, 0, SLIP_KEY_WIDTH)) {
        return false;
    }
    if !is_quantity(slip.copies()) {
        return false;
    }
    let i = slip.line();
    if lines.count <= i {
        return false;
    }
    do_parties_agree(slip.bytes, lines.body(i).bytes)
}
