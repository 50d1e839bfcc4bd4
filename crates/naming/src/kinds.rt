// The kinds of records that are booked, and where each names what the book asks for.
#![tactic(auto, unfolding(record::specs::Layout::fixed_width, record::specs::Layout::total, record::specs::Layout::layout, record::specs::Layout::start_of, record::specs::Values::field_bytes, book::specs::Booking::key_fields, book::specs::Booking::no_reference, book::specs::Booking::copies_in), using(crate::proofs::Named::named))]

ghost use Rattle.std.specs.Prelude.{◌≡◌, [], ◌∷◌, ◌+◌, ◌≤◌, length};
ghost use Rattle.std.proofs.Math.Seq.{slice};
ghost use Rattle.record.specs.declared.layout.Kind.{Kind};
ghost use Rattle.record.specs.Layout.{fixed_width};
ghost use Rattle.entry.specs.Keyed.{fields_of};
ghost use Rattle.book.specs.Booking.{key_fields, fields_in, copies_in, school_in, article_in, no_reference, slip_key};

use cells::{bytes_at, part};
use entry::key::{ADDRESS_WIDTH, QUALIFIER_WIDTH, REFERENCE_WIDTH};
use entry::line_key::LineKey;
use record::layout::Kind;
use record::places::{
    ARTICLE, MESSAGE, ORDER_ARTICLE, ORDER_QUANTITY, ORDER_REFERENCE, PARTIES_END, QUANTITY,
    RECIPIENT, REFERENCE, REPORT_ARTICLE, REPORT_REFERENCE, SENDER,
};
use rules::amount::{Copies, amount_of};
use signs::{Class, all_of};

// The digits of a quantity.
const QUANTITY_WIDTH: usize = 4;

// What the book asks of the bytes of a record of a kind.
pub trait Bookable {
    ghost kind: { Kind };

    // The key of its line, by the fields where they stand.
    fn key(bytes: &[u8]) -> LineKey<'_>
        requires { fixed_width kind ≤ length bytes.now }
        ensures { fields_of result ≡ fields_in kind (key_fields kind) bytes.now };

    // The account of its school.
    fn school(bytes: &[u8]) -> &[u8]
        ensures { result.now ≡ school_in kind bytes.now };

    // The article that it names, with its qualifier.
    fn article(bytes: &[u8]) -> &[u8]
        ensures { result.now ≡ article_in kind bytes.now };

    // The quantity of an order or a delivery; none of a report.
    fn copies(bytes: &[u8]) -> Copies
        requires { fixed_width kind ≤ length bytes.now }
        ensures { result ≡ copies_in kind bytes.now };

    // Whether its reference is blank.
    fn has_no_reference(bytes: &[u8]) -> bool
        ensures { result ≡ no_reference kind bytes.now };
}

#[derive(Clone, Copy, PartialEq, Eq, Debug)]
pub struct Order;

#[derive(Clone, Copy, PartialEq, Eq, Debug)]
pub struct Goods;

#[derive(Clone, Copy, PartialEq, Eq, Debug)]
pub struct Report;

// The fields of a line's key, by where school, supplier and reference begin.
#[tactic(auto, using(cells::proofs::Parts::part_is))]
fn key_at(s: &[u8], school: usize, supplier: usize, reference: usize) -> LineKey<'_>
    requires { (school + 12 ≤ length s.now) × (supplier + 12 ≤ length s.now) × (reference + 10 ≤ length s.now) }
    ensures { fields_of result ≡ slice school (school + 10) s.now ∷ slice (school + 10) (school + 12) s.now ∷ slice supplier (supplier + 10) s.now ∷ slice (supplier + 10) (supplier + 12) s.now ∷ slice reference (reference + 10) s.now ∷ [] }
{
    let school_qualifier = school + ADDRESS_WIDTH;
    let school_end = school_qualifier + QUALIFIER_WIDTH;
    let supplier_qualifier = supplier + ADDRESS_WIDTH;
    let supplier_end = supplier_qualifier + QUALIFIER_WIDTH;
    let reference_end = reference + REFERENCE_WIDTH;
    LineKey {
        school: &s[school..school_qualifier],
        school_qualifier: &s[school_qualifier..school_end],
        supplier: &s[supplier..supplier_qualifier],
        supplier_qualifier: &s[supplier_qualifier..supplier_end],
        reference: &s[reference..reference_end],
    }
}

// An order's school is its sender.
impl Bookable for Order {
    ghost kind = { Kind.Order };

    fn key(bytes: &[u8]) -> LineKey<'_> {
        key_at(bytes, SENDER, RECIPIENT, ORDER_REFERENCE)
    }

    fn school(bytes: &[u8]) -> &[u8] {
        part(bytes, SENDER, RECIPIENT)
    }

    fn article(bytes: &[u8]) -> &[u8] {
        part(bytes, ORDER_ARTICLE, ORDER_QUANTITY)
    }

    fn copies(bytes: &[u8]) -> Copies {
        amount_of(&bytes_at::<QUANTITY_WIDTH>(bytes, ORDER_QUANTITY))
    }

    fn has_no_reference(bytes: &[u8]) -> bool {
        all_of(Class::Blank, part(bytes, ORDER_REFERENCE, ORDER_ARTICLE))
    }
}

// A delivery's school is its recipient.
impl Bookable for Goods {
    ghost kind = { Kind.Goods };

    fn key(bytes: &[u8]) -> LineKey<'_> {
        key_at(bytes, RECIPIENT, SENDER, REFERENCE)
    }

    fn school(bytes: &[u8]) -> &[u8] {
        part(bytes, RECIPIENT, PARTIES_END)
    }

    fn article(bytes: &[u8]) -> &[u8] {
        part(bytes, ARTICLE, QUANTITY)
    }

    fn copies(bytes: &[u8]) -> Copies {
        amount_of(&bytes_at::<QUANTITY_WIDTH>(bytes, QUANTITY))
    }

    fn has_no_reference(bytes: &[u8]) -> bool {
        all_of(Class::Blank, part(bytes, REFERENCE, ARTICLE))
    }
}

// So is a report's.
impl Bookable for Report {
    ghost kind = { Kind.Report };

    fn key(bytes: &[u8]) -> LineKey<'_> {
        key_at(bytes, RECIPIENT, SENDER, REPORT_REFERENCE)
    }

    fn school(bytes: &[u8]) -> &[u8] {
        part(bytes, RECIPIENT, PARTIES_END)
    }

    fn article(bytes: &[u8]) -> &[u8] {
        part(bytes, REPORT_ARTICLE, MESSAGE)
    }

    fn copies(_bytes: &[u8]) -> Copies {
        Copies(0)
    }

    fn has_no_reference(bytes: &[u8]) -> bool {
        all_of(Class::Blank, part(bytes, REPORT_REFERENCE, REPORT_ARTICLE))
    }
}

// A slip's key stands in a delivery as it is.
#[tactic(auto, using(crate::proofs::Named::slip_key_is))]
pub fn slip_key(s: &[u8]) -> &[u8]
    ensures { result.now ≡ slip_key s.now }
{
    part(s, SENDER, REFERENCE)
}
