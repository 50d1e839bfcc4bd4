// The fixed part's bytes of a typed record. A value outside its range becomes bytes that break its field.
#![tactic(auto)]

ghost use Rattle.std.specs.Prelude.{◌≡◌, ℕ, List, [], ◌∷◌, ◌++◌, ◌+◌, ◌≤◌, length};
ghost use Rattle.std.proofs.Common.{rules};
ghost use Rattle.std.proofs.lemmas.List.Edits.{sets};
ghost use Rattle.rules.specs.Day.{day_width};
ghost use Rattle.writing.specs.Digits.{number_bytes};
ghost use Rattle.writing.specs.Typed.{day_bytes, is_no_day, delivery_day_bytes, expected_bytes, order_bytes, delivery_bytes, report_bytes};

use cells::paste_at;
use record::layout::{DELIVERY_WIDTH, ORDER_WIDTH, REPORT_WIDTH};
use record::places::{
    ARTICLE, CURRENCY, DATE_START, DISCOUNT, EXPECTED, HOLD, MESSAGE, ORDER_ARTICLE, ORDER_MEASURE,
    ORDER_QUANTITY, ORDER_REFERENCE, PARTIAL, POSITION, PRICE, PRICING, QUANTITY, RECIPIENT,
    REFERENCE, REPORT_ARTICLE, REPORT_REFERENCE, REPORT_SLIP, SENDER, SLIP, TAX,
};
use record::values::{Article, Delivery, Order, Party, Report};
use rules::day::Day;
use rules::expected::Expected;
use writing::digits::{put_byte, put_digits, put_number};

// Where a qualifier stands behind its address, and behind its article.
const ADDRESS_WIDTH: usize = 10;

const NUMBER_WIDTH: usize = 13;

// The digits of a day.
const YEAR_DIGITS: usize = 4;

const MONTH_DIGITS: usize = 2;

const DAY_DIGITS: usize = 2;

// And of the other numbers.
const MESSAGE_DIGITS: usize = 3;

const QUANTITY_DIGITS: usize = 4;

const DISCOUNT_DIGITS: usize = 8;

const PRICE_DIGITS: usize = 15;

// Eight digits of a real day; of any other zeros, which no field may hold.
#[tactic(auto, unfolding(writing::specs::Typed::day_bytes, writing::specs::Typed::day_digits, writing::specs::Digits::digits_of, writing::specs::Digits::unwritable))]
fn day_bytes(d: Day) -> [u8; Day::WIDTH]
    ensures { result ≡ day_bytes d }
{
    let mut out = [0; Day::WIDTH];
    if !d.is_real() {
        return out;
    }
    put_digits(&mut out, 0, YEAR_DIGITS, d.year);
    put_digits(&mut out, YEAR_DIGITS, MONTH_DIGITS, d.month);
    put_digits(&mut out, YEAR_DIGITS + MONTH_DIGITS, DAY_DIGITS, d.day);
    out
}

// Whether a delivery's date is that of a closing record.
#[tactic(auto, unfolding(writing::specs::Typed::is_no_day))]
fn is_no_day(d: Day) -> bool
    ensures { result ≡ is_no_day d }
{
    (d.year == 0) & ((d.month == 0) & (d.day == 0))
}

// A delivery's date: of a closing record eight zeros.
#[tactic(auto, unfolding(writing::specs::Typed::delivery_day_bytes))]
fn delivery_day_bytes(d: Day) -> [u8; Day::WIDTH]
    ensures { result ≡ delivery_day_bytes d }
{
    if is_no_day(d) {
        return *b"00000000";
    }
    day_bytes(d)
}

// What a report expects: a day, or eight zeros or blanks.
#[tactic(auto, unfolding(writing::specs::Typed::expected_bytes))]
fn expected_bytes(e: Expected) -> [u8; Day::WIDTH]
    ensures { result ≡ expected_bytes e }
{
    match e {
        Expected::On(d) => day_bytes(d),
        Expected::Zeros => *b"00000000",
        Expected::Blanks => *b"        ",
    }
}

#[tactic(auto, using(cells::proofs::Stores::sets_append))]
fn put_party(out: &mut [u8], at: usize, p: Party)
    requires { at + 12 ≤ length out.old }
    ensures { out.new ≡ sets out.old at (p.address ++ p.qualifier) }
{
    paste_at(out, at, &p.address);
    paste_at(out, at + ADDRESS_WIDTH, &p.qualifier);
}

#[tactic(auto, using(cells::proofs::Stores::sets_append))]
fn put_article(out: &mut [u8], at: usize, a: Article)
    requires { at + 15 ≤ length out.old }
    ensures { out.new ≡ sets out.old at (a.number ++ a.qualifier) }
{
    paste_at(out, at, &a.number);
    paste_at(out, at + NUMBER_WIDTH, &a.qualifier);
}

// Quantity, price, price qualifier, currency, discount and tax mark of a delivery.
#[tactic(auto, using(cells::proofs::Stores::sets_append, writing::proofs::Decimals::number_length))]
fn put_amounts(out: &mut [u8], d: Delivery)
    requires { 108 ≤ length out.old }
    ensures { out.new ≡ sets out.old 75 (number_bytes 4 d.quantity.0 ++ (number_bytes 15 d.price.0 ++ (d.pricing ++ (d.currency ++ (number_bytes 8 d.discount.0 ++ (d.tax ∷ [])))))) }
{
    put_number::<QUANTITY_DIGITS>(out, QUANTITY, d.quantity.0);
    put_number::<PRICE_DIGITS>(out, PRICE, d.price.0);
    paste_at(out, PRICING, &d.pricing);
    paste_at(out, CURRENCY, &d.currency);
    put_number::<DISCOUNT_DIGITS>(out, DISCOUNT, d.discount.0);
    put_byte(out, TAX, d.tax);
}

// A typed value that the fixed part of a record is made of.
pub trait FixedPart<const N: usize> {
    ghost bytes: { Self → List ℕ };

    // Its bytes.
    fn fixed_part(self) -> [u8; N]
        ensures { result ≡ bytes self };

    // Never longer than that of a delivery.
    ghost short: { N ≤ 108 };
}

// The fixed part of a B101.
impl FixedPart<ORDER_WIDTH> for Order {
    ghost bytes = { order_bytes };

    fn fixed_part(self) -> [u8; ORDER_WIDTH] {
        let mut out = [0u8; ORDER_WIDTH];
        paste_at(&mut out, 0, b"B101");
        put_party(&mut out, SENDER, self.sender);
        put_party(&mut out, RECIPIENT, self.recipient);
        paste_at(&mut out, DATE_START, &day_bytes(self.date));
        paste_at(&mut out, ORDER_REFERENCE, &self.reference);
        put_article(&mut out, ORDER_ARTICLE, self.article);
        put_number::<QUANTITY_DIGITS>(&mut out, ORDER_QUANTITY, self.quantity.0);
        paste_at(&mut out, ORDER_MEASURE, &self.measure);
        out
    }

    ghost short = { Prim.search rules };
}

// The fixed part of an L101.
impl FixedPart<DELIVERY_WIDTH> for Delivery {
    ghost bytes = { delivery_bytes };

    fn fixed_part(self) -> [u8; DELIVERY_WIDTH] {
        let mut out = [0u8; DELIVERY_WIDTH];
        paste_at(&mut out, 0, b"L101");
        put_party(&mut out, SENDER, self.sender);
        put_party(&mut out, RECIPIENT, self.recipient);
        paste_at(&mut out, DATE_START, &delivery_day_bytes(self.date));
        paste_at(&mut out, SLIP, &self.slip);
        paste_at(&mut out, POSITION, &self.position);
        paste_at(&mut out, REFERENCE, &self.reference);
        put_article(&mut out, ARTICLE, self.article);
        put_amounts(&mut out, self);
        out
    }

    ghost short = { Prim.search rules };
}

// The fixed part of an M101.
impl FixedPart<REPORT_WIDTH> for Report {
    ghost bytes = { report_bytes };

    fn fixed_part(self) -> [u8; REPORT_WIDTH] {
        let mut out = [0u8; REPORT_WIDTH];
        paste_at(&mut out, 0, b"M101");
        put_party(&mut out, SENDER, self.sender);
        put_party(&mut out, RECIPIENT, self.recipient);
        paste_at(&mut out, REPORT_SLIP, &self.slip);
        paste_at(&mut out, REPORT_REFERENCE, &self.reference);
        put_article(&mut out, REPORT_ARTICLE, self.article);
        put_number::<MESSAGE_DIGITS>(&mut out, MESSAGE, self.message);
        put_byte(&mut out, HOLD, self.hold);
        paste_at(&mut out, EXPECTED, &expected_bytes(self.expected));
        paste_at(&mut out, PARTIAL, b"0000");
        out
    }

    ghost short = { Prim.search rules };
}
