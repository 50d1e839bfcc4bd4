// The typed values of a record's fixed part, taken from its bytes.
#![tactic(auto)]

ghost use Rattle.std.specs.Prelude.{◌≡◌, ◌+◌, ◌≤◌, length};
ghost use Rattle.std.proofs.Math.Seq.{slice};
ghost use Rattle.rules.specs.Number.{number};
ghost use Rattle.rules.specs.Day.{day_kept};
ghost use Rattle.record.specs.Layout.{fixed_width};
ghost use Rattle.record.specs.Values.{order_of, delivery_of, report_of};

use cells::{bytes_at, part};
use record::layout::Kind;
use record::places::{
    ARTICLE, CURRENCY, DATE_START, DISCOUNT, EXPECTED, HOLD, MESSAGE, ORDER_ARTICLE, ORDER_MEASURE,
    ORDER_QUANTITY, ORDER_REFERENCE, PARTIAL, POSITION, PRICE, PRICING, QUANTITY, RECIPIENT,
    REFERENCE, REPORT_ARTICLE, REPORT_REFERENCE, REPORT_SLIP, SENDER, SLIP, TAX,
};
use record::values::{Article, Delivery, Order, Party, Report};
use rules::amount::Amount;
use rules::day::Day;
use rules::expected::expected_of;
use rules::number::number_of;

// An address and the qualifier after it.
fn party_at(s: &[u8], at: usize) -> Party
    requires { at + 12 ≤ length s.now }
    ensures { result ≡ record { address = slice at (at + 10) s.now; qualifier = slice (at + 10) (at + 12) s.now } }
{
    Party {
        address: bytes_at(s, at),
        qualifier: bytes_at(s, at + 10),
    }
}

// An article number and the qualifier after it.
fn article_at(s: &[u8], at: usize) -> Article
    requires { at + 15 ≤ length s.now }
    ensures { result ≡ record { number = slice at (at + 13) s.now; qualifier = slice (at + 13) (at + 15) s.now } }
{
    Article {
        number: bytes_at(s, at),
        qualifier: bytes_at(s, at + 13),
    }
}

// The number in a field of digits.
#[tactic(auto, using(crate::proofs::Places::part_few))]
fn number_at(s: &[u8], from: usize, to: usize) -> u64
    requires { to ≤ from + 15 }
    ensures { result ≡ number (slice from to s.now) }
{
    number_of(part(s, from, to))
}

// And what it counts.
fn amount_at<A: Amount>(s: &[u8], from: usize, to: usize) -> A
    requires { to ≤ from + 15 }
    ensures { result ≡ A.of (number (slice from to s.now)) }
{
    A::of(number_at(s, from, to))
}

// The day of a field as the constructor judged it; the day 0 of month 0 of year 0 where it holds none.
fn day_of(s: &[u8]) -> Day
    ensures { result ≡ day_kept s.now }
{
    Day::of_digits(s).unwrap_or_default()
}

// The values of a B101.
#[tactic(auto, using(crate::proofs::Places::orders))]
pub fn order_of(s: &[u8]) -> Order
    requires { fixed_width Kind.Order ≤ length s.now }
    ensures { result ≡ order_of s.now }
{
    Order {
        sender: party_at(s, SENDER),
        recipient: party_at(s, RECIPIENT),
        date: day_of(part(s, DATE_START, ORDER_REFERENCE)),
        reference: bytes_at(s, ORDER_REFERENCE),
        article: article_at(s, ORDER_ARTICLE),
        quantity: amount_at(s, ORDER_QUANTITY, ORDER_MEASURE),
        measure: bytes_at(s, ORDER_MEASURE),
    }
}

// The values of an L101.
#[tactic(auto, using(crate::proofs::Places::deliveries))]
pub fn delivery_of(s: &[u8]) -> Delivery
    requires { fixed_width Kind.Goods ≤ length s.now }
    ensures { result ≡ delivery_of s.now }
{
    Delivery {
        sender: party_at(s, SENDER),
        recipient: party_at(s, RECIPIENT),
        date: day_of(part(s, DATE_START, SLIP)),
        slip: bytes_at(s, SLIP),
        position: bytes_at(s, POSITION),
        reference: bytes_at(s, REFERENCE),
        article: article_at(s, ARTICLE),
        quantity: amount_at(s, QUANTITY, PRICE),
        price: amount_at(s, PRICE, PRICING),
        pricing: bytes_at(s, PRICING),
        currency: bytes_at(s, CURRENCY),
        discount: amount_at(s, DISCOUNT, TAX),
        tax: s[TAX],
    }
}

// The values of an M101.
#[tactic(auto, using(crate::proofs::Places::reports))]
pub fn report_of(s: &[u8]) -> Report
    requires { fixed_width Kind.Report ≤ length s.now }
    ensures { result ≡ report_of s.now }
{
    Report {
        sender: party_at(s, SENDER),
        recipient: party_at(s, RECIPIENT),
        slip: bytes_at(s, REPORT_SLIP),
        reference: bytes_at(s, REPORT_REFERENCE),
        article: article_at(s, REPORT_ARTICLE),
        message: number_at(s, MESSAGE, HOLD),
        hold: s[HOLD],
        expected: expected_of(part(s, EXPECTED, PARTIAL)),
    }
}
