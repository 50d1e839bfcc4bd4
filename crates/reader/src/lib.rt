// Reading a record: judged whole, with the table of its optional fields, and into typed values.
#![tactic(auto)]

ghost use Rattle.std.specs.Prelude.{◌≡◌, ℕ, List, Ok, Some};
ghost use Rattle.cells.specs.Bytes.{bytes};
ghost use Rattle.record.specs.Values.{order_of as order_values, delivery_of as delivery_values, report_of as report_values, no_order, no_delivery, no_report};
ghost use Rattle.record.specs.Layout.{kind_of};
ghost use Rattle.record.specs.Read.{kind_judged, judged, outcome, optional_start, check, judged_as, typed_from, read_order, read_delivery, read_report};

use cells::{part, same};
use record::answer::{Checked, ReadAs, Refusal, Verdict};
use record::fields::{ENTRY_WIDTH, HEAD_WIDTH};
use record::layout::{
    KIND_WIDTH, Kind, MOST_BYTES, MOST_FIELDS, first_broken, fixed_width, kind_of, layout, start_of,
};
use record::values::{Delivery, Order, Report};
use signs::allowed_run;
use values::{delivery_of, order_of, report_of};

// 3 to 10 of a record whose kind is known (RULES 4.1).
#[tactic(auto, using(crate::proofs::Stages::stages), unfolding(record::specs::Read::kind_judged, record::specs::Read::bytes_judged, record::specs::Read::fixed_judged, record::specs::Read::optional_judged, record::specs::Read::after_walk))]
fn judge_kind(k: Kind, s: &[u8]) -> Verdict
    ensures { result ≡ kind_judged (Some k) s.now }
{
    let width = fixed_width(k);
    if s.len() < width + HEAD_WIDTH {
        return Err(Refusal::TooShort(s.len()));
    }
    let allowed = allowed_run(s);
    if allowed != s.len() {
        return Err(Refusal::Byte(allowed));
    }
    let broken = first_broken(k, s);
    if broken != layout(k).len() {
        return Err(Refusal::FixedField(start_of(k, broken)));
    }
    let n = walks::walk(s, width)?;
    walks::judge(k, n, s, width)?;
    Ok(n)
}

// 1 to 10: the first refusal, or the number of optional fields.
#[tactic(auto, unfolding(record::specs::Read::judged, record::specs::Read::kind_judged))]
pub fn judge_record(s: &[u8]) -> Verdict
    ensures { result ≡ judged s.now }
{
    if MOST_BYTES < s.len() {
        return Err(Refusal::TooLong);
    }
    let k = kind_of(s).ok_or(Refusal::UnknownKind)?;
    judge_kind(k, s)
}

// The answer, its place and the number of optional fields, which are listed in the table; a refusal leaves the table as it was.
#[tactic(auto, using(crate::proofs::Fitting::fits), unfolding(record::specs::Read::check, record::specs::Read::table_after))]
pub fn check(s: &[u8], table: &mut [usize]) -> Checked
    ensures { outcome result table.new ≡ check s.now table.old }
{
    if table.len() < MOST_FIELDS * ENTRY_WIDTH {
        return Checked::from(Err(Refusal::SmallTable));
    }
    let verdict = judge_record(s);
    if let Ok(n) = verdict {
        walks::fill(s, optional_start(s), n, table);
    }
    Checked::from(verdict)
}

// Where the optional part of a record starts.
#[tactic(auto, unfolding(record::specs::Read::optional_start))]
fn optional_start(s: &[u8]) -> usize
    ensures { result ≡ optional_start (kind_of s.now) }
{
    kind_of(s).map_or(0, |k| fixed_width(k))
}

// 1 to 10 of a record that is wanted of one kind: another kind is not known.
#[tactic(auto, unfolding(record::specs::Read::judged_as))]
fn judge_as(name: &[u8], s: &[u8]) -> Verdict
    ensures { result ≡ judged_as name.now s.now }
{
    if MOST_BYTES < s.len() {
        return Err(Refusal::TooLong);
    }
    if !same(part(s, 0, KIND_WIDTH), name) {
        return Err(Refusal::UnknownKind);
    }
    judge_record(s)
}

// A kind of record as a type of its values: the name that it begins with, and its values from bytes.
pub trait Typed {
    ghost name: { List ℕ };

    ghost zeros: { Self };

    ghost values: { List ℕ → Self };

    fn name() -> [u8; 4]
        ensures { result ≡ name };

    fn zeros() -> Self
        ensures { result ≡ zeros };

    fn values(s: &[u8]) -> Self
        requires { (n : ℕ) × (judged_as name s.now ≡ Ok n) }
        ensures { result ≡ values s.now };
}

impl Typed for Order {
    ghost name = { bytes "B101" };

    ghost zeros = { no_order };

    ghost values = { order_values };

    fn name() -> [u8; 4] {
        *b"B101"
    }

    fn zeros() -> Order {
        Order::default()
    }

    fn values(s: &[u8]) -> Order {
        order_of(s)
    }
}

impl Typed for Delivery {
    ghost name = { bytes "L101" };

    ghost zeros = { no_delivery };

    ghost values = { delivery_values };

    fn name() -> [u8; 4] {
        *b"L101"
    }

    fn zeros() -> Delivery {
        Delivery::default()
    }

    fn values(s: &[u8]) -> Delivery {
        delivery_of(s)
    }
}

impl Typed for Report {
    ghost name = { bytes "M101" };

    ghost zeros = { no_report };

    ghost values = { report_values };

    fn name() -> [u8; 4] {
        *b"M101"
    }

    fn zeros() -> Report {
        Report::default()
    }

    fn values(s: &[u8]) -> Report {
        report_of(s)
    }
}

// A record by the values of a kind, or the refusal with zeros.
#[tactic(auto, unfolding(record::specs::Read::typed_from))]
pub fn read_typed<T: Typed>(s: &[u8]) -> ReadAs<T>
    ensures { result ≡ typed_from T.zeros T.values (judged_as T.name s.now) s.now }
{
    let verdict = judge_as(&T::name(), s);
    let value = match verdict {
        Ok(_) => T::values(s),
        Err(_) => T::zeros(),
    };
    ReadAs {
        checked: Checked::from(verdict),
        value,
    }
}

// A B101 by its values, or the refusal with zeros.
#[tactic(auto, unfolding(record::specs::Read::read_order))]
pub fn read_order(s: &[u8]) -> ReadAs<Order>
    ensures { result ≡ read_order s.now }
{
    read_typed(s)
}

// An L101 by its values, or the refusal with zeros.
#[tactic(auto, unfolding(record::specs::Read::read_delivery))]
pub fn read_delivery(s: &[u8]) -> ReadAs<Delivery>
    ensures { result ≡ read_delivery s.now }
{
    read_typed(s)
}

// An M101 by its values, or the refusal with zeros.
#[tactic(auto, unfolding(record::specs::Read::read_report))]
pub fn read_report(s: &[u8]) -> ReadAs<Report>
    ensures { result ≡ read_report s.now }
{
    read_typed(s)
}
