// The public calls of writing: a record from its fixed part's bytes, a table and lent contents, judged first and then written whole; and a typed record, whose fixed part's bytes are made first.
#![tactic(auto)]

pub mod draft;
pub mod output;

ghost use Rattle.std.specs.Prelude.{◌≡◌};
ghost use Rattle.writing.specs.Typed.{order_bytes, delivery_bytes, report_bytes};
ghost use Rattle.writing.specs.Write.{length_judged, outcome, write};

use crate::draft::Draft;
use fixed::FixedPart;
use record::layout::MOST_BYTES;
use record::values::{Delivery, Order, Report};
use writing::answer::{Refusal, Verdict, Written};

// 1, then 23, of a record of a length.
#[tactic(auto, unfolding(writing::specs::Write::length_judged), using(std::proofs::lemmas::Bool::Decides::nat_tests))]
pub fn judge_length(n: usize, out: &[u8]) -> Verdict
    ensures { result ≡ length_judged n out.now }
{
    if MOST_BYTES < n {
        return Err(Refusal::TooLong);
    }
    if out.len() < n {
        return Err(Refusal::SmallOutput);
    }
    Ok(n)
}

// Writes a record at the front of the output, or refuses and changes nothing. Its parts stay apart here, as C lends them.
#[tactic(auto, unfolding(writing::specs::Write::write))]
pub fn write(
    fixed: &[u8],
    table: &[usize],
    count: usize,
    contents: &[u8],
    out: &mut [u8],
) -> Written
    ensures { outcome result out.new ≡ write fixed.now table.now count contents.now out.old }
{
    let draft = Draft {
        fixed,
        table,
        count,
        contents,
    };
    draft.put(out).into()
}

// Writes a record whose fixed part is a typed value.
pub fn write_typed<const N: usize, T: FixedPart<N>>(
    value: T,
    table: &[usize],
    count: usize,
    contents: &[u8],
    out: &mut [u8],
) -> Written
    ensures { outcome result out.new ≡ write (T.bytes value) table.now count contents.now out.old }
{
    write(&value.fixed_part(), table, count, contents, out)
}

// Writes a B101 at the front of the output, or refuses and changes nothing.
pub fn write_order(
    o: Order,
    table: &[usize],
    count: usize,
    contents: &[u8],
    out: &mut [u8],
) -> Written
    ensures { outcome result out.new ≡ write (order_bytes o) table.now count contents.now out.old }
{
    write_typed(o, table, count, contents, out)
}

// Writes an L101 at the front of the output, or refuses and changes nothing.
pub fn write_delivery(
    d: Delivery,
    table: &[usize],
    count: usize,
    contents: &[u8],
    out: &mut [u8],
) -> Written
    ensures { outcome result out.new ≡ write (delivery_bytes d) table.now count contents.now out.old }
{
    write_typed(d, table, count, contents, out)
}

// Writes an M101 at the front of the output, or refuses and changes nothing.
pub fn write_report(
    m: Report,
    table: &[usize],
    count: usize,
    contents: &[u8],
    out: &mut [u8],
) -> Written
    ensures { outcome result out.new ≡ write (report_bytes m) table.now count contents.now out.old }
{
    write_typed(m, table, count, contents, out)
}
