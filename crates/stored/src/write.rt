// Lines and slips written into lent bytes. They take the bytes and an index: methods of a value that holds a `&mut` would promise three things, bytes, index and length, in place of one equation, and each caller would have to make that value first.
ghost use Rattle.std.specs.Prelude.{◌≡◌, ◌++◌, ◌+◌, ◌*◌, ◌≤◌, length};
ghost use Rattle.entry.specs.Stored.{line_width, ordered_at, slip_width, slip_key_width, put_arrived, put_report, add_line, add_slip};

use crate::{
    ARRIVED_AT, EXPECTED_AT, LINE_WIDTH, MARK_AT, MESSAGE_AT, ORDERED_AT, SLIP_COPIES_AT,
    SLIP_KEY_WIDTH, SLIP_WIDTH,
};
use cells::little::put;
use cells::paste_at;
use entry::line::Mark;
use entry::report::{BLANK_DATE, Message};
use rules::amount::Copies;
use rules::day::Day;

// A of the line with an index; nothing else changes.
#[tactic(auto, unfolding(entry::specs::Stored::put_arrived, entry::specs::Stored::put_in))]
pub fn write_arrived(lines: &mut [u8], i: usize, arrived: Copies)
    requires { line_width * i + line_width ≤ length lines.old }
    ensures { lines.new ≡ put_arrived lines.old i arrived }
{
    put::<4>(lines, LINE_WIDTH * i + ARRIVED_AT, arrived.0);
}

// What a report says of the line with an index; the expected date is given as it stands in the record.
#[tactic(auto, using(entry::proofs::Writes::put_report_law))]
pub fn write_report(
    lines: &mut [u8],
    i: usize,
    mark: Mark,
    message: Message,
    date: [u8; Day::WIDTH],
)
    requires { line_width * i + line_width ≤ length lines.old }
    ensures { lines.new ≡ put_report lines.old i mark message date }
{
    let at = LINE_WIDTH * i;
    lines[at + MARK_AT] = mark.into();
    put::<2>(lines, at + MESSAGE_AT, message.into());
    paste_at(lines, at + EXPECTED_AT, &date);
}

// A new line with its key and article, which are given in two parts.
#[tactic(auto, unfolding(entry::specs::Stored::put_in), using(entry::proofs::Writes::add_line_parts))]
pub fn write_new_line(lines: &mut [u8], i: usize, front: &[u8], back: &[u8], ordered: Copies)
    requires { (length (front.now ++ back.now) ≡ ordered_at) × (line_width * i + line_width ≤ length lines.old) }
    ensures { lines.new ≡ add_line lines.old i (front.now ++ back.now) ordered }
{
    let at = LINE_WIDTH * i;
    paste_at(lines, at, front);
    paste_at(lines, at + front.len(), back);
    put::<2>(lines, at + ORDERED_AT, ordered.0);
    write_report(lines, i, Mark::Unmarked, Message::NoReport, BLANK_DATE);
    write_arrived(lines, i, Copies(0));
}

// A slip with its key, the index of its line and its quantity.
#[tactic(auto, using(entry::proofs::Writes::put_slip))]
pub fn write_slip(slips: &mut [u8], j: usize, key: &[u8], line: usize, copies: Copies)
    requires { (length key.now ≡ slip_key_width) × (slip_width * j + slip_width ≤ length slips.old) }
    ensures { slips.new ≡ add_slip slips.old j key.now line copies }
{
    let at = SLIP_WIDTH * j;
    paste_at(slips, at, key);
    put::<2>(slips, at + SLIP_KEY_WIDTH, line as u64);
    put::<2>(slips, at + SLIP_COPIES_AT, copies.0);
}
