// A record entered, once the book has said where it fits: straight-line code.
#![tactic(auto)]

ghost use Rattle.std.specs.Prelude.{ℕ, ◌≡◌, ◌+◌, ◌*◌, ◌≤◌, ◌<◌, List, length, get_or};
ghost use Rattle.entry.specs.Line.{new_line};
ghost use Rattle.entry.specs.Stored.{line_width, slip_width, most_arrived, line_at};
ghost use Rattle.book.specs.Lent.{most_lines, most_slips, lent};
ghost use Rattle.book.specs.Booking.{copies_in, mark_in, message_in, outcome, entered_as};
ghost use Rattle.entering.specs.Held.{held, one_line_more, SameRooms};

pub mod held;

use crate::held::{Book, agreed};
use book::answer::{AGREED, Booked, Told};
use cells::{bytes_at, part};
use entry::line::{Line, Mark};
use entry::report::{Message, expected_date};
use naming::kinds::{Bookable, Goods, Order, Report, slip_key};
use naming::read::ReadRecord;
use record::layout::Kind;
use record::places::{
    EXPECTED, HOLD, MESSAGE, ORDER_QUANTITY, ORDER_REFERENCE, PARTIES_END, SENDER,
};
use rules::amount::Copies;
use rules::expected::Expected;
use rules::number::number_of;
use stored::line::StoredLine;
use stored::write::{write_arrived, write_new_line, write_report, write_slip};

// The mark that holds an order open.
const LETTER_J: u8 = 74;

// The digits of a message number.
const MESSAGE_WIDTH: usize = 3;

// A new line: nothing has arrived, and no report has come.
#[tactic(auto, unfolding(entry::specs::Line::new_line))]
fn new_line(copies: Copies) -> Line
    ensures { result ≡ new_line copies }
{
    Line {
        ordered: copies,
        arrived: Copies(0),
        mark: Mark::Unmarked,
        message: Message::NoReport,
        expected: Expected::Blanks,
    }
}

// The mark that a report sets.
#[tactic(auto, using(crate::proofs::Entered::told))]
fn mark_in(report: &ReadRecord<Report>) -> Mark
    ensures { result ≡ mark_in report.now.bytes.now }
{
    if report.bytes[HOLD] == LETTER_J {
        return Mark::Held;
    }
    Mark::Dropped
}

// The message number of a report.
#[tactic(auto, using(crate::proofs::Entered::told))]
fn message_in(report: &ReadRecord<Report>) -> Message
    ensures { result ≡ message_in report.now.bytes.now }
{
    Message::Numbered(number_of(&bytes_at::<MESSAGE_WIDTH>(report.bytes, MESSAGE)))
}

// One more line is used.
fn use_line(used: &mut [usize; 2])
    requires { get_or used.old 0 0 < most_lines }
    ensures { used.new ≡ one_line_more used.old }
{
    used[0] += 1;
}

// The line of an accepted order, in any book: its slips stay, and one more line is used.
#[tactic(auto, unfolding(book::specs::Booking::entered_as, book::specs::Booking::line_after, book::specs::Booking::agreed_as, book::specs::Booking::lent_after, book::specs::Lent::used_lines), using(crate::proofs::Entered::told))]
fn enter_order_line(order: &ReadRecord<Order>, lines: &mut [u8], i: usize) -> Booked
    requires { line_width * i + line_width ≤ length lines.old }
    ensures { (slips used : List ℕ) → outcome result (lent lines.new slips (one_line_more used)) ≡ entered_as Kind.Order order.now.bytes.now (lent lines.old slips used) i }
{
    write_new_line(
        lines,
        i,
        part(order.bytes, SENDER, PARTIES_END),
        part(order.bytes, ORDER_REFERENCE, ORDER_QUANTITY),
        order.copies,
    );
    Told::from(new_line(order.copies)).with_agreed(AGREED)
}

// An accepted order adds a line. It writes the lines and the used counts alone, so the slips are lent to be read.
pub fn enter_order(
    order: &ReadRecord<Order>,
    lines: &mut [u8],
    slips: &[u8],
    used: &mut [usize; 2],
    i: usize,
) -> Booked
    requires { (line_width * i + line_width ≤ length lines.old) × (get_or used.old 0 0 < most_lines) }
    ensures { outcome result (lent lines.new slips.now used.new) ≡ entered_as Kind.Order order.now.bytes.now (lent lines.old slips.now used.old) i }
{
    let said = enter_order_line(order, lines, i);
    use_line(used);
    said
}

// An accepted delivery adds a slip, and its copies to its line.
#[tactic(auto, unfolding(book::specs::Booking::entered_as, book::specs::Booking::line_after, book::specs::Booking::agreed_as, book::specs::Booking::lent_after, book::specs::Lent::used_slips), using(crate::proofs::Entered::told))]
pub fn enter_goods(goods: &ReadRecord<Goods>, book: &mut Book, i: usize) -> Booked
    requires { (line_width * i + line_width ≤ length book.old.lines.now) × (slip_width * get_or book.old.used.now 1 0 + slip_width ≤ length book.old.slips.now) × (get_or book.old.used.now 1 0 < most_slips) × ((line_at book.old.lines.now i).arrived.0 + (copies_in Kind.Goods goods.now.bytes.now).0 ≤ most_arrived) }
    ensures entered { outcome result (held book.new) ≡ entered_as Kind.Goods goods.now.bytes.now (held book.old) i }
    ensures same { SameRooms book.old book.new }
{
    let same_article = book.agreed(i, Goods::article(goods.bytes));
    let l = book.line(i).with_arrivals(goods.copies);
    write_arrived(book.lines, i, l.arrived);
    let j = book.used[1];
    write_slip(book.slips, j, slip_key(goods.bytes), i, goods.copies);
    book.used[1] = j + 1;
    Told::from(l).with_agreed(same_article)
}

// The line of an accepted report, in any book: its slips and its used counts stay.
#[tactic(auto, unfolding(book::specs::Booking::entered_as, book::specs::Booking::line_after, book::specs::Booking::agreed_as, book::specs::Booking::lent_after), using(crate::proofs::Entered::told))]
fn enter_report_line(report: &ReadRecord<Report>, lines: &mut [u8], i: usize) -> Booked
    requires { line_width * i + line_width ≤ length lines.old }
    ensures { (slips used : List ℕ) → outcome result (lent lines.new slips used) ≡ entered_as Kind.Report report.now.bytes.now (lent lines.old slips used) i }
{
    let line = StoredLine { lines, index: i };
    let same_article = agreed(line, Report::article(report.bytes));
    let mark = mark_in(report);
    let message = message_in(report);
    let date = bytes_at(report.bytes, EXPECTED);
    let l = line.read().with_report(mark, message, expected_date(date));
    write_report(lines, i, mark, message, date);
    Told::from(l).with_agreed(same_article)
}

// An accepted report sets the mark, the message and the expected date. It writes the lines alone.
pub fn enter_report(
    report: &ReadRecord<Report>,
    lines: &mut [u8],
    slips: &[u8],
    used: &[usize; 2],
    i: usize,
) -> Booked
    requires { line_width * i + line_width ≤ length lines.old }
    ensures { outcome result (lent lines.new slips.now used.now) ≡ entered_as Kind.Report report.now.bytes.now (lent lines.old slips.now used.now) i }
{
    enter_report_line(report, lines, i)
}
