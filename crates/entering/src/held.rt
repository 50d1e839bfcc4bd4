// The lent book, to be written: its room for lines, its room for slips, and how many of each are used. The library has no heap, so the rooms stay the caller's.
ghost use Rattle.std.specs.Prelude.{◌≡◌, true, ◌+◌, ◌*◌, ◌≤◌, ◌<◌, length, get_or};
ghost use Rattle.entry.specs.Stored.{line_width, line_at};
ghost use Rattle.book.specs.Lent.{most_lines, sound};
ghost use Rattle.book.specs.Booking.{agreed_at, outcome, entered_as};
ghost use Rattle.entering.specs.Held.{held, SameRooms};

use crate::{enter_order_line, enter_report_line, use_line};
use book::answer::{AGREED, Booked, NOT_AGREED};
use entry::line::Line;
use finding::lent::LentBook;
use finding::sound::SoundBook;
use naming::kinds::{Order, Report};
use naming::read::ReadRecord;
use record::layout::Kind;
use stored::line::StoredLine;

#[derive(Drop)]
pub struct Book<'a> {
    pub lines: &'a mut [u8],
    pub slips: &'a mut [u8],
    pub used: &'a mut [usize; 2],
}

// Whether a line was ordered under an article.
#[tactic(auto, unfolding(book::specs::Booking::agreed_at))]
pub fn agreed(line: StoredLine, article: &[u8]) -> u64
    ensures { result ≡ agreed_at line.entry.lines.now article.now line.entry.index }
{
    if line.article_is(article) {
        return AGREED;
    }
    NOT_AGREED
}

impl<'a> Book<'a> {
    ghost use Rattle.finding.specs.Seen.{seen};

    // The line with an index.
    pub fn line(&self, i: usize) -> Line
        requires { line_width * i + line_width ≤ length self.now.lines.now }
        ensures { result ≡ line_at self.now.lines.now i }
    {
        StoredLine {
            lines: self.lines,
            index: i,
        }
        .read()
    }

    // Whether the line with an index was ordered under an article.
    pub fn agreed(&self, i: usize, article: &[u8]) -> u64
        requires { line_width * i + line_width ≤ length self.now.lines.now }
        ensures { result ≡ agreed_at self.now.lines.now article.now i }
    {
        agreed(
            StoredLine {
                lines: self.lines,
                index: i,
            },
            article,
        )
    }

    // A sound book, to be read.
    pub fn view(&self) -> SoundBook<'_>
        requires { sound (held self.now) ≡ true }
        ensures { seen result.lent ≡ held self.now }
    {
        SoundBook {
            lent: LentBook {
                lines: self.lines,
                slips: self.slips,
                used: self.used,
            },
        }
    }
}

// An accepted order, entered in a book that is lent whole.
pub fn enter_order(order: &ReadRecord<Order>, book: &mut Book, i: usize) -> Booked
    requires { (line_width * i + line_width ≤ length book.old.lines.now) × (get_or book.old.used.now 0 0 < most_lines) }
    ensures entered { outcome result (held book.new) ≡ entered_as Kind.Order order.now.bytes.now (held book.old) i }
    ensures same { SameRooms book.old book.new }
{
    let said = enter_order_line(order, book.lines, i);
    use_line(book.used);
    said
}

// An accepted report, entered in a book that is lent whole.
pub fn enter_report(report: &ReadRecord<Report>, book: &mut Book, i: usize) -> Booked
    requires { line_width * i + line_width ≤ length book.old.lines.now }
    ensures entered { outcome result (held book.new) ≡ entered_as Kind.Report report.now.bytes.now (held book.old) i }
    ensures same { SameRooms book.old book.new }
{
    enter_report_line(report, book.lines, i)
}
