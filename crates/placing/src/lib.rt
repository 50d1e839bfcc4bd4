// What the book says where a record would stand in it: nothing is written yet.
#![tactic(auto)]

ghost use Rattle.std.specs.Prelude.{◌≡◌, ◌+◌, ◌*◌, ◌≤◌, ◌<◌, length};
ghost use Rattle.entry.specs.Stored.{line_width, slip_width, most_copies, slip_line_at};
ghost use Rattle.entry.specs.Keyed.{keyed};
ghost use Rattle.book.specs.Lent.{open_copies, used_lines};
ghost use Rattle.book.specs.Booking.{new_line_judged, slip_judged, arrival_judged};
ghost use Rattle.finding.specs.Seen.{seen};

use book::answer::{Refused, Verdict};
use entry::line_key::LineKey;
use finding::keyed::key_is;
use finding::lent::LentBook;
use finding::sound::SoundBook;
use rules::amount::Copies;
use stored::line::StoredLine;
use stored::slip::StoredSlip;
use stored::{LINE_WIDTH, MOST_ARRIVED, SLIP_WIDTH};

// 25, 15, of an order of so many copies for a school with a ceiling.
#[tactic(auto, unfolding(book::specs::Lent::used_lines, book::specs::Lent::line_room, book::specs::Booking::new_line_judged), using(finding::proofs::Stands::open_most))]
pub fn judge_room(school: &[u8], copies: Copies, ceiling: u64, book: SoundBook) -> Verdict
    requires { copies.0 ≤ most_copies }
    ensures { result ≡ new_line_judged (seen book.entry.lent) (open_copies (seen book.entry.lent) school.now + copies.0) ceiling }
{
    if ceiling < book.open_copies(school) + copies.0 {
        return Err(Refused::CeilingPassed);
    }
    let count = book.lent.used_lines();
    if count < book.lent.lines.len() / LINE_WIDTH {
        return Ok(count);
    }
    Err(Refused::LinesUsed)
}

// 17 or 18, where the slip key is booked at j.
#[tactic(auto, unfolding(book::specs::Booking::slip_judged))]
pub fn judge_slip(key: LineKey, copies: Copies, book: LentBook, j: usize) -> Verdict
    requires { (slip_width * j + slip_width ≤ length book.slips.now) × (line_width * slip_line_at book.slips.now j + line_width ≤ length book.lines.now) }
    ensures { result ≡ slip_judged (seen book.entry) (keyed key.entry) copies j }
{
    let slip = StoredSlip {
        slips: book.slips,
        index: j,
    };
    let line = StoredLine {
        lines: book.lines,
        index: slip.line(),
    };
    if key_is(line, key) & (slip.copies() == copies) {
        return Err(Refused::SlipBooked);
    }
    Err(Refused::SlipDiffers)
}

// 21, 19, where the line stands at i.
#[tactic(auto, unfolding(book::specs::Lent::used_slips, book::specs::Lent::slip_room, book::specs::Booking::arrival_judged))]
pub fn judge_arrival(copies: Copies, book: SoundBook, i: usize) -> Verdict
    requires { (copies.0 ≤ most_copies) × (i < used_lines (seen book.lent)) }
    ensures { result ≡ arrival_judged (seen book.entry.lent) copies i }
{
    let l = book.line(i);
    if MOST_ARRIVED < l.arrived.0 + copies.0 {
        return Err(Refused::TooManyArrived);
    }
    if book.lent.used_slips() < book.lent.slips.len() / SLIP_WIDTH {
        return Ok(i);
    }
    Err(Refused::SlipsUsed)
}
