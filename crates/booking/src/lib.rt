// The public call of booking: a record booked into a lent book.
#![tactic(auto)]

ghost use Rattle.std.specs.Prelude.{◌≡◌, true};
ghost use Rattle.record.specs.Read.{judged};
ghost use Rattle.book.specs.Lent.{lent, sound};
ghost use Rattle.book.specs.Booking.{outcome, entered_as, book_as, book_read, book};
ghost use Rattle.entering.specs.Held.{held, SameRooms};
ghost use Rattle.booking.specs.Fits.{Fits};

use book::answer::{Booked, Refused};
use entering::enter_goods;
use entering::held::{Book, enter_order, enter_report};
use finding::seek::is_sound;
use judging::judge::{Judged, judge};
use naming::kinds::{Goods, Order, Report};
use naming::read::ReadRecord;
use reader::judge_record;
use record::layout::{Kind, kind_of};
use roster::is_roster;

// A kind of record, entered where it fits.
trait Entered: Judged {
    fn enter(given: &ReadRecord<Self>, book: &mut Book, i: usize) -> Booked
        requires { Fits Self.kind given.now.bytes.now (held book.old) i }
        ensures entered { outcome result (held book.new) ≡ entered_as Self.kind given.now.bytes.now (held book.old) i }
        ensures same { SameRooms book.old book.new };
}

impl Entered for Order {
    fn enter(order: &ReadRecord<Order>, book: &mut Book, i: usize) -> Booked {
        enter_order(order, book, i)
    }
}

impl Entered for Goods {
    fn enter(goods: &ReadRecord<Goods>, book: &mut Book, i: usize) -> Booked {
        enter_goods(goods, book, i)
    }
}

impl Entered for Report {
    fn enter(report: &ReadRecord<Report>, book: &mut Book, i: usize) -> Booked {
        enter_report(report, book, i)
    }
}

// A record that was read, booked into a sound book.
#[tactic(auto, unfolding(book::specs::Booking::book_as, book::specs::Booking::settled))]
fn book_as<K: Entered>(given: &ReadRecord<K>, roster: &[u8], book: &mut Book) -> Booked
    requires { sound (held book.old) ≡ true }
    ensures booked { outcome result (held book.new) ≡ book_as K.kind given.now.bytes.now roster.now (held book.old) }
    ensures same { SameRooms book.old book.new }
{
    match judge(given, roster, book.view()) {
        Err(r) => Booked::from(r),
        Ok(i) => K::enter(given, book, i),
    }
}

// A record booked into a sound book: 1 to 10, 13, 11, 12, 24, then what the book says.
#[tactic(auto, unfolding(book::specs::Booking::book_read, book::specs::Booking::book_kind, book::specs::Booking::copies_in), using(crate::proofs::Stages::closing_so, crate::proofs::Rooms::fixed_wide))]
fn book_read(s: &[u8], roster: &[u8], book: &mut Book) -> Booked
    requires { sound (held book.old) ≡ true }
    ensures booked { outcome result (held book.new) ≡ book_read (judged s.now) s.now roster.now (held book.old) }
    ensures same { SameRooms book.old book.new }
{
    if let Err(r) = judge_record(s) {
        return Booked::from(Refused::Unread(r));
    }
    match kind_of(s) {
        Some(Kind::Order) => book_as(&ReadRecord::<Order>::of(s), roster, book),
        Some(Kind::Goods) => book_as(&ReadRecord::<Goods>::of(s), roster, book),
        Some(Kind::Report) => book_as(&ReadRecord::<Report>::of(s), roster, book),
        Some(Kind::Closing) => Booked::from(Refused::NothingToBook),
        None => Booked::from(Refused::NothingToBook),
    }
}

// Books a record that meets a roster: 20, 1 to 10, 13, 11, 12, 24, then what the book says. A refusal changes nothing.
// Lines, slips and used counts stay apart here, as C lends them.
#[tactic(auto, unfolding(book::specs::Booking::book))]
pub fn book(
    s: &[u8],
    roster: &[u8],
    lines: &mut [u8],
    slips: &mut [u8],
    used: &mut [usize; 2],
) -> Booked
    ensures { outcome result (lent lines.new slips.new used.new) ≡ book s.now roster.now (lent lines.old slips.old used.old) }
{
    if !is_roster(roster) || !is_sound(lines, slips, used) {
        return Booked::from(Refused::Unsound);
    }
    let mut book = Book { lines, slips, used };
    book_read(s, roster, &mut book)
}
