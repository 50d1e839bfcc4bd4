// What a sound book says of a record that was read: nothing is written yet.
ghost use Rattle.std.specs.Prelude.{◌≡◌};
ghost use Rattle.book.specs.Booking.{nothing_to_book, no_copies, book_judged, fit_judged};
ghost use Rattle.finding.specs.Seen.{seen};

use book::answer::{Refused, Verdict};
use cells::part;
use finding::sound::SoundBook;
use naming::kinds::{Bookable, Goods, Order, Report, slip_key};
use naming::read::ReadRecord;
use placing::{judge_arrival, judge_room, judge_slip};
use record::places::{POSITION, SLIP};
use roster::standing_on;
use signs::{Class, all_of};

// A kind of record, judged.
pub trait Judged: Bookable {
    // 13.
    fn has_nothing_to_book(given: &ReadRecord<Self>) -> bool
        ensures { result ≡ nothing_to_book Self.kind given.now.bytes.now };

    // 11.
    fn has_no_copies(given: &ReadRecord<Self>) -> bool
        ensures { result ≡ no_copies Self.kind given.now.bytes.now };

    // What the book says, where the school's account stands on the roster with a ceiling.
    fn judge_in(given: &ReadRecord<Self>, ceiling: u64, book: SoundBook) -> Verdict
        ensures { result ≡ book_judged Self.kind given.now.bytes.now ceiling (seen book.entry.lent) };
}

impl Judged for Order {
    #[tactic(auto, unfolding(book::specs::Booking::nothing_to_book))]
    fn has_nothing_to_book(_given: &ReadRecord<Order>) -> bool {
        false
    }

    #[tactic(auto, unfolding(book::specs::Booking::no_copies))]
    fn has_no_copies(order: &ReadRecord<Order>) -> bool {
        order.copies.0 == 0
    }

    // 14, then 25 and 15.
    #[tactic(auto, unfolding(book::specs::Booking::line_key, book::specs::Booking::book_judged, book::specs::Booking::order_judged))]
    fn judge_in(order: &ReadRecord<Order>, ceiling: u64, book: SoundBook) -> Verdict {
        match book.line_with(Order::key(order.bytes)) {
            Some(_) => Err(Refused::LineExists),
            None => judge_room(Order::school(order.bytes), order.copies, ceiling, book),
        }
    }
}

impl Judged for Goods {
    // An advance notice, with a blank slip number.
    #[tactic(auto, using(naming::proofs::Named::slip_blank_is))]
    fn has_nothing_to_book(goods: &ReadRecord<Goods>) -> bool {
        all_of(Class::Blank, part(goods.bytes, SLIP, POSITION))
    }

    #[tactic(auto, unfolding(book::specs::Booking::no_copies))]
    fn has_no_copies(goods: &ReadRecord<Goods>) -> bool {
        goods.copies.0 == 0
    }

    // 17 or 18, 16, 21, 19.
    #[tactic(auto, unfolding(book::specs::Booking::line_key, book::specs::Booking::book_judged, book::specs::Booking::delivery_judged, book::specs::Booking::goods_judged), using(book::proofs::Fields::slip_key_long))]
    fn judge_in(goods: &ReadRecord<Goods>, _ceiling: u64, book: SoundBook) -> Verdict {
        let key = Goods::key(goods.bytes);
        match book.slip_with(slip_key(goods.bytes)) {
            Some(j) => judge_slip(key, goods.copies, book.lent, j),
            None => match book.line_with(key) {
                None => Err(Refused::NoLine),
                Some(i) => judge_arrival(goods.copies, book, i),
            },
        }
    }
}

impl Judged for Report {
    #[tactic(auto, unfolding(book::specs::Booking::nothing_to_book))]
    fn has_nothing_to_book(_given: &ReadRecord<Report>) -> bool {
        false
    }

    #[tactic(auto, unfolding(book::specs::Booking::no_copies))]
    fn has_no_copies(_given: &ReadRecord<Report>) -> bool {
        false
    }

    // 16.
    #[tactic(auto, unfolding(book::specs::Booking::line_key, book::specs::Booking::book_judged, book::specs::Booking::report_judged))]
    fn judge_in(report: &ReadRecord<Report>, _ceiling: u64, book: SoundBook) -> Verdict {
        book.line_with(Report::key(report.bytes))
            .ok_or(Refused::NoLine)
    }
}

// 13, 11, 12, 24, then what the book says.
#[tactic(auto, unfolding(book::specs::Booking::fit_judged, book::specs::Booking::on_roster))]
pub fn judge<K: Judged>(given: &ReadRecord<K>, roster: &[u8], book: SoundBook) -> Verdict
    ensures { result ≡ fit_judged K.kind given.now.bytes.now roster.now (seen book.entry.lent) }
{
    if K::has_nothing_to_book(given) {
        return Err(Refused::NothingToBook);
    }
    if K::has_no_copies(given) {
        return Err(Refused::NoCopies);
    }
    if K::has_no_reference(given.bytes) {
        return Err(Refused::NoReference);
    }
    let Some(ceiling) = standing_on(roster, K::school(given.bytes)) else {
        return Err(Refused::NotOnRoster);
    };
    K::judge_in(given, ceiling, book)
}
