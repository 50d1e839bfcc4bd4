// A record that was read, of a kind that is booked.
ghost use Rattle.std.specs.Prelude.{◌≡◌, ◌≤◌, length};
ghost use Rattle.record.specs.Layout.{fixed_width};
ghost use Rattle.entry.specs.Stored.{most_copies};
ghost use Rattle.book.specs.Booking.{copies_in};

use crate::kinds::Bookable;
use rules::amount::Copies;
use std::marker::PhantomData;

// It holds its fixed part, and its quantity, taken once, has at most four digits.
#[derive(Drop)]
pub struct ReadRecord<'a, K: Bookable> {
    pub bytes: &'a [u8],
    pub copies: Copies,
    pub of: PhantomData<K>,
    pub ghost wide: { fixed_width K.kind ≤ length bytes.now },
    pub ghost counted: { copies ≡ copies_in K.kind bytes.now },
    pub ghost few: { copies.0 ≤ most_copies },
}

impl<'a, K: Bookable> ReadRecord<'a, K> {
    pub fn of(bytes: &'a [u8]) -> Self
        requires { (fixed_width K.kind ≤ length bytes.now) × ((copies_in K.kind bytes.now).0 ≤ most_copies) }
        ensures { result.bytes.now ≡ bytes.now }
    {
        ReadRecord {
            bytes,
            copies: K::copies(bytes),
            of: PhantomData,
        }
    }
}
