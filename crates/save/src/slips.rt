// The slips of a save, and the body of each.
ghost use Rattle.std.specs.Prelude.{◌≡◌, ◌+◌, ◌*◌, ◌<◌, ◌≤◌, length};
ghost use Rattle.save.specs.Entries.{line_index, slip_copies};
ghost use Rattle.save.specs.Saved.{slip_body_width, saved_slip_width, slip_in};

use crate::form::KIND_BYTE;
use cells::little::get;
use stored::{SLIP_COPIES_AT, SLIP_KEY_WIDTH, SLIP_WIDTH};

// A byte of kind and a body, which is a slip's entry in the book.
pub const SAVED_SLIP_WIDTH: usize = KIND_BYTE + SLIP_WIDTH;

// The body of a slip.
#[derive(Clone, Copy, PartialEq, Eq, Debug)]
pub struct SlipBody<'a> {
    pub bytes: &'a [u8],
    ghost wide: { length bytes.now ≡ slip_body_width },
}

impl<'a> SlipBody<'a> {
    // The index of its line.
    #[tactic(auto, unfolding(crate::specs::Entries::line_index))]
    pub fn line(self) -> usize
        ensures { result ≡ line_index self.entry.bytes.now }
    {
        get::<2>(self.bytes, SLIP_KEY_WIDTH) as usize
    }

    // Its quantity.
    #[tactic(auto, unfolding(crate::specs::Entries::slip_copies))]
    pub fn copies(self) -> u64
        ensures { (result ≡ slip_copies self.entry.bytes.now) × (result < 65536) }
    {
        get::<2>(self.bytes, SLIP_COPIES_AT)
    }
}

// The slips of a save: so many entries, from a place on.
#[derive(Clone, Copy, PartialEq, Eq, Debug)]
pub struct Slips<'a> {
    pub bytes: &'a [u8],
    pub at: usize,
    pub count: usize,
    ghost stand: { at + saved_slip_width * count ≤ length bytes.now },
}

impl<'a> Slips<'a> {
    // The body of a slip.
    #[tactic(auto, unfolding(crate::specs::Saved::slip_in), using(cells::proofs::Parts::part_is))]
    pub fn body(self, j: usize) -> SlipBody<'a>
        requires { j < self.count }
        ensures { result.bytes.now ≡ slip_in self.entry.bytes.now self.entry.at j }
    {
        let from = self.at + SAVED_SLIP_WIDTH * j + KIND_BYTE;
        let end = from + SLIP_WIDTH;
        SlipBody {
            bytes: &self.bytes[from..end],
        }
    }
}
