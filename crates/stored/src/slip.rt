// A slip where it stands in the lent bytes.
ghost use Rattle.std.specs.Prelude.{◌≡◌, ◌+◌, ◌*◌, ◌≤◌, length};
ghost use Rattle.entry.specs.Stored.{slip_width};

use crate::{SLIP_COPIES_AT, SLIP_KEY_WIDTH, SLIP_WIDTH};
use cells::little::get;
use entry::key::field_is;
use rules::amount::Copies;

// The slip with an index, all of it within the lent bytes.
#[derive(Clone, Copy, PartialEq, Eq, Debug)]
pub struct StoredSlip<'a> {
    pub slips: &'a [u8],
    pub index: usize,
    pub ghost inside: { slip_width * index + slip_width ≤ length slips.now },
}

impl<'a> StoredSlip<'a> {
    ghost use Rattle.entry.specs.Stored.{slip_is, slip_line_at, slip_copies_at};

    // Whether it has a key.
    #[tactic(auto, unfolding(entry::specs::Stored::slip_is, entry::specs::Stored::slip_key_at))]
    pub fn key_is(self, key: &[u8]) -> bool
        ensures { result ≡ slip_is self.entry.slips.now key.now self.entry.index }
    {
        field_is::<SLIP_KEY_WIDTH>(self.slips, SLIP_WIDTH * self.index, key)
    }

    // The index of its line.
    #[tactic(auto, unfolding(entry::specs::Stored::slip_line_at))]
    pub fn line(self) -> usize
        ensures { result ≡ slip_line_at self.entry.slips.now self.entry.index }
    {
        get::<2>(self.slips, SLIP_WIDTH * self.index + SLIP_KEY_WIDTH) as usize
    }

    #[tactic(auto, unfolding(entry::specs::Stored::slip_copies_at))]
    pub fn copies(self) -> Copies
        ensures { result ≡ slip_copies_at self.entry.slips.now self.entry.index }
    {
        Copies(get::<2>(self.slips, SLIP_WIDTH * self.index + SLIP_COPIES_AT))
    }
}
