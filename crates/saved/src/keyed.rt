// The keys of a save's lines and of its slips, and whether one stands among earlier ones.
ghost use Rattle.std.specs.Prelude.{◌≡◌, ℕ, List, ◌<◌, ◌≤◌, length, take};
ghost use Rattle.cells.specs.Bytes.{same};
ghost use Rattle.save.specs.Entries.{is_new};

use cells::same_by;
use save::lines::Lines;
use save::slips::Slips;
use stored::{KEY_TELLS, KEY_WIDTH, SLIP_KEY_TELLS, SLIP_KEY_WIDTH};

// Entries with keys: a key is so many bytes at the front of a body.
pub trait Keyed {
    ghost bodies: { Self → ℕ → List ℕ };

    ghost key_width: { ℕ };

    ghost count: { Self → ℕ };

    // The key of an entry.
    fn key(&self, i: usize) -> &[u8]
        requires { i < count self.now }
        ensures key { result.now ≡ take key_width (bodies self.now i) }
        ensures wide { length result.now ≡ key_width };

    // Whether an entry has a key; the eight bytes in which most keys differ are compared first.
    fn has_key(&self, i: usize, key: &[u8]) -> bool
        requires { i < count self.now }
        ensures { result ≡ same (take key_width (bodies self.now i)) key.now };
}

impl<'a> Keyed for Lines<'a> {
    ghost use Rattle.entry.specs.Stored.{key_width};
    ghost use Rattle.save.specs.Saved.{line_in};

    ghost bodies = { λ l. line_in l.form l.bytes.now };

    ghost key_width = { key_width };

    ghost count = { λ l. l.count };

    #[tactic(auto, unfolding(save::specs::Saved::line_in), using(save::proofs::Fronts::width_least, save::proofs::Fronts::front_key))]
    fn key(&self, i: usize) -> &[u8] {
        &self.body(i).bytes[0..KEY_WIDTH]
    }

    fn has_key(&self, i: usize, key: &[u8]) -> bool {
        same_by(self.key(i), key, KEY_TELLS)
    }
}

impl<'a> Keyed for Slips<'a> {
    ghost use Rattle.entry.specs.Stored.{slip_key_width};
    ghost use Rattle.save.specs.Saved.{slip_in};

    ghost bodies = { λ l. slip_in l.bytes.now l.at };

    ghost key_width = { slip_key_width };

    ghost count = { λ l. l.count };

    fn key(&self, i: usize) -> &[u8] {
        &self.body(i).bytes[0..SLIP_KEY_WIDTH]
    }

    fn has_key(&self, i: usize, key: &[u8]) -> bool {
        same_by(self.key(i), key, SLIP_KEY_TELLS)
    }
}

// Whether none of the first entries, so many of them, has a key.
#[tactic(auto, unfolding(save::specs::Entries::is_new), using(save::proofs::Walked::walked))]
pub fn is_new<E: Keyed>(entries: &E, key: &[u8], before: usize) -> bool
    requires { before ≤ E.count entries.now }
    ensures { result ≡ is_new E.key_width (E.bodies entries.now) key.now before }
{
    for e in 0..before {
        if entries.has_key(e, key) {
            return false;
        }
    }
    true
}
