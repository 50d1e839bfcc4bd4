// A lent book that is sound: what is read of its used entries.
ghost use Rattle.std.specs.Prelude.{◌≡◌, true};
ghost use Rattle.book.specs.Lent.{sound};
ghost use Rattle.finding.specs.Seen.{seen};

use crate::lent::LentBook;
use crate::seek::{find_line, find_slip, is_sound, open_copies};
use entry::line::Line;
use entry::line_key::LineKey;
use stored::line::StoredLine;

#[derive(Clone, Copy, PartialEq, Eq, Debug)]
pub struct SoundBook<'a> {
    pub lent: LentBook<'a>,
    pub ghost is_sound: { sound (seen lent) ≡ true },
}

impl<'a> SoundBook<'a> {
    ghost use Rattle.std.specs.Prelude.{false, MatchOption, IfSome, ◌+◌, ◌*◌, ◌<◌, ◌≤◌, length};
    ghost use Rattle.entry.specs.Stored.{line_width, slip_width, slip_key_width, most_arrived, line_at, slip_line_at};
    ghost use Rattle.entry.specs.Keyed.{keyed};
    ghost use Rattle.book.specs.Lent.{used_lines, find_line, find_slip, open_copies};

    // A lent book that is sound, or nothing.
    pub fn of(lent: LentBook<'a>) -> Option<Self>
        ensures { MatchOption result (sound (seen lent.entry) ≡ false) (λ b. seen b.lent ≡ seen lent.entry) }
    {
        if !is_sound(lent.lines, lent.slips, lent.used) {
            return None;
        }
        Some(SoundBook { lent })
    }

    // The first of its lines with a key.
    #[tactic(auto, unfolding(book::specs::Lent::find_line), using(crate::proofs::Stands::lines_in))]
    pub fn line_with(self, key: LineKey) -> Option<usize>
        ensures first { result ≡ find_line (seen self.entry.lent) (keyed key.entry) }
        ensures used { IfSome result (λ i. i < used_lines (seen self.entry.lent)) }
    {
        find_line(self.lent.lines, self.lent.used_lines(), key)
    }

    // The first of its slips with a key; it stands in its room, and so does the line that it names.
    #[tactic(auto, unfolding(book::specs::Lent::find_slip), using(crate::proofs::Stands::slips_in, crate::proofs::Stands::slip_stands, crate::proofs::Stands::slip_line_stands))]
    pub fn slip_with(self, key: &[u8]) -> Option<usize>
        requires { length key.now ≡ slip_key_width }
        ensures first { result ≡ find_slip (seen self.entry.lent) key.now }
        ensures stands { IfSome result (λ j. slip_width * j + slip_width ≤ length self.entry.lent.slips.now) }
        ensures names { IfSome result (λ j. line_width * slip_line_at self.entry.lent.slips.now j + line_width ≤ length self.entry.lent.lines.now) }
    {
        find_slip(self.lent.slips, self.lent.used_slips(), key)
    }

    // A used line; no more copies have arrived on it than may.
    #[tactic(auto, using(crate::proofs::Stands::arrived_most))]
    pub fn line(self, i: usize) -> Line
        requires { i < used_lines (seen self.lent) }
        ensures read { result ≡ line_at self.entry.lent.lines.now i }
        ensures few { result.arrived.0 ≤ most_arrived }
    {
        StoredLine {
            lines: self.lent.lines,
            index: i,
        }
        .read()
    }

    // The open copies of a school on all its lines.
    #[tactic(auto, unfolding(book::specs::Lent::open_copies))]
    pub fn open_copies(self, school: &[u8]) -> u64
        ensures { result ≡ open_copies (seen self.entry.lent) school.now }
    {
        open_copies(self.lent.lines, self.lent.used_lines(), school)
    }
}
