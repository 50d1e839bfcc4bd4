// Searches and tests over the used entries of a lent book.
ghost use Rattle.std.specs.Prelude.{◌≡◌, true, ◌*◌, ◌≤◌, ◌<◌, length};
ghost use Rattle.cells.specs.Search.{first_from, all_from, sum_from};
ghost use Rattle.entry.specs.Stored.{line_width, slip_width, slip_key_width, key_is, slip_is, open_at, line_sound, slip_sound};
ghost use Rattle.entry.specs.Keyed.{keyed};
ghost use Rattle.book.specs.Lent.{most_lines, lent, room_sound, sound};

use crate::keyed::key_is;
use cells::little::get;
use entry::key::{REFERENCE_TELLS, SCHOOL_TELLS};
use entry::line_key::LineKey;
use stored::line::StoredLine;
use stored::slip::StoredSlip;
use stored::{KEY_TELLS, LINE_WIDTH, SLIP_KEY_TELLS, SLIP_WIDTH};

pub const MOST_LINES: usize = 512;

pub const MOST_SLIPS: usize = 1024;

// The first of the used lines with a key. Reference and school, which tell most keys apart, are looked at by eight bytes each; the whole key is compared only where both are there.
// A loop and no `position`: over entries of 66 bytes a chain took a fifth more instructions.
#[tactic(auto, using(crate::proofs::Walked::lines_sought))]
pub fn find_line(lines: &[u8], count: usize, key: LineKey) -> Option<usize>
    requires { line_width * count ≤ length lines.now }
    ensures { result ≡ first_from (key_is lines.now (keyed key.entry)) count 0 }
{
    let school = get::<8>(key.school, SCHOOL_TELLS);
    let reference = get::<8>(key.reference, REFERENCE_TELLS);
    for i in 0..count {
        if get::<8>(lines, LINE_WIDTH * i + KEY_TELLS) != reference {
            continue;
        }
        if get::<8>(lines, LINE_WIDTH * i + SCHOOL_TELLS) != school {
            continue;
        }
        if key_is(StoredLine { lines, index: i }, key) {
            return Some(i);
        }
    }
    None
}

// The first of the used slips with a key: the end of the slip number and the position are looked at first.
#[tactic(auto, using(crate::proofs::Walked::slips_sought))]
pub fn find_slip(slips: &[u8], count: usize, key: &[u8]) -> Option<usize>
    requires { (slip_width * count ≤ length slips.now) × (length key.now ≡ slip_key_width) }
    ensures { result ≡ first_from (slip_is slips.now key.now) count 0 }
{
    let told = get::<8>(key, SLIP_KEY_TELLS);
    for j in 0..count {
        if get::<8>(slips, SLIP_WIDTH * j + SLIP_KEY_TELLS) != told {
            continue;
        }
        if (StoredSlip { slips, index: j }).key_is(key) {
            return Some(j);
        }
    }
    None
}

// The open copies of a school on all used lines.
#[tactic(auto, using(crate::proofs::Walked::summed))]
pub fn open_copies(lines: &[u8], count: usize, school: &[u8]) -> u64
    requires { (line_width * count ≤ length lines.now) × (count ≤ most_lines) × (all_from (line_sound lines.now) count 0 ≡ true) }
    ensures { result ≡ sum_from (open_at lines.now school.now) count 0 }
{
    let mut sum: u64 = 0;
    for i in 0..count {
        sum += StoredLine { lines, index: i }.open_copies(school);
    }
    sum
}

#[tactic(auto, using(crate::proofs::Walked::walked))]
fn are_lines_sound(lines: &[u8], count: usize) -> bool
    requires { line_width * count ≤ length lines.now }
    ensures { result ≡ all_from (line_sound lines.now) count 0 }
{
    for i in 0..count {
        if !(StoredLine { lines, index: i }).is_sound() {
            return false;
        }
    }
    true
}

#[tactic(auto, unfolding(entry::specs::Stored::slip_sound), using(crate::proofs::Walked::walked))]
fn are_slips_sound(slips: &[u8], count: usize, lines: usize) -> bool
    requires { slip_width * count ≤ length slips.now }
    ensures { result ≡ all_from (slip_sound lines slips.now) count 0 }
{
    for j in 0..count {
        if lines <= (StoredSlip { slips, index: j }).line() {
            return false;
        }
    }
    true
}

// Whether so many bytes are room for 1 to `most` entries of a width, and nothing more.
#[tactic(auto, unfolding(book::specs::Lent::room_sound))]
pub fn is_room(width: usize, most: usize, n: usize) -> bool
    requires { 0 < width }
    ensures { result ≡ room_sound width most n }
{
    (n % width == 0) & ((1 <= n / width) & (n / width <= most))
}

// Whether a lent book is sound. Lines and slips are judged by loops of their own, since each kind of entry has its own rule.
#[tactic(auto, unfolding(book::specs::Lent::sound, book::specs::Lent::rooms_sound, book::specs::Lent::used_lines, book::specs::Lent::used_slips, book::specs::Lent::line_room, book::specs::Lent::slip_room))]
pub fn is_sound(lines: &[u8], slips: &[u8], used: &[usize; 2]) -> bool
    ensures { result ≡ sound (lent lines.now slips.now used.now) }
{
    if !(is_room(LINE_WIDTH, MOST_LINES, lines.len())
        & is_room(SLIP_WIDTH, MOST_SLIPS, slips.len()))
    {
        return false;
    }
    let used_lines = used[0];
    let used_slips = used[1];
    if lines.len() / LINE_WIDTH < used_lines {
        return false;
    }
    if slips.len() / SLIP_WIDTH < used_slips {
        return false;
    }
    are_lines_sound(lines, used_lines) && are_slips_sound(slips, used_slips, used_lines)
}
