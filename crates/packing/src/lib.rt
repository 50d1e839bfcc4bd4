// Writing a record with parts: the public call, over what writing is lent and a room with parts.
#![tactic(auto)]

pub mod draft;
pub mod whole;

ghost use Rattle.std.specs.Prelude.{◌≡◌};
ghost use Rattle.writing.specs.Write.{outcome};
ghost use Rattle.parts.specs.Write.{entries_there, has_loop, is_misplaced, write_parts};

use crate::draft::Draft;
use faults::are_lent_loops;
use lent_parts::entries::LentParts;
use parts::answer::Refusal;
use parts::entry::PART_WIDTH;
use parts::loops::{MOST_PARTS, is_bundle, others_among};
use record::fields::ENTRY_WIDTH;
use writing::answer::Written;

// How many entries of a table are there, of so many.
#[tactic(auto, unfolding(parts::specs::Write::entries_there))]
fn entries_there(table: &[usize], count: usize) -> usize
    ensures { result ≡ entries_there count table.now }
{
    count.min(table.len() / ENTRY_WIDTH)
}

// Whether an entry of the table begins a loop.
#[tactic(auto, unfolding(parts::specs::Write::has_loop, parts::specs::Write::entries_there))]
fn has_loop(table: &[usize], count: usize) -> bool
    ensures { result ≡ has_loop table.now count }
{
    let there = entries_there(table, count);
    others_among(table, there) < there
}

// 26: parts and no bundle; a bundle and no parts, or a loop begun in the table.
#[tactic(auto, unfolding(parts::specs::Write::is_misplaced))]
fn is_misplaced(fixed: &[u8], table: &[usize], fields: usize, n: usize) -> bool
    ensures { result ≡ is_misplaced fixed.now table.now fields n }
{
    if !is_bundle(fixed) {
        return 0 < n;
    }
    if n == 0 {
        return true;
    }
    has_loop(table, fields)
}

// Writes a record with n parts at the front of the output, or refuses and changes nothing. What it takes stays apart, as C lends it.
#[tactic(auto, using(parts::proofs::Stages::staged))]
pub fn write_parts<'a>(
    fixed: &'a [u8],
    table: &'a [usize],
    fields: usize,
    contents: &'a [u8],
    room: &'a [u8],
    n: usize,
    out: &mut [u8],
) -> Written
    ensures { outcome result out.new ≡ write_parts fixed.now table.now fields contents.now room.now n out.old }
{
    if MOST_PARTS < n {
        return Refusal::TooMany.into();
    }
    if room.len() < n * PART_WIDTH {
        return Refusal::SmallRoom.into();
    }
    if is_misplaced(fixed, table, fields, n) {
        return Refusal::Broken.into();
    }
    let parts = LentParts { room, count: n };
    if !are_lent_loops(parts) {
        return Refusal::Broken.into();
    }
    let draft = Draft {
        fixed,
        table,
        count: fields,
        contents,
        parts,
    };
    draft.write(out)
}
