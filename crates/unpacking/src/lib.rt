// Reading the parts of a bundle: the public call, over a record and a lent room.
#![tactic(auto)]

pub mod entry;
pub mod fields;

ghost use Rattle.std.specs.Prelude.{◌≡◌, ◌++◌, ◌*◌, ◌≤◌, length, drop, Ok, Err, MatchResult};
ghost use Rattle.parts.specs.Loops.{loops_of, most_parts};
ghost use Rattle.parts.specs.Named.{fields_of};
ghost use Rattle.parts.specs.Part.{part_width, parts_of, room_of};
ghost use Rattle.parts.specs.Read.{loops_judged, room_after, outcome, read_parts};

use crate::entry::put_part;
use crate::fields::part_of;
use parts::answer::{PartsRead, Refusal, Verdict};
use parts::entry::PART_WIDTH;
use parts::loops::{LOOP_FIELDS, MOST_PARTS, is_bundle, others_among};
use parts::table::Loops;
use reader::check;
use record::fields::ENTRY_WIDTH;
use record::layout::MOST_FIELDS;
use writing::lent::InsideFields;

// The numbers of a table with room for every record.
pub const FULL_TABLE: usize = MOST_FIELDS * ENTRY_WIDTH;

// 26, then 27: the loops that fields are from the first on that a loop may begin with.
#[tactic(auto, using(crate::proofs::Judged::loops_staged))]
fn judge_loops<'a>(fields: InsideFields<'a>) -> Result<Loops<'a>, Refusal>
    ensures { MatchResult result (λ l. (loops_judged (loops_of (fields_of fields.entry)) ≡ Ok l.count) × (l.count ≤ most_parts) × (fields_of l.fields ≡ loops_of (fields_of fields.entry))) (λ r. loops_judged (loops_of (fields_of fields.entry)) ≡ Err r) }
{
    let first = others_among(fields.table, fields.count);
    let left = fields.count - first;
    if left == 0 {
        return Err(Refusal::Broken);
    }
    if left % LOOP_FIELDS != 0 {
        return Err(Refusal::Broken);
    }
    let n = left / LOOP_FIELDS;
    let loops = Loops {
        fields: fields.skip(first),
        count: n,
    };
    if !loops.are_loops() {
        return Err(Refusal::Broken);
    }
    if MOST_PARTS < n {
        return Err(Refusal::TooMany);
    }
    Ok(loops)
}

// The parts of loops, into the room.
#[tactic(auto, using(crate::proofs::Rooms::rooms_filled))]
fn fill(loops: Loops, room: &mut [u8])
    requires { loops.count * part_width ≤ length room.old }
    ensures { room.new ≡ room_of (parts_of loops.entry.count (fields_of loops.entry.fields)) ++ drop (loops.entry.count * part_width) room.old }
{
    for j in 0..loops.count {
        let p = part_of(loops.nth(j));
        put_part(room, j * PART_WIDTH, p);
    }
}

// The number of parts of a bundle with these fields, which stand in the room; a refusal leaves the room as it was.
#[tactic(auto, unfolding(parts::specs::Read::room_after))]
fn take_parts(fields: InsideFields, room: &mut [u8]) -> Verdict
    requires { most_parts * part_width ≤ length room.old }
    ensures { (result ≡ loops_judged (loops_of (fields_of fields.entry))) × (room.new ≡ room_after result (fields_of fields.entry) room.old) }
{
    let loops = judge_loops(fields)?;
    fill(loops, room);
    Ok(loops.count)
}

// The answer, its place and the number of parts, which stand in the room; a refusal leaves the room as it was.
#[tactic(auto, using(crate::proofs::Bundles::small_room))]
pub fn read_parts(s: &[u8], room: &mut [u8]) -> PartsRead
    ensures { outcome result room.new ≡ read_parts s.now room.old }
{
    if room.len() < MOST_PARTS * PART_WIDTH {
        return PartsRead::from(Err(Refusal::SmallRoom));
    }
    let mut table = [0; FULL_TABLE];
    let checked = check(s, &mut table);
    if checked.answer != 0 {
        return PartsRead {
            answer: checked.answer,
            place: checked.place,
            parts: 0,
        };
    }
    if !is_bundle(s) {
        return PartsRead::from(Ok(0));
    }
    let fields = InsideFields {
        table: &table,
        count: checked.fields,
        contents: s,
    };
    take_parts(fields, room).into()
}
