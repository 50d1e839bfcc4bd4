// A record whose fields are those of a table and then those of parts, judged over all of them and written.
ghost use Rattle.std.specs.Prelude.{◌≡◌, ◌++◌, ◌+◌, ◌*◌, ◌≤◌, length};
ghost use Rattle.std.proofs.lemmas.List.Edits.{sets};
ghost use Rattle.record.specs.Layout.{most_bytes};
ghost use Rattle.writing.specs.Widths.{width_after};
ghost use Rattle.writing.specs.Write.{entries, optional_of, record_text, outcome, output_after, length_judged};
ghost use Rattle.parts.specs.Loops.{loop_fields};
ghost use Rattle.parts.specs.Fields.{lent_fields};
ghost use Rattle.parts.specs.Write.{write_with};
ghost use Rattle.lent_parts.specs.Faults.{first_fault, fields_text};
ghost use Rattle.packing.specs.Judged.{rest_with, judged_with};

use crate::draft::Draft;
use cells::paste_at;
use faults::{first_fault, loops_width};
use lent_parts::entries::LentParts;
use parts::loops::LOOP_FIELDS;
use putting::put_loops;
use record::fields::HEAD_WIDTH;
use record::layout::{Kind, MOST_BYTES, MOST_FIELDS, kind_of};
use writer::judge_length;
use writer::output::put_record;
use writing::answer::{Refusal, Verdict, Written};
use writing::entries::lent_fields;
use writing::fixed::judge_fixed;
use writing::lent::{InsideFields, LentFields};

// 1, then 23, of a record with a fixed part of a width, whose fields are those of a table and then those of lent parts.
#[tactic(auto, using(crate::proofs::Stored::whole_long, crate::proofs::Stored::capped_within, crate::proofs::Short::lent_short))]
fn judge_whole(width: usize, fields: LentFields, parts: LentParts, out: &[u8]) -> Verdict
    requires { width ≤ 108 }
    ensures { result ≡ length_judged (width_after width (entries fields.entry.count fields.entry.table.now) + length (fields_text (lent_fields parts.entry.count parts.entry.room.now 0))) out.now }
{
    let body = fields.width(width);
    if MOST_BYTES < body {
        return Err(Refusal::TooLong);
    }
    judge_length(body + loops_width(parts), out)
}

// The whole record from the front of the output on: the parts' fields stand where the table's would end.
#[tactic(auto, using(crate::proofs::Stored::all_stored, crate::proofs::Stored::least_wide, crate::proofs::Stored::capped_short))]
fn put_with(out: &mut [u8], fixed: &[u8], fields: InsideFields, parts: LentParts)
    requires { (length fixed.now ≤ 108) × (first_fault (lent_fields parts.count parts.room.now 0) ≡ parts.count * loop_fields) × (width_after (length fixed.now) (entries fields.count fields.table.now) + length (fields_text (lent_fields parts.count parts.room.now 0)) ≤ most_bytes) × (width_after (length fixed.now) (entries fields.count fields.table.now) + length (fields_text (lent_fields parts.count parts.room.now 0)) ≤ length out.old) }
    ensures { out.new ≡ sets out.old 0 (record_text fixed.now (optional_of fields.entry.contents.now (entries fields.entry.count fields.entry.table.now) ++ lent_fields parts.entry.count parts.entry.room.now 0)) }
{
    put_record(out, fixed, fields);
    let at = fields.lent().width(fixed.len()) - HEAD_WIDTH;
    let end = put_loops(out, at, parts);
    paste_at(out, end, b"*9999");
}

impl<'a> Draft<'a> {
    // 8, 23, 9 and 10, 1, 23 over all fields, of a record whose fixed part keeps its rules.
    #[tactic(auto, using(crate::proofs::Rest::with_staged))]
    fn judge_rest(self, k: Kind, out: &[u8]) -> Verdict
        requires { length self.fixed.now ≤ 108 }
        ensures { result ≡ rest_with (lent_fields self.entry.parts.count self.entry.parts.room.now 0) k self.entry.fixed.now self.entry.table.now self.entry.count self.entry.contents.now out.now }
    {
        let more = self.parts.count * LOOP_FIELDS;
        let fields = lent_fields(MOST_FIELDS - more, self.table, self.count, self.contents)?;
        fields.judge(k)?;
        if let Some(i) = first_fault(self.parts) {
            return Err(Refusal::Content(self.count + i));
        }
        judge_whole(self.fixed.len(), fields, self.parts, out)
    }

    // The first refusal of writing the table's fields and then the parts', or the length of the record.
    #[tactic(auto, unfolding(writing::specs::Write::rest_judged, crate::specs::Judged::rest_with), using(writing::proofs::Fitting::fixed_most, crate::proofs::Rest::with_kind, writing::proofs::Fitting::staged))]
    fn judge(self, out: &[u8]) -> Verdict
        ensures { result ≡ judged_with (lent_fields self.entry.parts.count self.entry.parts.room.now 0) self.entry.fixed.now self.entry.table.now self.entry.count self.entry.contents.now out.now }
    {
        judge_fixed(self.fixed)?;
        let k = kind_of(self.fixed).ok_or(Refusal::FixedField(0))?;
        self.judge_rest(k, out)
    }

    // The record judged, and put where nothing is refused.
    #[tactic(auto, unfolding(writing::specs::Write::output_after))]
    fn put_judged(self, out: &mut [u8]) -> Verdict
        ensures judged { result ≡ judged_with (lent_fields self.entry.parts.count self.entry.parts.room.now 0) self.entry.fixed.now self.entry.table.now self.entry.count self.entry.contents.now out.old }
        ensures put { out.new ≡ output_after result (record_text self.entry.fixed.now (optional_of self.entry.contents.now (entries self.entry.count self.entry.table.now) ++ lent_fields self.entry.parts.count self.entry.parts.room.now 0)) out.old }
    {
        let length = self.judge(out)?;
        let fields = InsideFields {
            table: self.table,
            count: self.count,
            contents: self.contents,
        };
        put_with(out, self.fixed, fields, self.parts);
        Ok(length)
    }

    // Writes the table's fields and then the parts', or refuses and changes nothing.
    #[tactic(auto, using(crate::proofs::Rest::with_written))]
    pub fn write(self, out: &mut [u8]) -> Written
        ensures { outcome result out.new ≡ write_with (lent_fields self.entry.parts.count self.entry.parts.room.now 0) self.entry.fixed.now self.entry.table.now self.entry.count self.entry.contents.now out.old }
    {
        self.put_judged(out).into()
    }
}
