// A record to be written, as a caller lends it: judged, and put into the lent output. The library takes no heap, so all of it stays the caller's slices.
ghost use Rattle.std.specs.Prelude.{◌≡◌, ◌≤◌, length};
ghost use Rattle.record.specs.Layout.{kind_of};
ghost use Rattle.writing.specs.Write.{entries, optional_of, record_text, rest_judged, write_judged, output_after};

use crate::judge_length;
use crate::output::put_record;
use record::layout::{MOST_FIELDS, kind_of};
use writing::answer::{Refusal, Verdict};
use writing::entries::lent_fields;
use writing::fixed::judge_fixed;
use writing::lent::InsideFields;

// The fixed part, and so many entries of a table over contents.
#[derive(Clone, Copy, PartialEq, Eq, Debug)]
pub struct Draft<'a> {
    pub fixed: &'a [u8],
    pub table: &'a [usize],
    pub count: usize,
    pub contents: &'a [u8],
}

impl<'a> Draft<'a> {
    // 8, 23, 9 and 10, 1, 23, of a record whose fixed part keeps its rules.
    #[tactic(auto, unfolding(writing::specs::Write::rest_judged), using(writing::proofs::Fitting::staged))]
    fn judge_rest(self, out: &[u8]) -> Verdict
        requires { length self.fixed.now ≤ 108 }
        ensures { result ≡ rest_judged (kind_of self.entry.fixed.now) self.entry.fixed.now self.entry.table.now self.entry.count self.entry.contents.now out.now }
    {
        let k = kind_of(self.fixed).ok_or(Refusal::FixedField(0))?;
        let fields = lent_fields(MOST_FIELDS, self.table, self.count, self.contents)?;
        fields.judge(k)?;
        judge_length(fields.width(self.fixed.len()), out)
    }

    // The first refusal of writing, or the length of the record.
    #[tactic(auto, unfolding(writing::specs::Write::write_judged), using(writing::proofs::Fitting::fixed_most, writing::proofs::Fitting::staged))]
    pub fn judge(self, out: &[u8]) -> Verdict
        ensures { result ≡ write_judged self.entry.fixed.now self.entry.table.now self.entry.count self.entry.contents.now out.now }
    {
        judge_fixed(self.fixed)?;
        self.judge_rest(out)
    }

    // Judged, and put where nothing is refused.
    #[tactic(auto, unfolding(writing::specs::Write::output_after))]
    pub fn put(self, out: &mut [u8]) -> Verdict
        ensures judged { result ≡ write_judged self.entry.fixed.now self.entry.table.now self.entry.count self.entry.contents.now out.old }
        ensures put { out.new ≡ output_after result (record_text self.entry.fixed.now (optional_of self.entry.contents.now (entries self.entry.count self.entry.table.now))) out.old }
    {
        let length = self.judge(out)?;
        let fields = InsideFields {
            table: self.table,
            count: self.count,
            contents: self.contents,
        };
        put_record(out, self.fixed, fields);
        Ok(length)
    }
}
