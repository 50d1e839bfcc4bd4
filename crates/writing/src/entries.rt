// The entries of a table, judged as fields to be written.
ghost use Rattle.std.specs.Prelude.{◌≡◌, length, ◌-◌, ◌*◌, ◌≤◌, ◌<◌, drop, Ok, Err, MatchOption, MatchResult, None, true, false};
ghost use Rattle.cells.specs.Bytes.{all};
ghost use Rattle.record.specs.Layout.{most_bytes, most_fields};
ghost use Rattle.record.specs.Contents.{content_kept};
ghost use Rattle.record.specs.Read.{entry_width};
ghost use Rattle.writing.specs.Widths.{width_after, capped};
ghost use Rattle.writing.specs.Write.{entry_of, entries, content_in, content_byte, inside, next_id, entry_kept, fields_judged, lent_judged};

use crate::answer::{Refusal, Verdict};
use crate::lent::{InsideFields, LentFields};
use record::contents::{group_kept, is_guarded, rule_kept};
use record::fields::{ENTRY_WIDTH, HEAD_WIDTH, LAST_ID};
use record::layout::{Kind, MOST_BYTES};
use signs::{Class, STAR, all_of, belongs_to};

// An entry of a table: the ID, and where in the lent contents its content stands.
#[derive(Clone, Copy, PartialEq, Eq, Debug)]
pub struct Entry {
    pub id: usize,
    pub place: usize,
    pub width: usize,
}

// Whether each byte may stand in a content: allowed, and no star. A loop, since `iter().all(..)` is slower on bytes.
#[tactic(auto, unfolding(signs::specs::Class::belongs), using(crate::proofs::Contents::content_run))]
pub fn is_content(s: &[u8]) -> bool
    ensures { result ≡ all content_byte s.now }
{
    for b in s {
        if !(belongs_to(Class::Allowed, *b) & (*b != STAR)) {
            return false;
        }
    }
    true
}

// The content of an entry, where it stands inside the lent bytes.
#[tactic(auto, unfolding(crate::specs::Write::inside, crate::specs::Write::content_in), using(std::proofs::lemmas::Bool::Decides::nat_tests))]
fn content_of<'a>(contents: &'a [u8], e: Entry) -> Option<&'a [u8]>
    ensures { MatchOption result (inside contents.now e ≡ false) (λ s. (inside contents.now e ≡ true) × (s.now ≡ content_in contents.now e)) }
{
    contents.get(e.place..e.place.checked_add(e.width)?)
}

// Whether a content is as the table of RULES 2.3 has it.
#[tactic(auto, unfolding(record::specs::Contents::content_kept), using(crate::proofs::Contents::any_barred))]
fn content_kept(k: Kind, id: usize, content: &[u8]) -> bool
    ensures { result ≡ content_kept k id content.now }
{
    if is_guarded(k, id) && !all_of(Class::Unbarred, content) {
        return false;
    }
    rule_kept(id, content)
}

// Whether an entry can be written as a field: an ID below 9999, and a content inside the lent bytes, of bytes that may stand there, as the table has it.
#[tactic(auto, unfolding(crate::specs::Write::entry_kept, crate::specs::Write::writable), using(std::proofs::lemmas::Bool::Decides::nat_tests))]
fn keeps_entry(k: Kind, contents: &[u8], e: Entry) -> bool
    ensures { result ≡ entry_kept k contents.now e }
{
    if LAST_ID <= e.id {
        return false;
    }
    let Some(content) = content_of(contents, e) else {
        return false;
    };
    is_content(content) && content_kept(k, e.id, content)
}

// 8, then 23: so many entries of a table, where a record may have at most so many and the table has them all.
#[tactic(auto, unfolding(crate::specs::Write::lent_judged), using(std::proofs::lemmas::Bool::Decides::nat_tests))]
pub fn lent_fields<'a>(
    most: usize,
    table: &'a [usize],
    count: usize,
    contents: &'a [u8],
) -> Result<LentFields<'a>, Refusal>
    requires { most ≤ most_fields }
    ensures { MatchResult result (λ f. (lent_judged most table.now count ≡ Ok count) × (f.table.now ≡ table.now) × (f.count ≡ count) × (f.contents.now ≡ contents.now)) (λ r. lent_judged most table.now count ≡ Err r) }
{
    if most < count {
        return Err(Refusal::TooManyFields);
    }
    if table.len() < count * ENTRY_WIDTH {
        return Err(Refusal::SmallTable);
    }
    Ok(LentFields {
        table,
        count,
        contents,
    })
}

impl<'a> LentFields<'a> {
    // The entry with an index.
    #[tactic(auto, using(crate::proofs::Tables::entry_from))]
    pub fn entry(self, i: usize) -> Entry
        requires { i < self.count }
        ensures { result ≡ entry_of (drop (i * entry_width) self.entry.table.now) }
    {
        let at = i * ENTRY_WIDTH;
        Entry {
            id: self.table[at],
            place: self.table[at + 1],
            width: self.table[at + 2],
        }
    }

    // The ID that follows: of the entry with an index, or of the last field.
    #[tactic(auto, using(crate::proofs::Tables::next_is, crate::proofs::Tables::next_last))]
    fn next_id(self, i: usize) -> usize
        ensures { result ≡ next_id (entries (self.entry.count - i) (drop (i * entry_width) self.entry.table.now)) }
    {
        if i < self.count {
            return self.table[i * ENTRY_WIDTH];
        }
        LAST_ID
    }

    // 9 and 10 at each field.
    #[tactic(auto, using(crate::proofs::Tables::judged_on))]
    pub fn judge(self, k: Kind) -> Verdict
        ensures { result ≡ fields_judged k self.entry.contents.now None 0 (entries self.entry.count self.entry.table.now) }
    {
        let mut before = None;
        for i in 0..self.count {
            let e = self.entry(i);
            if !keeps_entry(k, self.contents, e) {
                return Err(Refusal::Content(i));
            }
            if !group_kept(before, e.id, self.next_id(i + 1)) {
                return Err(Refusal::Group(i));
            }
            before = Some(e.id);
        }
        Ok(0)
    }

    // How long the record becomes, or one more than the most where it is too long.
    #[tactic(auto, using(crate::proofs::Widths::reckoned))]
    pub fn width(self, fixed: usize) -> usize
        requires { fixed ≤ 108 }
        ensures { result ≡ capped most_bytes (width_after fixed (entries self.entry.count self.entry.table.now)) }
    {
        let mut n = fixed;
        for i in 0..self.count {
            let e = self.entry(i);
            if MOST_BYTES < e.width {
                return MOST_BYTES + 1;
            }
            n += HEAD_WIDTH + e.width;
            if MOST_BYTES < n {
                return MOST_BYTES + 1;
            }
        }
        (n + HEAD_WIDTH).min(MOST_BYTES + 1)
    }
}

impl<'a> InsideFields<'a> {
    // What is lent, whether or not its contents are inside.
    pub fn lent(self) -> LentFields<'a>
        ensures { (result.table.now ≡ self.entry.table.now) × (result.count ≡ self.entry.count) × (result.contents.now ≡ self.entry.contents.now) }
    {
        LentFields {
            table: self.table,
            count: self.count,
            contents: self.contents,
        }
    }

    // The content of the field with an index, as long as its entry says.
    #[tactic(auto, unfolding(crate::specs::Write::content_in), using(crate::proofs::Halves::inside_at))]
    pub fn content(self, i: usize) -> &'a [u8]
        requires { i < self.count }
        ensures content { result.now ≡ content_in self.entry.contents.now (entry_of (drop (i * entry_width) self.entry.table.now)) }
        ensures wide { length result.now ≡ (entry_of (drop (i * entry_width) self.entry.table.now)).width }
    {
        let e = self.lent().entry(i);
        &self.contents[e.place..e.place + e.width]
    }

    // The fields from the one with an index on.
    pub fn skip(self, first: usize) -> InsideFields<'a>
        requires { first ≤ self.count }
        ensures { (result.table.now ≡ drop (first * entry_width) self.entry.table.now) × (result.count ≡ self.entry.count - first) × (result.contents.now ≡ self.entry.contents.now) }
    {
        InsideFields {
            table: &self.table[first * ENTRY_WIDTH..],
            count: self.count - first,
            contents: self.contents,
        }
    }

    // The first n fields.
    pub fn take(self, n: usize) -> InsideFields<'a>
        requires { n ≤ self.count }
        ensures { (result.table.now ≡ self.entry.table.now) × (result.count ≡ n) × (result.contents.now ≡ self.entry.contents.now) }
    {
        InsideFields {
            table: self.table,
            count: n,
            contents: self.contents,
        }
    }
}
