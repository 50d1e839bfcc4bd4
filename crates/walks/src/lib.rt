// The optional fields of a record: walked, judged and listed in a table.
#![tactic(auto)]

ghost use Rattle.std.specs.Prelude.{◌≡◌, [], ◌∷◌, ◌++◌, ◌+◌, ◌*◌, ◌≤◌, length, drop, None};
ghost use Rattle.std.proofs.lemmas.List.Edits.{sets};
ghost use Rattle.cells.specs.Bytes.{run};
ghost use Rattle.record.specs.Layout.{most_fields};
ghost use Rattle.record.specs.Fields.{head_of, id_of, not_star, walk, judge, entries_of};
ghost use Rattle.record.specs.Read.{entry_width};

use cells::part;
use record::answer::{Refusal, Verdict};
use record::contents::{group_kept, is_barred, is_guarded, rule_kept};
use record::fields::{ENTRY_WIDTH, HEAD_WIDTH, LAST_ID};
use record::layout::{Kind, MOST_FIELDS};
use rules::number::number_of;
use signs::{Class, STAR, all_of};

// What stands at a place where an optional field should start. With a saturating difference in place of the two tests the compiler no longer sees that there are four digits, and check takes two fifths more instructions.
#[tactic(auto, using(crate::proofs::Heads::heads))]
pub fn head_at(s: &[u8], at: usize) -> Option<usize>
    ensures { result ≡ head_of (drop at s.now) }
{
    if s.len() <= at {
        return None;
    }
    if s.len() - at < HEAD_WIDTH {
        return None;
    }
    if s[at] != STAR {
        return None;
    }
    let digits = part(s, at + 1, at + HEAD_WIDTH);
    if !all_of(Class::Digit, digits) {
        return None;
    }
    Some(number_of(digits) as usize)
}

// The ID of the field at a place; 0 where none stands, as `id_of` has it: the first walk has seen that one does.
#[tactic(auto, unfolding(record::specs::Fields::id_of, record::specs::Fields::id_in))]
pub fn id_at(s: &[u8], at: usize) -> usize
    ensures { result ≡ id_of (drop at s.now) }
{
    head_at(s, at).unwrap_or(0)
}

// The walk that gives 6 to 8 over the fields from a place on (RULES 4.2); a labelled loop, left by label at the first fault, as docs/DECISIONS.md has it.
#[tactic(auto, using(crate::proofs::Walked::walked))]
pub fn walk(s: &[u8], from: usize) -> Verdict
    ensures { result ≡ walk most_fields 0 from (drop from s.now) }
{
    let mut at = from;
    let mut found = Ok(0);
    'fields: for n in 0..MOST_FIELDS + 1 {
        if s.len() <= at {
            found = Err(Refusal::LastField(at));
            break 'fields;
        }
        let Some(id) = head_at(s, at) else {
            found = Err(Refusal::NoField(at));
            break 'fields;
        };
        if id == LAST_ID {
            found = if at + HEAD_WIDTH == s.len() {
                Ok(n)
            } else {
                Err(Refusal::LastField(at))
            };
            break 'fields;
        }
        if n == MOST_FIELDS {
            found = Err(Refusal::TooManyFields(at));
            break 'fields;
        }
        'content: for end in at + HEAD_WIDTH..s.len() {
            if s[end] == STAR {
                at = end;
                continue 'fields;
            }
        }
        found = Err(Refusal::LastField(s.len()));
        break 'fields;
    }
    found
}

// The walk that gives 9, then 10, at each of n fields from a place on; likewise a labelled loop.
#[tactic(auto, using(crate::proofs::Judged::judged_on))]
pub fn judge(k: Kind, n: usize, s: &[u8], from: usize) -> Verdict
    requires { (from ≤ length s.now) × (n ≤ most_fields) }
    ensures { result ≡ judge k n None from (drop from s.now) }
{
    let mut at = from;
    let mut id = id_at(s, from);
    let mut before = None;
    let mut found = Ok(0);
    'fields: for i in 0..n {
        let guard = is_guarded(k, id);
        let start = at + HEAD_WIDTH;
        let mut end = s.len().max(start);
        'content: for place in start..s.len() {
            if s[place] == STAR {
                end = place;
                break 'content;
            }
            if is_barred(guard, s[place]) {
                found = Err(Refusal::Content(at));
                break 'fields;
            }
        }
        if !rule_kept(id, part(s, start, end)) {
            found = Err(Refusal::Content(at));
            break 'fields;
        }
        let after = id_at(s, end);
        if !group_kept(before, id, after) {
            found = Err(Refusal::Group(at));
            break 'fields;
        }
        before = Some(id);
        id = after;
        at = end;
    }
    found
}

// How long the content is that starts at a place.
// A chain of `position` or `take_while` was tried: its proof does not close at our word for the content.
#[tactic(auto, using(crate::proofs::Contents::width_on))]
fn content_width(s: &[u8], start: usize) -> usize
    ensures { result ≡ run not_star (drop start s.now) }
{
    let rest = part(s, start, s.len());
    for (i, b) in rest.iter().enumerate() {
        if *b == STAR {
            return i;
        }
    }
    rest.len()
}

// Three numbers into a table.
fn put_entry(table: &mut [usize], at: usize, id: usize, place: usize, width: usize)
    requires { at + entry_width ≤ length table.old }
    ensures { table.new ≡ sets table.old at (id ∷ place ∷ width ∷ []) }
{
    table[at] = id;
    table[at + 1] = place;
    table[at + 2] = width;
}

// The first n fields from a place on, into a table.
#[tactic(auto, using(crate::proofs::Tables::stored))]
pub fn fill(s: &[u8], from: usize, n: usize, table: &mut [usize])
    requires { (from ≤ length s.now) × (n * entry_width ≤ length table.old) × (n ≤ most_fields) }
    ensures { table.new ≡ entries_of n from (drop from s.now) ++ drop (n * entry_width) table.old }
{
    let mut at = from;
    for i in 0..n {
        let id = id_at(s, at);
        let start = at + HEAD_WIDTH;
        let width = content_width(s, start);
        put_entry(table, i * ENTRY_WIDTH, id, start, width);
        at = start + width;
    }
}
