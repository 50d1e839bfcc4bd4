// Bytes judged as a save of a form. Repeated keys and sums are found by scanning the save.
#![tactic(auto)]

pub mod keyed;

ghost use Rattle.std.specs.Prelude.{◌≡◌, true, false, ◌+◌, ◌*◌, ◌≤◌, ◌<◌, length, MatchOption};
ghost use Rattle.rules.specs.Values.{copies};
ghost use Rattle.save.specs.Entries.{copies_on, arrived_on, lines_kept, slips_kept, sums_kept};
ghost use Rattle.save.specs.Saved.{line_in, slip_in, all_of_kind, in_form, is_save_of, form_in};

use crate::keyed::{Keyed, is_new};
use cells::little::get;
use kept::lines::KeptLines;
use kept::{is_line_kept, is_slip_kept};
use rules::amount::Copies;
use save::form::{Form, KIND_BYTE};
use save::lines::Lines;
use save::slips::{SAVED_SLIP_WIDTH, Slips};
use save::valid::ValidSave;
use stored::MOST_ARRIVED;

// The end: a byte of kind, then the used lines and the used slips.
const COUNT_WIDTH: usize = 2;

pub const END_WIDTH: usize = KIND_BYTE + COUNT_WIDTH + COUNT_WIDTH;

// How far before the end of a save its counts stand.
pub const LINES_BACK: usize = COUNT_WIDTH + COUNT_WIDTH;

pub const SLIPS_BACK: usize = COUNT_WIDTH;

pub const SLIP_KIND: u8 = 2;

pub const END_KIND: u8 = 0;

// The copies of a slip where it names the line at i, else none.
#[tactic(auto, unfolding(save::specs::Entries::copies_on))]
fn copies_on(slips: Slips, j: usize, i: usize) -> Copies
    requires { j < slips.count }
    ensures { (result ≡ copies (copies_on (slip_in slips.entry.bytes.now slips.entry.at) i j)) × (result.0 < 65536) }
{
    let slip = slips.body(j);
    if slip.line() == i {
        return Copies(slip.copies());
    }
    Copies(0)
}

// A of the line at i: the sum of the slips that name it.
#[tactic(auto, unfolding(save::specs::Entries::arrived_on), using(save::proofs::Walked::summed))]
pub fn arrived_on(slips: Slips, i: usize) -> Copies
    requires { slips.count < 65536 }
    ensures { result ≡ copies (arrived_on (slip_in slips.entry.bytes.now slips.entry.at) slips.entry.count i) }
{
    let mut sum: u64 = 0;
    for j in 0..slips.count {
        sum += copies_on(slips, j, i).0;
    }
    Copies(sum)
}

// Lines that keep the rules, each with a key of its own; or nothing.
#[tactic(auto, unfolding(save::specs::Entries::lines_kept, save::specs::Saved::line_in), using(save::proofs::Walked::walked, save::proofs::Firsts::first_new))]
fn kept_lines<'a>(lines: Lines<'a>) -> Option<KeptLines<'a>>
    ensures { MatchOption result (lines_kept lines.entry.count (line_in lines.entry.form lines.entry.bytes.now) ≡ false) (λ k. k.lines ≡ lines.entry) }
{
    for i in 0..lines.count {
        if !(is_line_kept(lines.body(i)) & is_new(&lines, lines.key(i), i)) {
            return None;
        }
    }
    Some(KeptLines { lines })
}

// Whether the slips keep the rules by the lines, each with a key of its own. A loop beside that of the lines and that of the sums, since each asks something else of its entry.
#[tactic(auto, unfolding(save::specs::Entries::slips_kept), using(save::proofs::Walked::walked, save::proofs::Firsts::first_new))]
fn are_slips_kept(kept: KeptLines, slips: Slips) -> bool
    ensures { result ≡ slips_kept kept.entry.lines.count slips.entry.count (line_in kept.entry.lines.form kept.entry.lines.bytes.now) (slip_in slips.entry.bytes.now slips.entry.at) }
{
    for j in 0..slips.count {
        if !(is_slip_kept(kept, slips.body(j)) & is_new(&slips, slips.key(j), j)) {
            return false;
        }
    }
    true
}

// Whether the sum of none of the lines, so many of them, is over the limit.
#[tactic(auto, unfolding(save::specs::Entries::sums_kept), using(save::proofs::Walked::walked))]
fn are_sums_kept(slips: Slips, lines: usize) -> bool
    requires { slips.count < 65536 }
    ensures { result ≡ sums_kept lines slips.entry.count (slip_in slips.entry.bytes.now slips.entry.at) }
{
    for i in 0..lines {
        if MOST_ARRIVED < arrived_on(slips, i).0 {
            return false;
        }
    }
    true
}

// Whether each of the entries of a width, from a place on, begins with a kind.
#[tactic(auto, unfolding(save::specs::Saved::all_of_kind), using(save::proofs::Walked::walked, save::proofs::Bodies::entry_before))]
fn are_of_kind(kind: u8, width: usize, from: usize, count: usize, s: &[u8]) -> bool
    requires { (from + width * count ≤ length s.now) × (0 < width) }
    ensures { result ≡ all_of_kind kind width from count s.now }
{
    for i in 0..count {
        if s[from + width * i] != kind {
            return false;
        }
    }
    true
}

// Whether bytes are n lines of a form, m slips and the end, and nothing else.
#[tactic(auto, unfolding(save::specs::Saved::in_form, save::specs::Saved::saved_width, save::specs::Form::slips_at), using(save::proofs::Bodies::slips_most, save::proofs::Bodies::entry_wide))]
fn is_in_form(s: &[u8], form: Form, n: usize, m: usize) -> bool
    requires { (n < 65536) × (m < 65536) }
    ensures { result ≡ in_form form n m s.now }
{
    let at = form.slips_at(n);
    let end_at = at + SAVED_SLIP_WIDTH * m;
    if s.len() != end_at + END_WIDTH {
        return false;
    }
    if !are_of_kind(form.line_kind(), form.line_width(), 0, n, s) {
        return false;
    }
    if !are_of_kind(SLIP_KIND, SAVED_SLIP_WIDTH, at, m, s) {
        return false;
    }
    s[end_at] == END_KIND
}

// Bytes as a valid save of a form, where they are exactly one.
#[tactic(auto, unfolding(save::specs::Saved::is_save_of, save::specs::Saved::stated_lines, save::specs::Saved::stated_slips, save::specs::Entries::entries_kept), using(save::proofs::Forms::form_long))]
pub fn valid_save(s: &[u8], form: Form) -> Option<ValidSave<'_>>
    ensures { MatchOption result (is_save_of form s.now ≡ false) (λ v. (v.bytes.now ≡ s.now) × (v.form ≡ form)) }
{
    if s.len() < END_WIDTH {
        return None;
    }
    let n = get::<2>(s, s.len() - LINES_BACK) as usize;
    let m = get::<2>(s, s.len() - SLIPS_BACK) as usize;
    if !is_in_form(s, form, n, m) {
        return None;
    }
    let lines = Lines {
        bytes: s,
        form,
        count: n,
    };
    let kept = kept_lines(lines)?;
    let slips = Slips {
        bytes: s,
        at: form.slips_at(n),
        count: m,
    };
    if !are_slips_kept(kept, slips) {
        return None;
    }
    if !are_sums_kept(slips, n) {
        return None;
    }
    Some(ValidSave {
        bytes: s,
        form,
        line_count: n,
        slip_count: m,
    })
}

// Whether bytes are exactly a valid save of a form.
pub fn is_save_of(s: &[u8], form: Form) -> bool
    ensures { result ≡ is_save_of form s.now }
{
    valid_save(s, form).is_some()
}

// The form by which a save is taken: the old one where its first entry is a line of that, else the new one.
#[tactic(auto, unfolding(save::specs::Saved::form_in))]
pub fn form_in(s: &[u8]) -> Form
    ensures { result ≡ form_in s.now }
{
    let first = s.first().copied().unwrap_or(0);
    if first == Form::Old.line_kind() {
        return Form::Old;
    }
    Form::New
}
