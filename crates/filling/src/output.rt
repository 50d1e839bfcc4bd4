// The entries of a save, put into the lent output.
ghost use Rattle.std.specs.Prelude.{◌≡◌, ◌∷◌, ◌+◌, ◌*◌, ◌≤◌, length};
ghost use Rattle.std.proofs.lemmas.List.Edits.{sets};
ghost use Rattle.entry.specs.Stored.{line_width, slip_width};
ghost use Rattle.save.specs.Form.{slips_at};
ghost use Rattle.save.specs.Saved.{saved_slip_width, end_width, line_front_at, slip_body_at, line_entries, slip_entries, end_entry};
ghost use Rattle.save.specs.declared.form.Form.TheVariants.{New};

use crate::used::UsedLines;
use cells::little::put;
use cells::paste_at;
use save::form::Form;
use save::slips::SAVED_SLIP_WIDTH;
use saved::{END_KIND, SLIP_KIND};
use stored::SLIP_WIDTH;

// An entry: a byte of kind, then a body.
fn put_entry(out: &mut [u8], at: usize, kind: u8, body: &[u8])
    requires { at + 1 + length body.now ≤ length out.old }
    ensures { out.new ≡ sets out.old at (kind ∷ body.now) }
{
    out[at] = kind;
    paste_at(out, at + 1, body);
}

// The used lines, from the front on, in the new form.
pub fn put_lines(out: &mut [u8], lines: UsedLines)
    requires { slips_at New lines.count ≤ length out.old }
    ensures { out.new ≡ sets out.old 0 (line_entries New (line_front_at lines.entry.bytes.now) lines.entry.count) }
{
    fronts::lines::put_lines(out, Form::New, &lines, lines.count);
}

// The used slips, from a place on: a byte of kind, then the slip; without that byte they are taken back (`take_slips`), so the two are no one function.
#[tactic(auto, unfolding(save::specs::Saved::slip_entries, save::specs::Saved::slip_body_at), using(save::proofs::Joined::joined_behind, save::proofs::Joined::joined_end, crate::proofs::Entries::slip_entry_long, cells::proofs::Parts::part_is))]
pub fn put_slips(out: &mut [u8], start: usize, slips: &[u8], m: usize)
    requires { (slip_width * m ≤ length slips.now) × (start + saved_slip_width * m ≤ length out.old) }
    ensures { out.new ≡ sets out.old start (slip_entries (slip_body_at slips.now) m) }
{
    for j in 0..m {
        let from = SLIP_WIDTH * j;
        put_entry(
            out,
            start + SAVED_SLIP_WIDTH * j,
            SLIP_KIND,
            &slips[from..from + SLIP_WIDTH],
        );
    }
}

// The end: a byte of kind, then the used counts.
#[tactic(auto, using(crate::proofs::Entries::end_stored))]
pub fn put_end(out: &mut [u8], at: usize, n: usize, m: usize)
    requires { at + end_width ≤ length out.old }
    ensures { out.new ≡ sets out.old at (end_entry n m) }
{
    out[at] = END_KIND;
    put::<2>(out, at + 1, n as u64);
    put::<2>(out, at + 3, m as u64);
}
