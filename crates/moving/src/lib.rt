// The public calls that move a save from the old form to the new one and back.
#![tactic(auto)]

ghost use Rattle.std.specs.Prelude.{◌≡◌, ◌+◌, ◌≤◌, length};
ghost use Rattle.std.proofs.lemmas.List.Edits.{sets};
ghost use Rattle.save.specs.Form.{slips_at};
ghost use Rattle.save.specs.Saved.{written, saved_of};
ghost use Rattle.save.specs.Moves.{moved, moved_into, to_new, none_numbered, to_old};
ghost use Rattle.save.specs.declared.form.Form.TheVariants.{New};

use cells::little::get;
use cells::paste_at;
use entry::report::MOST_MESSAGE;
use fronts::lines::put_lines;
use save::answer::{Refused, Saved};
use save::form::Form;
use save::slips::SAVED_SLIP_WIDTH;
use save::valid::ValidSave;
use saved::{END_WIDTH, valid_save};
use stored::MESSAGE_AT;

// A save told in a form: its lines, then its slips and its end as they stand.
#[tactic(auto, using(crate::proofs::Laws::moved_stored, cells::proofs::Parts::part_is, cells::proofs::Parts::to_end))]
fn put_moved(out: &mut [u8], save: ValidSave, to: Form)
    requires { slips_at to save.line_count + length save.bytes.now ≤ length out.old + slips_at save.form save.line_count }
    ensures { out.new ≡ sets out.old 0 (moved save.entry.form to save.entry.bytes.now) }
{
    let at = save.form.slips_at(save.line_count);
    put_lines(out, to, &save.lines(), save.line_count);
    paste_at(out, to.slips_at(save.line_count), &save.bytes[at..]);
}

// Moves a save to a form, at the front of the output, and gives its length there: 23.
#[tactic(auto, unfolding(save::specs::Moves::moved_into, save::specs::Moves::moved_width, save::specs::Saved::saved_width, save::specs::Saved::saved_of), using(save::proofs::Bodies::slips_most, save::proofs::Walked::walked))]
fn move_into(save: ValidSave, to: Form, out: &mut [u8]) -> Result<usize, Refused>
    ensures { written (saved_of result) out.new ≡ moved_into save.entry.form to save.entry.bytes.now out.old }
{
    let length = to.slips_at(save.line_count) + SAVED_SLIP_WIDTH * save.slip_count + END_WIDTH;
    if out.len() < length {
        return Err(Refused::TooSmall);
    }
    put_moved(out, save, to);
    Ok(length)
}

// Whether no line of a save of the new form has a number as its message.
#[tactic(auto, unfolding(save::specs::Moves::none_numbered, save::specs::Moves::is_numbered, save::specs::Saved::line_in, save::specs::Form::front_of, save::specs::Form::line_body_width), using(save::proofs::Walked::walked))]
fn is_none_numbered(save: ValidSave) -> bool
    requires { save.form ≡ New }
    ensures { result ≡ none_numbered save.entry.bytes.now }
{
    let lines = save.lines();
    for i in 0..save.line_count {
        if get::<2>(lines.body(i).bytes, MESSAGE_AT) <= MOST_MESSAGE {
            return false;
        }
    }
    true
}

// A save of the old form, moved to the new one.
#[tactic(auto, unfolding(save::specs::Moves::to_new, save::specs::Saved::saved_of))]
fn moved_to_new(saved: &[u8], out: &mut [u8]) -> Result<usize, Refused>
    ensures { written (saved_of result) out.new ≡ to_new saved.now out.old }
{
    let save = valid_save(saved, Form::Old).ok_or(Refused::NoSave)?;
    move_into(save, Form::New, out)
}

// A save of the new form, moved back to the old one, where no message would be lost.
#[tactic(auto, unfolding(save::specs::Moves::to_old, save::specs::Saved::saved_of))]
fn moved_to_old(saved: &[u8], out: &mut [u8]) -> Result<usize, Refused>
    ensures { written (saved_of result) out.new ≡ to_old saved.now out.old }
{
    let save = valid_save(saved, Form::New).ok_or(Refused::NoSave)?;
    if !is_none_numbered(save) {
        return Err(Refused::MessageLost);
    }
    move_into(save, Form::Old, out)
}

// Moves a save of the old form to the new one: 22, 23. A refusal changes nothing.
pub fn to_new(saved: &[u8], out: &mut [u8]) -> Saved
    ensures { written result out.new ≡ to_new saved.now out.old }
{
    moved_to_new(saved, out).into()
}

// Moves a save of the new form back to the old one: 22, 28, 23. A refusal changes nothing.
pub fn to_old(saved: &[u8], out: &mut [u8]) -> Saved
    ensures { written result out.new ≡ to_old saved.now out.old }
{
    moved_to_old(saved, out).into()
}
