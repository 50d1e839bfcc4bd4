// A line of a save, put: the front that a body says, and an entry of either form.
#![tactic(auto)]

pub mod lines;

ghost use Rattle.std.specs.Prelude.{◌≡◌, ◌∷◌, ◌+◌, ◌≤◌, length, take};
ghost use Rattle.std.proofs.lemmas.List.Edits.{sets};
ghost use Rattle.save.specs.Form.{front_width, line_kind, line_body_width, unsaved_width, unsaved_message, unsaved, front_of, saved_line_width};

use cells::little::put;
use cells::paste_at;
use entry::report::{BLANK_DATE, MESSAGE_UNKNOWN, NO_MARK, NO_REPORT};
use save::form::{Form, KIND_BYTE};
use save::lines::LineBody;
use stored::{EXPECTED_AT, MARK_AT, MESSAGE_AT};

const MESSAGE_WIDTH: usize = EXPECTED_AT - MESSAGE_AT;

// The message of a line by the byte of its mark, where a save has none.
#[tactic(auto, unfolding(save::specs::Form::unsaved_message))]
fn unsaved_message(mark: u8) -> u64
    ensures { result ≡ unsaved_message mark }
{
    if mark == NO_MARK {
        return NO_REPORT;
    }
    MESSAGE_UNKNOWN
}

// Message and expected date behind a body of the old form: by the byte of its mark, and eight blanks.
#[tactic(auto, using(crate::proofs::Stored::unsaved_stored))]
fn put_unsaved(out: &mut [u8], at: usize, mark: u8)
    requires { at + unsaved_width ≤ length out.old }
    ensures { out.new ≡ sets out.old at (unsaved mark) }
{
    put::<2>(out, at, unsaved_message(mark));
    paste_at(out, at + MESSAGE_WIDTH, &BLANK_DATE);
}

// The front of the line that a body says, put at a place.
#[tactic(auto, unfolding(save::specs::Form::front_of, save::specs::Form::line_body_width), using(crate::proofs::Stored::old_stored))]
pub fn put_front(out: &mut [u8], at: usize, line: LineBody)
    requires { at + front_width ≤ length out.old }
    ensures { out.new ≡ sets out.old at (front_of line.entry.form line.entry.bytes.now) }
{
    paste_at(out, at, line.bytes);
    match line.form {
        Form::Old => put_unsaved(out, at + MESSAGE_AT, line.bytes[MARK_AT]),
        Form::New => {}
    }
}

// The entry of a line in a form: a byte of kind, then so much of the front that a body says as the form has.
#[tactic(auto, unfolding(save::specs::Form::saved_line_width, save::specs::Form::line_body_width), using(save::proofs::Fronts::width_least, save::proofs::Fronts::old_part, save::proofs::Fronts::new_part, crate::proofs::Stored::put_long))]
pub fn put_line(out: &mut [u8], at: usize, to: Form, line: LineBody)
    requires { at + saved_line_width to ≤ length out.old }
    ensures { out.new ≡ sets out.old at (line_kind to ∷ take (line_body_width to) (front_of line.entry.form line.entry.bytes.now)) }
{
    out[at] = to.line_kind();
    match to {
        Form::Old => paste_at(out, at + KIND_BYTE, &line.bytes[0..MESSAGE_AT]),
        Form::New => put_front(out, at + KIND_BYTE, line),
    }
}
