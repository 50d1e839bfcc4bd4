// The entries of a save, put into the lent rooms.
ghost use Rattle.std.specs.Prelude.{◌≡◌, ◌+◌, ◌*◌, ◌≤◌, length};
ghost use Rattle.std.proofs.lemmas.List.Edits.{sets};
ghost use Rattle.entry.specs.Stored.{line_width, slip_width};
ghost use Rattle.save.specs.Form.{front_of};
ghost use Rattle.save.specs.Saved.{joined_from, slip_in};
ghost use Rattle.save.specs.Load.{line_from, loaded_line};

use cells::little::put;
use cells::paste_at;
use fronts::put_front;
use rules::amount::Copies;
use save::lines::LineBody;
use save::slips::Slips;
use save::valid::ValidSave;
use saved::arrived_on;
use stored::{ARRIVED_AT, LINE_WIDTH, SLIP_WIDTH};

// A line with the front that its body says, and its A.
#[tactic(auto, using(save::proofs::Fronts::front_wide, crate::proofs::Entries::line_stored))]
fn take_line(lines: &mut [u8], i: usize, line: LineBody, arrived: Copies)
    requires { line_width * i + line_width ≤ length lines.old }
    ensures { lines.new ≡ sets lines.old (line_width * i) (line_from (front_of line.entry.form line.entry.bytes.now) arrived.0) }
{
    let at = LINE_WIDTH * i;
    put_front(lines, at, line);
    put::<4>(lines, at + ARRIVED_AT, arrived.0);
}

// The lines of a save, each with the sum of its slips as A.
#[tactic(auto, unfolding(save::specs::Load::loaded_line, save::specs::Saved::line_in), using(save::proofs::Joined::joined_step, save::proofs::Joined::joined_end, save::proofs::Fronts::front_wide, crate::proofs::Entries::from_long))]
pub fn take_lines(save: ValidSave, lines: &mut [u8])
    requires { line_width * save.line_count ≤ length lines.old }
    ensures { lines.new ≡ sets lines.old 0 (joined_from (loaded_line save.entry.form save.entry.bytes.now save.entry.line_count save.entry.slip_count) save.entry.line_count 0) }
{
    let bodies = save.lines();
    let slips = save.slips();
    for i in 0..save.line_count {
        take_line(lines, i, bodies.body(i), arrived_on(slips, i));
    }
}

// The slips of a save.
#[tactic(auto, using(save::proofs::Joined::joined_step, save::proofs::Joined::joined_end))]
pub fn take_slips(from: Slips, slips: &mut [u8])
    requires { slip_width * from.count ≤ length slips.old }
    ensures { slips.new ≡ sets slips.old 0 (joined_from (slip_in from.entry.bytes.now from.entry.at) from.entry.count 0) }
{
    for j in 0..from.count {
        paste_at(slips, SLIP_WIDTH * j, from.body(j).bytes);
    }
}
