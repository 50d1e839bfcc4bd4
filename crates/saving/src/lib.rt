// The public calls of saving and loading.
#![tactic(auto)]

ghost use Rattle.std.specs.Prelude.{◌≡◌, ◌*◌, ◌≤◌, length};
ghost use Rattle.book.specs.Lent.{lent};
ghost use Rattle.finding.specs.Seen.{seen};
ghost use Rattle.entry.specs.Stored.{line_width, slip_width};
ghost use Rattle.save.specs.Saved.{written, saved_of, save};
ghost use Rattle.save.specs.Load.{lent_loaded, outcome, loaded_of, load};

use filling::input::{take_lines, take_slips};
use filling::output::{put_end, put_lines, put_slips};
use filling::used::UsedLines;
use finding::lent::LentBook;
use finding::seek::{MOST_LINES, MOST_SLIPS, is_room};
use finding::sound::SoundBook;
use save::answer::{Loaded, Refused, Saved};
use save::form::Form;
use save::slips::SAVED_SLIP_WIDTH;
use save::valid::ValidSave;
use saved::{END_WIDTH, form_in, valid_save};
use stored::{LINE_WIDTH, SLIP_WIDTH};

// A sound book, saved at the front of the output, and how long its save is.
#[tactic(auto, unfolding(save::specs::Saved::save, save::specs::Saved::saved_width, save::specs::Saved::saved_of), using(crate::proofs::Stages::storing))]
fn saved_into(lent: LentBook, out: &mut [u8]) -> Result<usize, Refused>
    ensures { written (saved_of result) out.new ≡ save (seen lent.entry) out.old }
{
    let book = SoundBook::of(lent).ok_or(Refused::Unsound)?;
    let n = book.lent.used_lines();
    let m = book.lent.used_slips();
    let at = Form::New.slips_at(n);
    let end_at = at + SAVED_SLIP_WIDTH * m;
    let length = end_at + END_WIDTH;
    if out.len() < length {
        return Err(Refused::TooSmall);
    }
    let lines = UsedLines {
        bytes: book.lent.lines,
        count: n,
    };
    put_lines(out, lines);
    put_slips(out, at, book.lent.slips, m);
    put_end(out, end_at, n, m);
    Ok(length)
}

// Saves a lent book at the front of the output, in the new form: 20, 23. A refusal changes nothing.
// Rooms, counts and output stay apart here and in `load`, as C lends them.
pub fn save(lines: &[u8], slips: &[u8], used: &[usize; 2], out: &mut [u8]) -> Saved
    ensures { written result out.new ≡ save (lent lines.now slips.now used.now) out.old }
{
    saved_into(LentBook { lines, slips, used }, out).into()
}

// The book that a save tells, put into rooms that are large enough.
#[tactic(auto, unfolding(save::specs::Load::lent_loaded))]
fn fill(save: ValidSave, lines: &mut [u8], slips: &mut [u8], used: &mut [usize; 2])
    requires { (line_width * save.line_count ≤ length lines.old) × (slip_width * save.slip_count ≤ length slips.old) }
    ensures { lent lines.new slips.new used.new ≡ lent_loaded save.entry.form save.entry.bytes.now save.entry.line_count save.entry.slip_count (lent lines.old slips.old used.old) }
{
    take_lines(save, lines);
    take_slips(save.slips(), slips);
    used[0] = save.line_count;
    used[1] = save.slip_count;
}

// A save of either form, loaded into a lent book of any contents.
#[tactic(auto, unfolding(save::specs::Load::load, save::specs::Load::loaded_of, book::specs::Lent::rooms_sound, book::specs::Lent::line_room, book::specs::Lent::slip_room), using(crate::proofs::Stages::loading))]
fn loaded_into(
    saved: &[u8],
    lines: &mut [u8],
    slips: &mut [u8],
    used: &mut [usize; 2],
) -> Result<(), Refused>
    ensures { outcome (loaded_of result) (lent lines.new slips.new used.new) ≡ load saved.now (lent lines.old slips.old used.old) }
{
    if !(is_room(LINE_WIDTH, MOST_LINES, lines.len())
        & is_room(SLIP_WIDTH, MOST_SLIPS, slips.len()))
    {
        return Err(Refused::Unsound);
    }
    let save = valid_save(saved, form_in(saved)).ok_or(Refused::NoSave)?;
    if !((save.line_count <= lines.len() / LINE_WIDTH)
        & (save.slip_count <= slips.len() / SLIP_WIDTH))
    {
        return Err(Refused::TooSmall);
    }
    fill(save, lines, slips, used);
    Ok(())
}

// Loads a save of either form into a lent book of any contents: 20 for room sizes alone, 22, 23. A refusal changes nothing.
pub fn load(saved: &[u8], lines: &mut [u8], slips: &mut [u8], used: &mut [usize; 2]) -> Loaded
    ensures { outcome result (lent lines.new slips.new used.new) ≡ load saved.now (lent lines.old slips.old used.old) }
{
    loaded_into(saved, lines, slips, used).into()
}
