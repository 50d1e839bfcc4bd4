// Lines that stand one after the other, each put into a save.
ghost use Rattle.std.specs.Prelude.{◌≡◌, ℕ, List, ◌<◌, ◌≤◌, length};
ghost use Rattle.std.proofs.lemmas.List.Edits.{sets};
ghost use Rattle.save.specs.Form.{front_of, slips_at};
ghost use Rattle.save.specs.Saved.{line_entries};

use crate::put_line;
use save::form::Form;
use save::lines::{LineBody, Lines};

// Lines with their bodies where they stand: those of a save, or of the lent book.
pub trait Bodies {
    ghost fronts: { Self → ℕ → List ℕ };

    ghost count: { Self → ℕ };

    // The body of a line.
    fn body_of(&self, i: usize) -> LineBody<'_>
        requires { i < count self.now }
        ensures { front_of result.form result.bytes.now ≡ fronts self.now i };
}

impl<'a> Bodies for Lines<'a> {
    ghost use Rattle.save.specs.Saved.{line_in};

    ghost fronts = { λ l. line_in l.form l.bytes.now };

    ghost count = { λ l. l.count };

    #[tactic(auto, unfolding(save::specs::Saved::line_in))]
    fn body_of(&self, i: usize) -> LineBody<'_> {
        self.body(i)
    }
}

// The first n lines, as entries of a form, from the front of the output on.
#[tactic(auto, unfolding(save::specs::Saved::line_entries, save::specs::Form::slips_at), using(save::proofs::Joined::joined_step, save::proofs::Joined::joined_end, save::proofs::Joined::line_entry_long, save::proofs::Fronts::front_wide, save::proofs::Bodies::line_before))]
pub fn put_lines<L: Bodies>(out: &mut [u8], to: Form, lines: &L, n: usize)
    requires { (n ≤ L.count lines.now) × (slips_at to n ≤ length out.old) }
    ensures { out.new ≡ sets out.old 0 (line_entries to (L.fronts lines.now) n) }
{
    let width = to.line_width();
    for i in 0..n {
        put_line(out, width * i, to, lines.body_of(i));
    }
}
