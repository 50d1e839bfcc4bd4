// The lines of a save, and the body of each.
ghost use Rattle.std.specs.Prelude.{◌≡◌, ◌<◌, ◌≤◌, length};
ghost use Rattle.save.specs.Form.{line_body_width, slips_at};
ghost use Rattle.save.specs.Saved.{body_in};

use crate::form::{Form, KIND_BYTE};

// The body of a line in a form.
#[derive(Clone, Copy, PartialEq, Eq, Debug)]
pub struct LineBody<'a> {
    pub form: Form,
    pub bytes: &'a [u8],
    ghost wide: { length bytes.now ≡ line_body_width form },
}

// The lines of a save: so many entries of a form, from its first byte on.
#[derive(Clone, Copy, PartialEq, Eq, Debug)]
pub struct Lines<'a> {
    pub bytes: &'a [u8],
    pub form: Form,
    pub count: usize,
    ghost stand: { slips_at form count ≤ length bytes.now },
}

impl<'a> Lines<'a> {
    // The body of a line.
    #[tactic(auto, unfolding(crate::specs::Saved::body_in, crate::specs::Form::slips_at), using(crate::proofs::Bodies::line_before, crate::proofs::Bodies::entry_wide, cells::proofs::Parts::part_is))]
    pub fn body(self, i: usize) -> LineBody<'a>
        requires { i < self.count }
        ensures { (result.form ≡ self.entry.form) × (result.bytes.now ≡ body_in self.entry.form self.entry.bytes.now i) }
    {
        let at = self.form.line_width() * i + KIND_BYTE;
        let end = at + self.form.body_width();
        LineBody {
            form: self.form,
            bytes: &self.bytes[at..end],
        }
    }
}
