// A valid save, cut into its lines and its slips.
ghost use Rattle.std.specs.Prelude.{◌≡◌, true, ◌+◌, ◌*◌, ◌<◌, length};
ghost use Rattle.save.specs.Form.{slips_at};
ghost use Rattle.save.specs.Saved.{saved_slip_width, end_width, stated_lines, stated_slips, is_save_of};

use crate::form::Form;
use crate::lines::Lines;
use crate::slips::Slips;

// Bytes that are exactly a valid save of a form, with the counts that its end states.
#[derive(Clone, Copy, PartialEq, Eq, Debug)]
pub struct ValidSave<'a> {
    pub bytes: &'a [u8],
    pub form: Form,
    pub line_count: usize,
    pub slip_count: usize,
    ghost is_valid: { is_save_of form bytes.now ≡ true },
    ghost lines_stated: { line_count ≡ stated_lines bytes.now },
    ghost slips_stated: { slip_count ≡ stated_slips bytes.now },
    ghost lines_most: { line_count < 65536 },
    ghost slips_most: { slip_count < 65536 },
    ghost whole: { length bytes.now ≡ slips_at form line_count + saved_slip_width * slip_count + end_width },
}

impl<'a> ValidSave<'a> {
    // Its lines.
    pub fn lines(self) -> Lines<'a>
        ensures { (result.bytes.now ≡ self.entry.bytes.now) × (result.form ≡ self.entry.form) × (result.count ≡ self.entry.line_count) }
    {
        Lines {
            bytes: self.bytes,
            form: self.form,
            count: self.line_count,
        }
    }

    // Its slips, which stand behind the lines.
    pub fn slips(self) -> Slips<'a>
        ensures { (result.bytes.now ≡ self.entry.bytes.now) × (result.at ≡ slips_at self.entry.form self.entry.line_count) × (result.count ≡ self.entry.slip_count) }
    {
        Slips {
            bytes: self.bytes,
            at: self.form.slips_at(self.line_count),
            count: self.slip_count,
        }
    }
}
