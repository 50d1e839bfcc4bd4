// The two forms of a save: the kind and the widths of a line's entry.
ghost use Rattle.std.specs.Prelude.{◌≡◌, ◌<◌};
ghost use Rattle.save.specs.Form.{line_kind, line_body_width, saved_line_width, slips_at};

use stored::{ARRIVED_AT, MESSAGE_AT};

// Old: without messages and expected dates. New: with them, and the one that is written.
#[derive(Clone, Copy, PartialEq, Eq, Debug)]
pub enum Form {
    Old,
    New,
}

// A byte of kind stands before each body.
pub const KIND_BYTE: usize = 1;

// The front of a line in the book: all but its A.
pub const FRONT_WIDTH: usize = ARRIVED_AT;

const OLD_KIND: u8 = 1;

const NEW_KIND: u8 = 3;

// In these alone the forms differ.
impl Form {
    // The byte of kind of a line.
    #[tactic(auto, unfolding(crate::specs::Form::line_kind))]
    pub fn line_kind(self) -> u8
        ensures { result ≡ line_kind self }
    {
        match self {
            Form::Old => OLD_KIND,
            Form::New => NEW_KIND,
        }
    }

    // How much of a line's front its body is.
    #[tactic(auto, unfolding(crate::specs::Form::line_body_width))]
    pub fn body_width(self) -> usize
        ensures { result ≡ line_body_width self }
    {
        match self {
            Form::Old => MESSAGE_AT,
            Form::New => FRONT_WIDTH,
        }
    }

    // A byte of kind and a body.
    #[tactic(auto, unfolding(crate::specs::Form::saved_line_width), using(crate::proofs::Fronts::width_most))]
    pub fn line_width(self) -> usize
        ensures { result ≡ saved_line_width self }
    {
        KIND_BYTE + self.body_width()
    }

    // Where the slips of a save stand, behind so many lines.
    #[tactic(auto, unfolding(crate::specs::Form::slips_at), using(crate::proofs::Bodies::slips_most))]
    pub fn slips_at(self, lines: usize) -> usize
        requires { lines < 65536 }
        ensures { result ≡ slips_at self lines }
    {
        self.line_width() * lines
    }
}
