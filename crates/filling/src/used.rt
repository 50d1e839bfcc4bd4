// The used lines of a lent book.
ghost use Rattle.std.specs.Prelude.{◌*◌, ◌≤◌, length};
ghost use Rattle.entry.specs.Stored.{line_width};

use fronts::lines::Bodies;
use save::form::{FRONT_WIDTH, Form};
use save::lines::LineBody;
use stored::LINE_WIDTH;

// So many lines from the first on, all within the lent bytes.
#[derive(Clone, Copy, PartialEq, Eq, Debug)]
pub struct UsedLines<'a> {
    pub bytes: &'a [u8],
    pub count: usize,
    ghost inside: { line_width * count ≤ length bytes.now },
}

// A line of the book is a body of the new form: its front.
impl<'a> Bodies for UsedLines<'a> {
    ghost use Rattle.save.specs.Saved.{line_front_at};

    ghost fronts = { λ l. line_front_at l.bytes.now };

    ghost count = { λ l. l.count };

    #[tactic(auto, unfolding(save::specs::Saved::line_front_at, save::specs::Form::front_of, save::specs::Form::line_body_width), using(cells::proofs::Parts::part_is))]
    fn body_of(&self, i: usize) -> LineBody<'_> {
        let from = LINE_WIDTH * i;
        let end = from + FRONT_WIDTH;
        LineBody {
            form: Form::New,
            bytes: &self.bytes[from..end],
        }
    }
}
