// A field put into the output: a star, four digits of ID, the content.
ghost use Rattle.std.specs.Prelude.{◌≡◌, [], ◌+◌, ◌≤◌, length};
ghost use Rattle.std.proofs.lemmas.List.Edits.{sets};
ghost use Rattle.record.specs.Fields.{head_width};
ghost use Rattle.writing.specs.Write.{field_text};

use crate::digits::{put_byte, put_digits};
use cells::paste_at;
use record::fields::HEAD_WIDTH;
use signs::STAR;

const ID_DIGITS: usize = 4;

// A star and four digits of ID: a field whose content is still to come.
#[tactic(auto, using(crate::proofs::Records::head_stored))]
pub fn put_head(out: &mut [u8], at: usize, id: usize)
    requires { at + head_width ≤ length out.old }
    ensures { out.new ≡ sets out.old at (field_text (record { id = id; content = [] })) }
{
    put_byte(out, at, STAR);
    put_digits(out, at + 1, ID_DIGITS, id as u64);
}

// A field with its content; where the next one starts.
#[tactic(auto, using(crate::proofs::Records::content_stored))]
pub fn put_field(out: &mut [u8], at: usize, id: usize, content: &[u8]) -> usize
    requires { at + head_width + length content.now ≤ length out.old }
    ensures { (out.new ≡ sets out.old at (field_text (record { id = id; content = content.now }))) × (result ≡ at + head_width + length content.now) }
{
    put_head(out, at, id);
    let from = at + HEAD_WIDTH;
    paste_at(out, from, content);
    from + content.len()
}
