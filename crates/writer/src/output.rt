// A record put into the lent output, once nothing can be refused any more.
ghost use Rattle.std.specs.Prelude.{◌≡◌, ◌≤◌, length};
ghost use Rattle.std.proofs.lemmas.List.Edits.{sets};
ghost use Rattle.writing.specs.Widths.{width_after};
ghost use Rattle.writing.specs.Write.{entries, optional_of, record_text};

use cells::paste_at;
use writing::field::put_field;
use writing::lent::InsideFields;

// The whole record from the front of the output on.
#[tactic(auto, unfolding(writing::specs::Write::optional_in), using(writing::proofs::Records::stored, writing::proofs::Widths::reckoned))]
pub fn put_record(out: &mut [u8], fixed: &[u8], fields: InsideFields)
    requires { width_after (length fixed.now) (entries fields.count fields.table.now) ≤ length out.old }
    ensures { out.new ≡ sets out.old 0 (record_text fixed.now (optional_of fields.entry.contents.now (entries fields.entry.count fields.entry.table.now))) }
{
    paste_at(out, 0, fixed);
    let mut at = fixed.len();
    for i in 0..fields.count {
        at = put_field(out, at, fields.lent().entry(i).id, fields.content(i));
    }
    paste_at(out, at, b"*9999");
}
