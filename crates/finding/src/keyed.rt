// The line with an index compared with a key, which is given by its fields where they stand: school and supplier, each with its qualifier, and reference.
ghost use Rattle.std.specs.Prelude.{◌≡◌, ◌&&◌, ◌+◌, ◌≤◌, length};
ghost use Rattle.std.proofs.Math.Seq.{slice};
ghost use Rattle.cells.specs.Bytes.{same};
ghost use Rattle.entry.specs.Stored.{key_is, address_width, qualifier_width};
ghost use Rattle.entry.specs.Keyed.{keyed};

use cells::bytes_at;
use entry::key::{
    ADDRESS_WIDTH, QUALIFIER_WIDTH, REFERENCE_AT, REFERENCE_WIDTH, SECOND_PARTY_AT, field_is,
};
use entry::line_key::LineKey;
use stored::LINE_WIDTH;
use stored::line::StoredLine;

// Whether an address stands at a place, and its qualifier after it.
#[tactic(auto, using(cells::proofs::Lists::same_is))]
fn party_is(lines: &[u8], at: usize, address: &[u8], qualifier: &[u8]) -> bool
    requires { (at + 12 ≤ length lines.now) × (length address.now ≡ address_width) × (length qualifier.now ≡ qualifier_width) }
    ensures { result ≡ same (slice at (at + 10) lines.now) address.now && same (slice (at + 10) (at + 12) lines.now) qualifier.now }
{
    field_is::<ADDRESS_WIDTH>(lines, at, address)
        && bytes_at::<QUALIFIER_WIDTH>(lines, at + ADDRESS_WIDTH)
            == bytes_at::<QUALIFIER_WIDTH>(qualifier, 0)
}

// Whether a line has a key; stops at the first field that differs.
#[tactic(auto, using(crate::proofs::Compared::key_stands))]
pub fn key_is(line: StoredLine, key: LineKey) -> bool
    ensures { result ≡ key_is line.entry.lines.now (keyed key.entry) line.entry.index }
{
    let lines = line.lines;
    let at = LINE_WIDTH * line.index;
    party_is(lines, at, key.school, key.school_qualifier)
        && party_is(
            lines,
            at + SECOND_PARTY_AT,
            key.supplier,
            key.supplier_qualifier,
        )
        && field_is::<REFERENCE_WIDTH>(lines, at + REFERENCE_AT, key.reference)
}
