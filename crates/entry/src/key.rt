// The fields of keys and articles: how wide they are, where they stand in an entry, and whether one stands at a place. Both keys begin with two addresses, each with its qualifier.
ghost use Rattle.std.specs.Prelude.{◌≡◌, ◌+◌, ◌≤◌, length};
ghost use Rattle.std.proofs.Math.Seq.{slice};
ghost use Rattle.cells.specs.Bytes.{same};

use cells::same_by;

pub const ADDRESS_WIDTH: usize = 10;

pub const QUALIFIER_WIDTH: usize = 2;

pub const REFERENCE_WIDTH: usize = 10;

pub const FIRST_QUALIFIER_AT: usize = 10;

pub const SECOND_PARTY_AT: usize = 12;

pub const SECOND_QUALIFIER_AT: usize = 22;

pub const PARTIES_WIDTH: usize = 24;

// A line's key begins with its school, and ends with the reference. Behind it the line keeps the article of its order and its qualifier.
pub const SCHOOL_WIDTH: usize = 12;

pub const REFERENCE_AT: usize = 24;

pub const ARTICLE_AT: usize = 34;

pub const ARTICLE_QUALIFIER_AT: usize = 47;

// The article and its qualifier.
pub const ARTICLE_WIDTH: usize = 15;

// A slip's with the date, the slip number and the position.
pub const DATE_AT: usize = 24;

pub const SLIP_NUMBER_AT: usize = 32;

pub const POSITION_AT: usize = 42;

// Most keys of lines are told apart by the front of the school's address and by the last eight bytes of the reference: where these begin in their fields.
pub const SCHOOL_TELLS: usize = 0;

pub const REFERENCE_TELLS: usize = 2;

// Whether the so many bytes at a place are a field, eight or more; the first eight are compared first.
#[tactic(auto, using(cells::proofs::Parts::part_is))]
pub fn field_is<const N: usize>(s: &[u8], at: usize, field: &[u8]) -> bool
    requires { (8 ≤ N) × (at + N ≤ length s.now) }
    ensures { result ≡ same (slice at (at + N) s.now) field.now }
{
    same_by(&s[at..at + N], field, 0)
}
