// A record to be written with parts, as a caller lends it. The library takes no heap, so all of it stays the caller's slices.
ghost use Rattle.std.specs.Prelude.{◌≡◌, true};
ghost use Rattle.parts.specs.Loops.{are_loops};
ghost use Rattle.parts.specs.Fields.{lent_fields};

use lent_parts::entries::LentParts;

// The fixed part, so many entries of a table over contents, and the parts, whose prices have the qualifiers that a loop asks for.
#[derive(Clone, Copy, PartialEq, Eq, Debug)]
pub struct Draft<'a> {
    pub fixed: &'a [u8],
    pub table: &'a [usize],
    pub count: usize,
    pub contents: &'a [u8],
    pub parts: LentParts<'a>,
    pub ghost looped: { are_loops parts.count (lent_fields parts.count parts.room.now 0) ≡ true },
}
