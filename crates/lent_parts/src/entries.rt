// The entries of parts in a room that a caller lends. The library takes no heap, so they stay the caller's bytes.
ghost use Rattle.std.specs.Prelude.{◌+◌, ◌*◌, ◌≤◌, length};
ghost use Rattle.parts.specs.Loops.{most_parts};
ghost use Rattle.parts.specs.Part.{price_width, part_width};

// The entries of so many parts, from the front of the room on.
#[derive(Clone, Copy, PartialEq, Eq, Debug)]
pub struct LentParts<'a> {
    pub room: &'a [u8],
    pub count: usize,
    pub ghost few: { count ≤ most_parts },
    pub ghost inside: { count * part_width ≤ length room.now },
}

// The entry of a part, at a place of the room.
#[derive(Clone, Copy, PartialEq, Eq, Debug)]
pub struct LentPart<'a> {
    pub room: &'a [u8],
    pub at: usize,
    pub ghost inside: { at + part_width ≤ length room.now },
}

// A price in the entry of a part, at a place of the room.
#[derive(Clone, Copy, PartialEq, Eq, Debug)]
pub struct LentPrice<'a> {
    pub room: &'a [u8],
    pub at: usize,
    pub ghost inside: { at + price_width ≤ length room.now },
}
