// What a caller lends to be written as optional fields: a table of entries, how many of them count, and the bytes that their contents stand in.
// The library takes no heap, so these stay the caller's slices.
ghost use Rattle.std.specs.Prelude.{◌≡◌, true, ◌*◌, ◌≤◌, length};
ghost use Rattle.record.specs.Layout.{most_fields};
ghost use Rattle.record.specs.Read.{entry_width};
ghost use Rattle.writing.specs.Widths.{all_inside};
ghost use Rattle.writing.specs.Write.{entries};

// No more entries than a record may have, all of them in the table.
#[derive(Clone, Copy, PartialEq, Eq, Debug)]
pub struct LentFields<'a> {
    pub table: &'a [usize],
    pub count: usize,
    pub contents: &'a [u8],
    pub ghost few: { count ≤ most_fields },
    pub ghost listed: { count * entry_width ≤ length table.now },
}

// The same, with each content inside the lent bytes: so they can be read and written.
#[derive(Clone, Copy, PartialEq, Eq, Debug)]
pub struct InsideFields<'a> {
    pub table: &'a [usize],
    pub count: usize,
    pub contents: &'a [u8],
    pub ghost few: { count ≤ most_fields },
    pub ghost listed: { count * entry_width ≤ length table.now },
    pub ghost inside: { all_inside contents.now (entries count table.now) ≡ true },
}
