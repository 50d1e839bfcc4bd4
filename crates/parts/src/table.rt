// The loops of a bundle, where they stand in a table of fields that a caller lends.
ghost use Rattle.std.specs.Prelude.{◌≡◌, ◌*◌};
ghost use Rattle.parts.specs.Loops.{loop_fields};

use writing::lent::InsideFields;

// Ten fields of a table.
#[derive(Clone, Copy, PartialEq, Eq, Debug)]
pub struct Loop<'a> {
    pub fields: InsideFields<'a>,
    pub ghost ten: { fields.count ≡ loop_fields },
}

// The fields of so many loops, one loop after the other.
#[derive(Clone, Copy, PartialEq, Eq, Debug)]
pub struct Loops<'a> {
    pub fields: InsideFields<'a>,
    pub count: usize,
    pub ghost whole: { fields.count ≡ count * loop_fields },
}
