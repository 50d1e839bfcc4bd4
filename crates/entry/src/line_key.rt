// A line's key, given by its fields where they stand: school and supplier, each with its qualifier, and the reference.
ghost use Rattle.std.specs.Prelude.{◌≡◌, length};
ghost use Rattle.entry.specs.Stored.{address_width, qualifier_width, reference_width};

// Each field has its length.
#[derive(Clone, Copy, PartialEq, Eq, Debug)]
pub struct LineKey<'a> {
    pub school: &'a [u8],
    pub school_qualifier: &'a [u8],
    pub supplier: &'a [u8],
    pub supplier_qualifier: &'a [u8],
    pub reference: &'a [u8],
    pub ghost school_wide: { length school.now ≡ address_width },
    pub ghost school_qualified: { length school_qualifier.now ≡ qualifier_width },
    pub ghost supplier_wide: { length supplier.now ≡ address_width },
    pub ghost supplier_qualified: { length supplier_qualifier.now ≡ qualifier_width },
    pub ghost reference_wide: { length reference.now ≡ reference_width },
}
