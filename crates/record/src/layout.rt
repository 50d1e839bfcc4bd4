// The kinds of records, and the fixed part of each as data.
ghost use Rattle.std.specs.Prelude.{◌≡◌, ◌+◌, drop};
ghost use Rattle.record.specs.Layout.{layout, fixed_width, start_of, kind_of, first_broken};

use crate::places::DATE_START;
use cells::{part, same};
use rules::day::Day;
use rules::rule::{Rule, Texts, keeps_rule};
use signs::{Class, of_class};

// A record is at most this long without its line end.
pub const MOST_BYTES: usize = 1024;
// With at most this many optional fields before *9999.
pub const MOST_FIELDS: usize = 96;

pub const KIND_WIDTH: usize = 4;

pub const ORDER_WIDTH: usize = 67;

pub const DELIVERY_WIDTH: usize = 108;

pub const REPORT_WIDTH: usize = 79;

pub const ORDER_FIELDS: usize = 11;

pub const DELIVERY_FIELDS: usize = 17;

pub const REPORT_FIELDS: usize = 13;

// A fixed field: its length and its rule.
#[derive(Clone, Copy, PartialEq, Eq, Debug)]
pub struct Field {
    pub size: usize,
    pub rule: Rule,
}

#[derive(Clone, Copy, PartialEq, Eq, Debug)]
pub enum Kind {
    Order,
    Goods,
    Closing,
    Report,
}

const KIND: Field = Field {
    size: 4,
    rule: Rule::Free,
};

const ADDRESS: Field = Field {
    size: 10,
    rule: Rule::Padded(Class::Account, 1, 10),
};

const ADDRESS_QUALIFIER: Field = Field {
    size: 2,
    rule: Rule::OneOf(Texts::Party),
};

const DATE: Field = Field {
    size: 8,
    rule: Rule::Date,
};

const REFERENCE: Field = Field {
    size: 10,
    rule: Rule::Named(Class::Any),
};

const ORDER_REFERENCE: Field = Field {
    size: 10,
    rule: Rule::Named(Class::Unbarred),
};

const SLIP_NUMBER: Field = Field {
    size: 10,
    rule: Rule::Named(Class::Any),
};

const POSITION: Field = Field {
    size: 4,
    rule: Rule::Of(Class::Digit, 4, 4),
};

const ARTICLE: Field = Field {
    size: 13,
    rule: Rule::Article,
};

const ARTICLE_QUALIFIER: Field = Field {
    size: 2,
    rule: Rule::OneOf(Texts::Numbering),
};

const QUANTITY: Field = Field {
    size: 4,
    rule: Rule::Of(Class::Digit, 4, 4),
};

const MEASURE: Field = Field {
    size: 2,
    rule: Rule::OneOf(Texts::Measure),
};

const PRICE: Field = Field {
    size: 15,
    rule: Rule::Of(Class::Digit, 15, 15),
};

const PRICE_QUALIFIER: Field = Field {
    size: 2,
    rule: Rule::Of(Class::Capital, 2, 2),
};

const CURRENCY: Field = Field {
    size: 3,
    rule: Rule::Of(Class::Capital, 3, 3),
};

const DISCOUNT: Field = Field {
    size: 8,
    rule: Rule::Of(Class::Digit, 8, 8),
};

const TAX_MARK: Field = Field {
    size: 1,
    rule: Rule::OneOf(Texts::TaxMark),
};

const MESSAGE: Field = Field {
    size: 3,
    rule: Rule::Of(Class::Digit, 3, 3),
};

const HOLD_MARK: Field = Field {
    size: 1,
    rule: Rule::OneOf(Texts::HoldMark),
};

const EXPECTED_DATE: Field = Field {
    size: 8,
    rule: Rule::ExpectedDate,
};

const PARTIAL_QUANTITY: Field = Field {
    size: 4,
    rule: Rule::Of(Class::Zero, 4, 4),
};

// A closing record has zeros or blanks where goods have values.
const NO_DATE: Field = Field {
    size: 8,
    rule: Rule::Of(Class::Zero, 8, 8),
};

const NO_SLIP_NUMBER: Field = Field {
    size: 10,
    rule: Rule::Of(Class::Blank, 10, 10),
};

const NO_POSITION: Field = Field {
    size: 4,
    rule: Rule::Of(Class::Blank, 4, 4),
};

const NO_REFERENCE: Field = Field {
    size: 10,
    rule: Rule::Of(Class::Blank, 10, 10),
};

const NO_ARTICLE: Field = Field {
    size: 13,
    rule: Rule::Of(Class::Blank, 13, 13),
};

const NO_ARTICLE_QUALIFIER: Field = Field {
    size: 2,
    rule: Rule::Of(Class::Blank, 2, 2),
};

const NO_QUANTITY: Field = Field {
    size: 4,
    rule: Rule::Of(Class::Zero, 4, 4),
};

const NO_PRICE: Field = Field {
    size: 15,
    rule: Rule::Of(Class::Zero, 15, 15),
};

const NO_PRICE_QUALIFIER: Field = Field {
    size: 2,
    rule: Rule::Of(Class::Blank, 2, 2),
};

const NO_CURRENCY: Field = Field {
    size: 3,
    rule: Rule::Of(Class::Blank, 3, 3),
};

const NO_DISCOUNT: Field = Field {
    size: 8,
    rule: Rule::Of(Class::Zero, 8, 8),
};

const NO_TAX_MARK: Field = Field {
    size: 1,
    rule: Rule::Of(Class::Blank, 1, 1),
};

const ORDER: [Field; ORDER_FIELDS] = [
    KIND,
    ADDRESS,
    ADDRESS_QUALIFIER,
    ADDRESS,
    ADDRESS_QUALIFIER,
    DATE,
    ORDER_REFERENCE,
    ARTICLE,
    ARTICLE_QUALIFIER,
    QUANTITY,
    MEASURE,
];

const GOODS: [Field; DELIVERY_FIELDS] = [
    KIND,
    ADDRESS,
    ADDRESS_QUALIFIER,
    ADDRESS,
    ADDRESS_QUALIFIER,
    DATE,
    SLIP_NUMBER,
    POSITION,
    REFERENCE,
    ARTICLE,
    ARTICLE_QUALIFIER,
    QUANTITY,
    PRICE,
    PRICE_QUALIFIER,
    CURRENCY,
    DISCOUNT,
    TAX_MARK,
];

const CLOSING: [Field; DELIVERY_FIELDS] = [
    KIND,
    ADDRESS,
    ADDRESS_QUALIFIER,
    ADDRESS,
    ADDRESS_QUALIFIER,
    NO_DATE,
    NO_SLIP_NUMBER,
    NO_POSITION,
    NO_REFERENCE,
    NO_ARTICLE,
    NO_ARTICLE_QUALIFIER,
    NO_QUANTITY,
    NO_PRICE,
    NO_PRICE_QUALIFIER,
    NO_CURRENCY,
    NO_DISCOUNT,
    NO_TAX_MARK,
];

const REPORT: [Field; REPORT_FIELDS] = [
    KIND,
    ADDRESS,
    ADDRESS_QUALIFIER,
    ADDRESS,
    ADDRESS_QUALIFIER,
    SLIP_NUMBER,
    REFERENCE,
    ARTICLE,
    ARTICLE_QUALIFIER,
    MESSAGE,
    HOLD_MARK,
    EXPECTED_DATE,
    PARTIAL_QUANTITY,
];

// The fields of a fixed part, in order.
#[tactic(auto, unfolding(crate::specs::Layout::layout))]
pub fn layout(k: Kind) -> &'static [Field]
    ensures { result.now ≡ layout k }
{
    match k {
        Kind::Order => &ORDER,
        Kind::Goods => &GOODS,
        Kind::Closing => &CLOSING,
        Kind::Report => &REPORT,
    }
}

// How long a fixed part is.
#[tactic(auto, unfolding(crate::specs::Layout::fixed_width, crate::specs::Layout::layout, crate::specs::Layout::total))]
pub fn fixed_width(k: Kind) -> usize
    ensures { result ≡ fixed_width k }
{
    match k {
        Kind::Order => ORDER_WIDTH,
        Kind::Goods | Kind::Closing => DELIVERY_WIDTH,
        Kind::Report => REPORT_WIDTH,
    }
}

// Where the field with an index starts; past the last, where the fixed part ends.
#[tactic(auto, using(crate::proofs::Layouts::starts), unfolding(crate::specs::Layout::start_of, crate::specs::Layout::total))]
pub fn start_of(k: Kind, index: usize) -> usize
    ensures { result ≡ start_of (layout k) index }
{
    let fields = layout(k);
    let mut at: usize = 0;
    for f in &fields[..index.min(fields.len())] {
        at += f.size;
    }
    at
}

// The index of the first fixed field that breaks its rule; the number of fields where none does, and no Option, since writing takes the lesser of this index and another.
#[tactic(auto, using(crate::proofs::Layouts::total_at, crate::proofs::Layouts::broken_at, crate::proofs::Layouts::total_most), unfolding(crate::specs::Layout::first_broken))]
pub fn first_broken(k: Kind, s: &[u8]) -> usize
    ensures { result ≡ first_broken (layout k) s.now }
{
    let fields = layout(k);
    let mut at: usize = 0;
    for (i, f) in fields.iter().enumerate() {
        let end = at + f.size;
        if !keeps_rule(f.rule, s, end, part(s, at, end)) {
            return i;
        }
        at = end;
    }
    fields.len()
}

// The kind that the first four bytes name; an L101 dated eight zeros is a closing record.
#[tactic(auto, unfolding(crate::specs::Layout::kind_of))]
pub fn kind_of(s: &[u8]) -> Option<Kind>
    ensures { result ≡ kind_of s.now }
{
    let name = part(s, 0, KIND_WIDTH);
    if same(name, b"B101") {
        return Some(Kind::Order);
    }
    if same(name, b"L101") {
        if of_class(
            Class::Zero,
            Day::WIDTH,
            Day::WIDTH,
            part(s, DATE_START, DATE_START + Day::WIDTH),
        ) {
            return Some(Kind::Closing);
        }
        return Some(Kind::Goods);
    }
    if same(name, b"M101") {
        return Some(Kind::Report);
    }
    None
}
