// Where each value stands in the entry that is lent for a part.

// The bytes of an entry.
pub const PART_WIDTH: usize = 68;

// Where each value stands in an entry.
pub const MEDIUM: usize = 1;

pub const NET: usize = 2;

pub const LIST: usize = 16;

pub const LENGTH: usize = 30;

pub const ARTICLE: usize = 31;

pub const ARTICLE_QUALIFIER: usize = 66;

// And in a price.
pub const DIGITS: usize = 8;

pub const PRICE_QUALIFIER: usize = 9;

pub const CURRENCY: usize = 11;

pub const PRICE_WIDTH: usize = 14;
