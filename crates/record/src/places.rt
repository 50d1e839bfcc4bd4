// Where the fields of a record's fixed part start, kind by kind; each ends where the next one starts.

// What every record begins with: the kind, then sender and recipient, each with its qualifier.
pub const SENDER: usize = 4;

pub const SENDER_QUALIFIER: usize = 14;

pub const RECIPIENT: usize = 16;

pub const RECIPIENT_QUALIFIER: usize = 26;

pub const PARTIES_END: usize = 28;

// The date of an order and of a delivery.
pub const DATE_START: usize = 28;

// An order.
pub const ORDER_REFERENCE: usize = 36;

pub const ORDER_ARTICLE: usize = 46;

pub const ORDER_QUANTITY: usize = 61;

pub const ORDER_MEASURE: usize = 65;

// A delivery.
pub const SLIP: usize = 36;

pub const POSITION: usize = 46;

pub const REFERENCE: usize = 50;

pub const ARTICLE: usize = 60;

pub const QUANTITY: usize = 75;

pub const PRICE: usize = 79;

pub const PRICING: usize = 94;

pub const CURRENCY: usize = 96;

pub const DISCOUNT: usize = 99;

pub const TAX: usize = 107;

// A report.
pub const REPORT_SLIP: usize = 28;

pub const REPORT_REFERENCE: usize = 38;

pub const REPORT_ARTICLE: usize = 48;

pub const MESSAGE: usize = 63;

pub const HOLD: usize = 66;

pub const EXPECTED: usize = 67;

pub const PARTIAL: usize = 75;
