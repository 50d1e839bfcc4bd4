// What an optional field begins with.

// The ID of the last field.
pub const LAST_ID: usize = 9999;
// A star and four digits.
pub const HEAD_WIDTH: usize = 5;
// A table has three numbers an entry: ID, place of the content, length of the content. It is lent as plain numbers, since C lends it.
pub const ENTRY_WIDTH: usize = 3;
