// A line of the book as a value, with its last report; where the fields of a key stand.
#![tactic(auto)]

pub mod key;
pub mod line;
pub mod line_key;
pub mod report;
