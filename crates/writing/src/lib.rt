// What writing judges and makes of its parts: answers, digits, the table's entries and the fixed part.
#![tactic(auto)]

pub mod answer;
pub mod digits;
pub mod entries;
pub mod field;
pub mod fixed;
pub mod lent;
