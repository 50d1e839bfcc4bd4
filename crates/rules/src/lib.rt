// What a field of a record may hold, as data, and what it says.
#![tactic(auto)]

pub mod amount;
pub mod article;
pub mod day;
pub mod expected;
pub mod number;
pub mod rule;
