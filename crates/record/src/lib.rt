// A record's kinds, layouts, contents and values: the leaves that reading and writing stand on.
#![tactic(auto)]

pub mod answer;
pub mod contents;
pub mod fields;
pub mod layout;
pub mod places;
pub mod values;
