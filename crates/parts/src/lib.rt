// The parts of a bundle: their values, their loops of optional fields as data, and the entries that are lent for them.
#![tactic(auto)]

pub mod answer;
pub mod entry;
pub mod fit;
pub mod loops;
pub mod part;
pub mod table;
