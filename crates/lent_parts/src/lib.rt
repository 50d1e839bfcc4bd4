// The parts that stand in a lent room, as values.
#![tactic(auto)]

pub mod entries;
pub mod lent;
