// A record judged against a sound book: what the book says of it.
#![tactic(auto)]

pub mod judge;
