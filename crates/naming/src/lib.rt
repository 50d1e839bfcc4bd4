// What a record names: the key of its line, its school, its article and its quantity, where these stand in it.
#![tactic(auto)]

pub mod kinds;
pub mod read;
