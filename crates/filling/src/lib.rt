// The entries of a book put into a save, and those of a save put into the lent rooms.
#![tactic(auto)]

pub mod input;
pub mod output;
pub mod used;
