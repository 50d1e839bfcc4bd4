// Theorems about saving, loading and moving. Each is the promise of a function with no code, so that it cannot be lost without a word; who calls it at his own bytes gets what it says of them.
#![tactic(auto)]

pub mod books;
pub mod moving;
