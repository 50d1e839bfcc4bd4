// What is told of the lent book: its answers.
#![tactic(auto)]

pub mod answer;
