// The saved book: what saving, loading and moving answer, and the two forms.
#![tactic(auto)]

pub mod answer;
pub mod form;
pub mod lines;
pub mod slips;
pub mod valid;
