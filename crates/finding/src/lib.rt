// The used entries of a lent book: searched, and judged sound.
#![tactic(auto)]

pub mod keyed;
pub mod lent;
pub mod seek;
pub mod sound;
