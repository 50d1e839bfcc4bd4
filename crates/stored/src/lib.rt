// Lines and slips in lent bytes. A line is its key, the article that was ordered, Q, its last report and A; a slip is its key, the index of its line and its quantity.
#![tactic(auto)]

pub mod line;
pub mod slip;
pub mod write;

use entry::key::{REFERENCE_AT, REFERENCE_TELLS};

pub const LINE_WIDTH: usize = 66;

pub const KEY_WIDTH: usize = 34;

// Where most keys of lines differ: the last eight bytes of the reference.
pub const KEY_TELLS: usize = REFERENCE_AT + REFERENCE_TELLS;

pub const ORDERED_AT: usize = 49;

pub const MARK_AT: usize = 51;

pub const MESSAGE_AT: usize = 52;

pub const EXPECTED_AT: usize = 54;

pub const ARRIVED_AT: usize = 62;

pub const SLIP_WIDTH: usize = 50;

pub const SLIP_KEY_WIDTH: usize = 46;

// Where most keys of slips differ: the end of the slip number, and the position.
pub const SLIP_KEY_TELLS: usize = 38;

pub const SLIP_COPIES_AT: usize = 48;

pub const MOST_COPIES: u64 = 9999;

pub const MOST_ARRIVED: u64 = 9999999;
