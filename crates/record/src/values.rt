// The typed values of a record's fixed part.

use rules::amount::{Copies, Discount, Price};
use rules::day::Day;
use rules::expected::Expected;

// An address and its qualifier.
#[derive(Clone, Copy, PartialEq, Eq, Debug, Default)]
pub struct Party {
    pub address: [u8; 10],
    pub qualifier: [u8; 2],
}

#[derive(Clone, Copy, PartialEq, Eq, Debug, Default)]
pub struct Article {
    pub number: [u8; 13],
    pub qualifier: [u8; 2],
}

// A B101.
#[derive(Clone, Copy, PartialEq, Eq, Debug, Default)]
pub struct Order {
    pub sender: Party,
    pub recipient: Party,
    pub date: Day,
    pub reference: [u8; 10],
    pub article: Article,
    pub quantity: Copies,
    pub measure: [u8; 2],
}

// An L101; a closing record has the day 0 of month 0 of year 0.
#[derive(Clone, Copy, PartialEq, Eq, Debug, Default)]
pub struct Delivery {
    pub sender: Party,
    pub recipient: Party,
    pub date: Day,
    pub slip: [u8; 10],
    pub position: [u8; 4],
    pub reference: [u8; 10],
    pub article: Article,
    pub quantity: Copies,
    pub price: Price,
    pub pricing: [u8; 2],
    pub currency: [u8; 3],
    pub discount: Discount,
    pub tax: u8,
}

// An M101.
#[derive(Clone, Copy, PartialEq, Eq, Debug, Default)]
pub struct Report {
    pub sender: Party,
    pub recipient: Party,
    pub slip: [u8; 10],
    pub reference: [u8; 10],
    pub article: Article,
    pub message: u64,
    pub hold: u8,
    pub expected: Expected,
}
