// The values of the parts that stand in a lent room.
ghost use Rattle.std.specs.Prelude.{◌≡◌, ◌+◌, ◌*◌, ◌<◌, get_or};
ghost use Rattle.parts.specs.Part.{part_width, medium_at, net_at, list_at, is_medium, lent_price, lent_article, lent_part};
ghost use Rattle.parts.specs.Fields.{article_text};

use crate::entries::{LentPart, LentParts, LentPrice};
use cells::little::get;
use cells::{bytes_at, part};
use parts::entry::{
    ARTICLE, ARTICLE_QUALIFIER, CURRENCY, DIGITS, LENGTH, LIST, MEDIUM, NET, PART_WIDTH,
    PRICE_QUALIFIER, PRICE_WIDTH,
};
use parts::fit::{ARTICLE_WIDTH, fitted};
use parts::part::{Medium, Part, PartArticle, PartPrice};
use rules::amount::Price;

// What is written of an article that is too long: a byte that no content may hold.
const UNWRITABLE: &[u8] = b"\0";

impl<'a> LentPrice<'a> {
    #[tactic(auto, unfolding(parts::specs::Part::lent_price))]
    pub fn amount(self) -> u64
        ensures { result ≡ (lent_price self.entry.room.now self.entry.at).amount.0 }
    {
        get::<8>(self.room, self.at)
    }

    // In how many digits the amount is written.
    #[tactic(auto, unfolding(parts::specs::Part::lent_price))]
    pub fn digits(self) -> u8
        ensures { result ≡ (lent_price self.entry.room.now self.entry.at).digits }
    {
        self.room[self.at + DIGITS]
    }

    #[tactic(auto, using(cells::proofs::Parts::part_is, parts::proofs::Lent::qualifier_is))]
    pub fn qualifier(self) -> &'a [u8]
        ensures { result.now ≡ (lent_price self.entry.room.now self.entry.at).qualifier }
    {
        &self.room[self.at + PRICE_QUALIFIER..self.at + CURRENCY]
    }

    #[tactic(auto, using(cells::proofs::Parts::part_is, parts::proofs::Lent::currency_is))]
    pub fn currency(self) -> &'a [u8]
        ensures { result.now ≡ (lent_price self.entry.room.now self.entry.at).currency }
    {
        &self.room[self.at + CURRENCY..self.at + PRICE_WIDTH]
    }

    #[tactic(auto, unfolding(parts::specs::Part::lent_price), using(parts::proofs::Lent::stands))]
    fn price(self) -> PartPrice
        ensures { result ≡ lent_price self.entry.room.now self.entry.at }
    {
        PartPrice {
            amount: Price(self.amount()),
            digits: self.digits(),
            qualifier: bytes_at(self.room, self.at + PRICE_QUALIFIER),
            currency: bytes_at(self.room, self.at + CURRENCY),
        }
    }
}

impl<'a> LentPart<'a> {
    // The tax mark.
    #[tactic(auto, unfolding(parts::specs::Part::lent_part))]
    pub fn tax(self) -> u8
        ensures { result ≡ (lent_part self.entry.room.now self.entry.at).tax }
    {
        self.room[self.at]
    }

    // Whether a medium is named.
    #[tactic(auto, unfolding(parts::specs::Part::is_medium))]
    pub fn is_medium(self) -> bool
        ensures { result ≡ is_medium (get_or self.entry.room.now (self.entry.at + medium_at) 0) }
    {
        let b = self.room[self.at + MEDIUM];
        (b == 1) | (b == 2)
    }

    #[tactic(auto, unfolding(parts::specs::Part::lent_part))]
    pub fn medium(self) -> Medium
        ensures { result ≡ (lent_part self.entry.room.now self.entry.at).medium }
    {
        self.room[self.at + MEDIUM].into()
    }

    pub fn net(self) -> LentPrice<'a>
        ensures { (result.room.now ≡ self.entry.room.now) × (result.at ≡ self.entry.at + net_at) }
    {
        LentPrice {
            room: self.room,
            at: self.at + NET,
        }
    }

    pub fn list(self) -> LentPrice<'a>
        ensures { (result.room.now ≡ self.entry.room.now) × (result.at ≡ self.entry.at + list_at) }
    {
        LentPrice {
            room: self.room,
            at: self.at + LIST,
        }
    }

    // The article as it is written: what stands behind its length is not looked at.
    #[tactic(auto, using(cells::proofs::Parts::part_is, parts::proofs::Lent::article_stands, parts::proofs::Lent::article_too_long))]
    pub fn article_text(self) -> &'a [u8]
        ensures { result.now ≡ article_text (lent_article self.entry.room.now self.entry.at) }
    {
        let width = self.room[self.at + LENGTH] as usize;
        if ARTICLE_WIDTH < width {
            return UNWRITABLE;
        }
        let start = self.at + ARTICLE;
        &self.room[start..start + width]
    }

    #[tactic(auto, using(cells::proofs::Parts::part_is, parts::proofs::Lent::article_qualifier_is))]
    pub fn article_qualifier(self) -> &'a [u8]
        ensures { result.now ≡ (lent_article self.entry.room.now self.entry.at).qualifier }
    {
        &self.room[self.at + ARTICLE_QUALIFIER..self.at + PART_WIDTH]
    }

    // The article; what stands behind its length is not looked at.
    #[tactic(auto, unfolding(parts::specs::Part::lent_article), using(parts::proofs::Lent::stands))]
    fn article(self) -> PartArticle
        ensures { result ≡ lent_article self.entry.room.now self.entry.at }
    {
        let length = self.room[self.at + LENGTH];
        let start = self.at + ARTICLE;
        PartArticle {
            length,
            bytes: fitted(part(self.room, start, start + length as usize)),
            qualifier: bytes_at(self.room, self.at + ARTICLE_QUALIFIER),
        }
    }

    #[tactic(auto, unfolding(parts::specs::Part::lent_part))]
    pub fn part(self) -> Part
        ensures { result ≡ lent_part self.entry.room.now self.entry.at }
    {
        Part {
            tax: self.tax(),
            medium: self.medium(),
            net: self.net().price(),
            list: self.list().price(),
            article: self.article(),
        }
    }
}

impl<'a> LentParts<'a> {
    // The entry with an index.
    pub fn nth(self, j: usize) -> LentPart<'a>
        requires { j < self.count }
        ensures { (result.room.now ≡ self.entry.room.now) × (result.at ≡ j * part_width) }
    {
        LentPart {
            room: self.room,
            at: j * PART_WIDTH,
        }
    }
}
