// The values of a part.
ghost use Rattle.std.specs.Prelude.{◌≡◌};
ghost use Rattle.parts.specs.Part.{medium_of, medium_byte, medium_in};

use cells::same;
use rules::amount::Price;

// A part is a thing that is sent, or a digital service.
#[derive(Clone, Copy, PartialEq, Eq, Debug)]
pub enum Medium {
    Physical,
    Digital,
}

// A price with the number of digits that it is written with.
#[derive(Clone, Copy, PartialEq, Eq, Debug)]
pub struct PartPrice {
    pub amount: Price,
    pub digits: u8,
    pub qualifier: [u8; 2],
    pub currency: [u8; 3],
}

// An article in front of its bytes, with zeros behind its length.
#[derive(Clone, Copy, PartialEq, Eq, Debug)]
pub struct PartArticle {
    pub length: u8,
    pub bytes: [u8; 35],
    pub qualifier: [u8; 2],
}

#[derive(Clone, Copy, PartialEq, Eq, Debug)]
pub struct Part {
    pub tax: u8,
    pub medium: Medium,
    pub net: PartPrice,
    pub list: PartPrice,
    pub article: PartArticle,
}

// The medium that a content names.
impl From<&[u8]> for Medium {
    ghost from_gives = { λ s m. m ≡ medium_of s.now };

    #[tactic(auto, unfolding(crate::specs::Part::medium_of))]
    fn from(content: &[u8]) -> Medium {
        if same(content, b"DIG") {
            return Medium::Digital;
        }
        Medium::Physical
    }
}

// The medium that a byte of a lent entry names; a byte that names none gives the first of the two.
impl From<u8> for Medium {
    ghost from_gives = { λ b m. m ≡ medium_in b };

    #[tactic(auto, unfolding(crate::specs::Part::medium_in))]
    fn from(b: u8) -> Medium {
        if b == 2 {
            return Medium::Digital;
        }
        Medium::Physical
    }
}

// A medium as a lent entry has it.
impl From<Medium> for u8 {
    ghost from_gives = { λ m b. b ≡ medium_byte m };

    #[tactic(auto, unfolding(crate::specs::Part::medium_byte))]
    fn from(m: Medium) -> u8 {
        match m {
            Medium::Physical => 1,
            Medium::Digital => 2,
        }
    }
}
