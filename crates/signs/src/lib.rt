// Classes of bytes, and fields made of one class.
#![tactic(auto)]

ghost use Rattle.std.specs.Prelude.{◌≡◌};
ghost use Rattle.cells.specs.Bytes.{within, all, run};
ghost use Rattle.signs.specs.Class.{plain, unassigned, allowed, belongs, all_of, of_class, padded, named};
ghost use Rattle.signs.specs.declared.Class.TheVariants.{Allowed};

use cells::part;

pub const BLANK: u8 = 32;

pub const STAR: u8 = 42;

pub const PLUS: u8 = 43;

pub const COLON: u8 = 58;

pub const QUESTION: u8 = 63;

pub const APOSTROPHE: u8 = 39;

pub const ZERO: u8 = 48;

pub const NINE: u8 = 57;

pub const LETTER_A: u8 = 65;

pub const LETTER_X: u8 = 88;

pub const LETTER_Z: u8 = 90;

const LAST_ASCII: u8 = 126;

const FIRST_TYPOGRAPHIC: u8 = 128;

const LAST_TYPOGRAPHIC: u8 = 159;

const FIRST_LATIN: u8 = 160;

const LAST_LATIN: u8 = 255;

#[derive(Clone, Copy, PartialEq, Eq, Debug)]
pub enum Class {
    Any,
    Allowed,
    Digit,
    Capital,
    // A digit or a capital.
    Account,
    Blank,
    Zero,
    // Not one of * + : ? '
    Unbarred,
    DigitOrX,
}

fn between(least: u8, most: u8, b: u8) -> bool
    ensures { result ≡ within least most b }
{
    (least..=most).contains(&b)
}

// Whether a byte is printable ASCII, or Latin-1 from 160 on.
fn is_plain(b: u8) -> bool
    ensures { result ≡ plain b }
{
    between(BLANK, LAST_ASCII, b) | between(FIRST_LATIN, LAST_LATIN, b)
}

// Whether a byte stands for nothing in Windows-1252.
fn is_unassigned(b: u8) -> bool
    ensures { result ≡ unassigned b }
{
    matches!(b, 129 | 141 | 143 | 144 | 157)
}

// Whether a record may hold a byte; ASCII is told first, since most bytes are.
fn is_allowed(b: u8) -> bool
    ensures { result ≡ allowed b }
{
    if between(BLANK, LAST_ASCII, b) {
        return true;
    }
    between(FIRST_LATIN, LAST_LATIN, b)
        | (between(FIRST_TYPOGRAPHIC, LAST_TYPOGRAPHIC, b) & !is_unassigned(b))
}

// Whether a byte is of a class.
#[tactic(auto, unfolding(crate::specs::Class::belongs))]
pub fn belongs_to(c: Class, b: u8) -> bool
    ensures { result ≡ belongs c b }
{
    match c {
        Class::Any => true,
        Class::Allowed => is_allowed(b),
        Class::Digit => between(ZERO, NINE, b),
        Class::Capital => between(LETTER_A, LETTER_Z, b),
        Class::Account => between(ZERO, NINE, b) | between(LETTER_A, LETTER_Z, b),
        Class::Blank => b == BLANK,
        Class::Zero => b == ZERO,
        // As `matches!` it takes three instructions more a byte.
        Class::Unbarred => {
            !((b == STAR) | ((b == PLUS) | ((b == COLON) | ((b == QUESTION) | (b == APOSTROPHE)))))
        }
        Class::DigitOrX => between(ZERO, NINE, b) | (b == LETTER_X),
    }
}

// How many bytes at the front are of a class.
#[tactic(auto, using(crate::proofs::Runs::run_on, crate::proofs::Runs::run_off, crate::proofs::Runs::run_end))]
pub fn run_of(c: Class, s: &[u8]) -> usize
    ensures { result ≡ run (belongs c) s.now }
{
    for (i, b) in s.iter().enumerate() {
        if !belongs_to(c, *b) {
            return i;
        }
    }
    s.len()
}

// Whether each byte is plain; no byte ends the loop, so that many are judged at once.
#[tactic(auto, using(crate::proofs::Runs::all_on, crate::proofs::Runs::all_end))]
fn are_plain(s: &[u8]) -> bool
    ensures { result ≡ all plain s.now }
{
    let mut kept = true;
    for b in s {
        kept &= is_plain(*b);
    }
    kept
}

// How many bytes at the front are allowed; most often all, and most often plain.
pub fn allowed_run(s: &[u8]) -> usize
    ensures { result ≡ run (belongs Allowed) s.now }
{
    if are_plain(s) {
        return s.len();
    }
    run_of(Class::Allowed, s)
}

// Whether each byte is of a class.
#[tactic(auto, unfolding(crate::specs::Class::belongs, crate::specs::Class::all_of), using(crate::proofs::Runs::all_run, crate::proofs::Runs::all_always))]
pub fn all_of(c: Class, s: &[u8]) -> bool
    ensures { result ≡ all_of c s.now }
{
    match c {
        Class::Any => true,
        _ => run_of(c, s) == s.len(),
    }
}

// Whether there are least to most bytes, all of a class.
#[tactic(auto, unfolding(crate::specs::Class::of_class))]
pub fn of_class(c: Class, least: usize, most: usize, s: &[u8]) -> bool
    ensures { result ≡ of_class c least most s.now }
{
    (least..=most).contains(&s.len()) & all_of(c, s)
}

// Whether least to most bytes of a class stand in front, and then blanks only.
#[tactic(auto, unfolding(crate::specs::Class::padded))]
pub fn is_padded(c: Class, least: usize, most: usize, s: &[u8]) -> bool
    ensures { result ≡ padded c least most s.now }
{
    let n = run_of(c, s);
    (least..=most).contains(&n) & all_of(Class::Blank, part(s, n, s.len()))
}

// Whether bytes of a class are all blank, or the first is not.
#[tactic(auto, unfolding(crate::specs::Class::named, crate::specs::Class::all_of))]
pub fn is_named(c: Class, s: &[u8]) -> bool
    ensures { result ≡ named c s.now }
{
    if s.is_empty() {
        return true;
    }
    if !all_of(c, s) {
        return false;
    }
    if s[0] != BLANK {
        return true;
    }
    all_of(Class::Blank, s)
}
