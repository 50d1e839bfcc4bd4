// What a line keeps of its last report besides the mark: the message number and the expected date.
ghost use Rattle.std.specs.Prelude.{◌≡◌};
ghost use Rattle.entry.specs.Report.{blank_date, message_of, message_number, report_told, report_sound};
ghost use Rattle.cells.specs.Bytes.{same};
ghost use Rattle.rules.specs.Rule.{expected};
ghost use Rattle.rules.specs.Values.{expected_of};

use rules::day::Day;
use rules::expected::{Expected, expected_of};
use rules::rule::is_day;

// The last message: no report so far, a report whose number is not known any more, or its number; 000 is a number like any other.
#[derive(Clone, Copy, PartialEq, Eq, Debug)]
pub enum Message {
    NoReport,
    Unknown,
    Numbered(u64),
}

// What stands in the book, and is told, for a line without a report, and for one whose message is unknown.
pub const NO_REPORT: u64 = 65535;

pub const MESSAGE_UNKNOWN: u64 = 65534;

pub const MOST_MESSAGE: u64 = 999;

// The byte of no mark, and the least and the highest that are one.
pub const NO_MARK: u8 = 0;

const LEAST_MARK: u8 = 1;

pub const MOST_MARK: u8 = 2;

// The expected date where there is no report, or none with a number.
pub const BLANK_DATE: [u8; Day::WIDTH] = *b"        ";

const ZERO_DATE: [u8; Day::WIDTH] = *b"00000000";

// The form of an expected date, as it is told.
const A_DAY: u64 = 1;

const EIGHT_ZEROS: u64 = 2;

const EIGHT_BLANKS: u64 = 3;

const NO_DAY: Day = Day {
    year: 0,
    month: 0,
    day: 0,
};

// A last report as it is told: message number, the form of its expected date, and its day, zeros where that is none.
#[repr(C)]
#[derive(Clone, Copy, PartialEq, Eq, Debug, Default)]
pub struct Reported {
    pub message: u64,
    pub expected: u64,
    pub year: u64,
    pub month: u64,
    pub day: u64,
}

// The message that a number of the book stands for.
impl From<u64> for Message {
    ghost from_gives = { λ n m. m ≡ message_of n };

    #[tactic(auto, unfolding(crate::specs::Report::message_of))]
    fn from(n: u64) -> Message {
        match n {
            NO_REPORT => Message::NoReport,
            MESSAGE_UNKNOWN => Message::Unknown,
            _ => Message::Numbered(n),
        }
    }
}

impl From<Message> for u64 {
    ghost from_gives = { λ m n. n ≡ message_number m };

    #[tactic(auto, unfolding(crate::specs::Report::message_number))]
    fn from(m: Message) -> u64 {
        match m {
            Message::NoReport => NO_REPORT,
            Message::Unknown => MESSAGE_UNKNOWN,
            Message::Numbered(n) => n,
        }
    }
}

// A message and an expected date as they are told.
#[tactic(auto, unfolding(crate::specs::Report::report_told, crate::specs::Report::form_of, crate::specs::Report::day_on))]
pub fn report_told(m: Message, e: Expected) -> Reported
    ensures { result ≡ report_told m e }
{
    let (expected, day) = match e {
        Expected::On(d) => (A_DAY, d),
        Expected::Zeros => (EIGHT_ZEROS, NO_DAY),
        Expected::Blanks => (EIGHT_BLANKS, NO_DAY),
    };
    Reported {
        message: m.into(),
        expected,
        year: day.year,
        month: day.month,
        day: day.day,
    }
}

// Whether an expected date is eight blanks; arrays are compared eight bytes at a time.
#[tactic(auto, using(cells::proofs::Lists::same_is))]
fn is_blank_date(date: [u8; Day::WIDTH]) -> bool
    ensures { result ≡ same date blank_date }
{
    date == BLANK_DATE
}

// Whether an expected date has one of its three forms.
#[tactic(auto, unfolding(rules::specs::Rule::expected), using(crate::proofs::Kept::zero_dated, crate::proofs::Kept::blanks_dated, cells::proofs::Lists::same_is))]
fn is_date_sound(date: [u8; Day::WIDTH]) -> bool
    ensures { result ≡ expected date }
{
    is_day(&date) || date == ZERO_DATE || is_blank_date(date)
}

// Which of its three forms an expected date has; eight blanks are told first, since most lines have them.
#[tactic(auto, using(crate::proofs::Kept::blank_dated))]
pub fn expected_date(date: [u8; Day::WIDTH]) -> Expected
    ensures { result ≡ expected_of date }
{
    if is_blank_date(date) {
        return Expected::Blanks;
    }
    expected_of(&date)
}

// Whether a mark's byte, a message's number and the bytes of an expected date go together.
#[tactic(auto, unfolding(crate::specs::Report::report_sound))]
pub fn is_report_sound(mark: u8, message: u64, date: [u8; Day::WIDTH]) -> bool
    ensures { result ≡ report_sound mark message date }
{
    if message == NO_REPORT {
        if mark != NO_MARK {
            return false;
        }
        return is_blank_date(date);
    }
    if !((LEAST_MARK <= mark) & (mark <= MOST_MARK)) {
        return false;
    }
    if message == MESSAGE_UNKNOWN {
        return is_blank_date(date);
    }
    (message <= MOST_MESSAGE) & is_date_sound(date)
}
