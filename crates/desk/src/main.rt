// The desk program: books the records on standard input into rooms for 256 lines and 512 slips, and prints one line each.
#![tactic(auto)]

ghost use Rattle.std.specs.Prelude.{◌≡◌, Some};
ghost use Rattle.desk.specs.Printed.{kind_letter, is_message, message_field};

use entry::report::MOST_MESSAGE;
use feed::Feed;
use own::book_own;
use record::answer::Refusal;
use std::io::{Read, Write};
use std::{fmt, io};

const UNKNOWN: u8 = b'?';

// 256 lines of 66 bytes, 512 slips of 50.
const LINES_ROOM: usize = 16896;

const SLIPS_ROOM: usize = 25600;

// The bytes that one read takes at most.
const MOST_READ: usize = 65536;

// The message of a line's last report, as it is printed of a record.
#[derive(Clone, Copy, PartialEq, Eq, Debug)]
struct LastMessage {
    answer: u64,
    message: u64,
}

// The book that the records so far left in its rooms, and how many records they were.
#[derive(PartialEq, Eq, Debug, Drop)]
struct Book {
    records: u64,
    lines: [u8; LINES_ROOM],
    slips: [u8; SLIPS_ROOM],
    used: [usize; 2],
}

#[derive(PartialEq, Eq, Debug, Drop)]
struct Desk {
    feed: Feed,
    book: Book,
}

// The first byte of a record, but `?` where the answer says that it is over-long or of no known kind.
#[tactic(auto, unfolding(crate::specs::Printed::kind_letter, record::specs::Answers::refusal_number))]
fn kind_letter(answer: u64, record: &[u8]) -> u8
    ensures { result ≡ kind_letter answer «record».now }
{
    if answer == u64::from(Refusal::TooLong) || answer == u64::from(Refusal::UnknownKind) {
        return UNKNOWN;
    }
    record.first().copied().unwrap_or(UNKNOWN)
}

// Whether there is a message to print: the record was booked, and the line's last report has one.
#[tactic(auto, unfolding(crate::specs::Printed::is_message))]
fn is_message(answer: u64, message: u64) -> bool
    ensures { result ≡ is_message answer message }
{
    (answer == 0) & (message <= MOST_MESSAGE)
}

// Three digits, or a hyphen where there is none.
impl fmt::Display for LastMessage {
    ghost output = { λ m. Some (message_field m.answer m.message) };

    #[tactic(auto, unfolding(crate::specs::Printed::message_field, crate::specs::Printed::is_message), using(crate::proofs::Digits::three_digits))]
    fn fmt<W: fmt::Write>(&self, f: &mut fmt::Formatter<W>) -> fmt::Result {
        if is_message(self.answer, self.message) {
            return write!(f, "{:03}", self.message);
        }
        f.write_str("-")
    }
}

impl Book {
    fn new() -> Book {
        Book {
            records: 0,
            lines: [0; LINES_ROOM],
            slips: [0; SLIPS_ROOM],
            used: [0; 2],
        }
    }

    // Books the next record and prints its line. Its letter may be no text, so it is written as the byte that it is.
    fn answer<W: Write>(&mut self, out: &mut W, record: &[u8]) -> io::Result<()> {
        self.records = self.records.saturating_add(1);
        let booked = book_own(record, &mut self.lines, &mut self.slips, &mut self.used);
        let message = LastMessage {
            answer: booked.answer,
            message: booked.reported.message,
        };
        write!(out, "{} ", self.records)?;
        out.write_all(&[kind_letter(booked.answer, record)])?;
        writeln!(out, " {} {} {message}", booked.answer, booked.figures)
    }
}

impl Desk {
    // An empty book, and nothing read.
    fn new() -> Desk {
        Desk {
            feed: Feed::new(),
            book: Book::new(),
        }
    }

    // A byte ends the record that is held, or is held itself.
    fn take_byte<W: Write>(&mut self, out: &mut W, b: u8) -> io::Result<()> {
        if self.feed.held.ends(b) {
            self.book.answer(out, self.feed.ended())?;
            self.feed.restart();
        } else {
            self.feed.hold(b);
        }
        Ok(())
    }

    fn take_bytes<W: Write>(&mut self, out: &mut W, s: &[u8]) -> io::Result<()> {
        for &b in s {
            self.take_byte(out, b)?;
        }
        Ok(())
    }

    // Reads to the end: the inner result is that of reading, the outer one of printing.
    // A proved loop has to end, so its turns are counted up to a number that no run reaches.
    fn take_all<R: Read, W: Write>(
        &mut self,
        input: &mut R,
        out: &mut W,
    ) -> io::Result<io::Result<()>> {
        let mut space = [0u8; MOST_READ];
        for _ in 0..u64::MAX {
            match input.read(&mut space) {
                Ok(0) => return Ok(Ok(())),
                Ok(n) => self.take_bytes(out, &space[..n])?,
                Err(e) => return Ok(Err(e)),
            }
            out.flush()?;
        }
        Ok(Ok(()))
    }

    // The bytes after the last CR LF, if any, are one more record.
    fn take_left<W: Write>(&mut self, out: &mut W) -> io::Result<()> {
        let left = self.feed.left();
        if !left.is_empty() {
            self.book.answer(out, left)?;
        }
        out.flush()
    }
}

// Where the input fails before its end, what is held is given up: a record whose end was never read is not booked.
fn main(rt: HostRuntime) -> io::Result<()> {
    let mut out = rt.stdout();
    let mut desk = Desk::new();
    let read = desk.take_all(&mut rt.stdin(), &mut out)?;
    if read.is_ok() {
        desk.take_left(&mut out)?;
    } else {
        eprintln!(rt;
            "desk: the input could not be read to its end; what stands after the last record printed is not booked"
        )?;
    }
    read
}
