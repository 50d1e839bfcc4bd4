// The bytes of a file cut into records, one byte at a time, in bounded memory.
#![tactic(auto)]

ghost use Rattle.std.specs.Prelude.{◌≡◌, [], take};
ghost use Rattle.feed.specs.Cut.{held_of, ends_now, held_next, buffer_next, ended_length, left_length};

const CR: u8 = b'\r';

const LF: u8 = b'\n';

// One byte more than a record may have, so that an over-long record stays over-long.
const MOST_HELD: usize = 1025;

// One more, for the CR that ends the longest part held.
const MOST_COUNTED: usize = 1026;

// How many bytes came since the last CR LF, counted up to MOST_COUNTED, and whether the last of them is a CR.
#[derive(Clone, Copy, PartialEq, Eq, Debug)]
pub struct Held {
    pub count: usize,
    pub cr: bool,
}

// The bytes since the last CR LF: as many of them as there is room for, and what is told of all.
// More are counted than there is room for, so a vector's own length could not stand for the count.
#[derive(Clone, Copy, PartialEq, Eq, Debug)]
pub struct Feed {
    pub held: Held,
    pub buffer: [u8; MOST_HELD],
}

#[tactic(auto, unfolding(crate::specs::Cut::held_of, crate::specs::Cut::last_of, crate::specs::Cut::ends_now, crate::specs::Cut::held_next, crate::specs::Cut::ended_length, crate::specs::Cut::left_length))]
impl Held {
    // Nothing has come yet.
    pub fn new() -> Held
        ensures { result ≡ held_of [] }
    {
        Held {
            count: 0,
            cr: false,
        }
    }

    // Whether a record ends with this byte.
    pub fn ends(self, b: u8) -> bool
        ensures { result ≡ ends_now self b }
    {
        self.cr && b == LF
    }

    // What is told once this byte came too, where it ends no record.
    fn next(self, b: u8) -> Held
        ensures { result ≡ held_next self b }
    {
        Held {
            count: self.count.saturating_add(1).min(MOST_COUNTED),
            cr: b == CR,
        }
    }

    // How many bytes of the buffer are the record that a CR LF ends; its CR is not.
    pub fn ended_length(self) -> usize
        ensures { result ≡ ended_length self }
    {
        self.count.saturating_sub(1).min(MOST_HELD)
    }

    // How many bytes of the buffer are the record after the last CR LF.
    pub fn left_length(self) -> usize
        ensures { result ≡ left_length self }
    {
        self.count.min(MOST_HELD)
    }
}

#[tactic(auto, unfolding(crate::specs::Cut::buffer_next, crate::specs::Cut::ended_length, crate::specs::Cut::left_length))]
impl Feed {
    pub fn new() -> Feed
        ensures { result.held ≡ held_of [] }
    {
        Feed {
            held: Held::new(),
            buffer: [0; MOST_HELD],
        }
    }

    // A byte that ends no record is held: counted, and stored behind the others, if there is room.
    pub fn hold(&mut self, b: u8)
        ensures held { self.new.held ≡ held_next self.old.held b }
        ensures buffer { self.new.buffer ≡ buffer_next self.old.held self.old.buffer b }
    {
        let n = self.held.count;
        self.held = self.held.next(b);
        if n < MOST_HELD {
            self.buffer[n] = b;
        }
    }

    // The record that a CR LF ends.
    pub fn ended(&self) -> &[u8]
        ensures { result.now ≡ take (ended_length self.now.held) self.now.buffer }
    {
        &self.buffer[..self.held.ended_length()]
    }

    // The record after the last CR LF; where it is empty, there is none.
    pub fn left(&self) -> &[u8]
        ensures { result.now ≡ take (left_length self.now.held) self.now.buffer }
    {
        &self.buffer[..self.held.left_length()]
    }

    // After a record, nothing is held.
    pub fn restart(&mut self)
        ensures held { self.new.held ≡ held_of [] }
        ensures buffer { self.new.buffer ≡ self.old.buffer }
    {
        self.held = Held::new();
    }
}
