// A line where it stands in the lent bytes: read, judged and compared there.
ghost use Rattle.std.specs.Prelude.{◌≡◌, ◌+◌, ◌*◌, ◌≤◌, length};
ghost use Rattle.entry.specs.Stored.{line_width};

use crate::{
    ARRIVED_AT, EXPECTED_AT, KEY_WIDTH, LINE_WIDTH, MARK_AT, MESSAGE_AT, MOST_ARRIVED, MOST_COPIES,
    ORDERED_AT,
};
use cells::bytes_at;
use cells::little::get;
use entry::key::{ARTICLE_WIDTH, SCHOOL_WIDTH, field_is};
use entry::line::{Line, Mark, missing};
use entry::report::{expected_date, is_report_sound};
use rules::amount::Copies;
use rules::day::Day;

// The line with an index, all of it within the lent bytes.
#[derive(Clone, Copy, PartialEq, Eq, Debug)]
pub struct StoredLine<'a> {
    pub lines: &'a [u8],
    pub index: usize,
    pub ghost inside: { line_width * index + line_width ≤ length lines.now },
}

impl<'a> StoredLine<'a> {
    ghost use Rattle.entry.specs.Stored.{line_at, date_at, article_is, school_is, open_at, line_sound};

    // The bytes of its expected date.
    #[tactic(auto, unfolding(entry::specs::Stored::date_at))]
    fn date(self) -> [u8; Day::WIDTH]
        ensures { result ≡ date_at self.entry.lines.now self.entry.index }
    {
        bytes_at(self.lines, LINE_WIDTH * self.index + EXPECTED_AT)
    }

    #[tactic(auto, unfolding(entry::specs::Stored::line_at))]
    pub fn read(self) -> Line
        ensures { result ≡ line_at self.entry.lines.now self.entry.index }
    {
        let at = LINE_WIDTH * self.index;
        Line {
            ordered: Copies(get::<2>(self.lines, at + ORDERED_AT)),
            arrived: Copies(get::<4>(self.lines, at + ARRIVED_AT)),
            mark: self.lines[at + MARK_AT].into(),
            message: get::<2>(self.lines, at + MESSAGE_AT).into(),
            expected: expected_date(self.date()),
        }
    }

    // Whether it was ordered under an article and its qualifier.
    #[tactic(auto, unfolding(entry::specs::Stored::article_is, entry::specs::Stored::article_at))]
    pub fn article_is(self, article: &[u8]) -> bool
        ensures { result ≡ article_is self.entry.lines.now article.now self.entry.index }
    {
        field_is::<ARTICLE_WIDTH>(self.lines, LINE_WIDTH * self.index + KEY_WIDTH, article)
    }

    // Whether it is a school's.
    #[tactic(auto, unfolding(entry::specs::Stored::school_is, entry::specs::Stored::school_at))]
    fn school_is(self, school: &[u8]) -> bool
        ensures { result ≡ school_is self.entry.lines.now school.now self.entry.index }
    {
        field_is::<SCHOOL_WIDTH>(self.lines, LINE_WIDTH * self.index, school)
    }

    // Its open copies where it is a school's, else none.
    #[tactic(auto, unfolding(entry::specs::Stored::open_at, entry::specs::Stored::line_at, entry::specs::Line::figures_of))]
    pub fn open_copies(self, school: &[u8]) -> u64
        ensures { result ≡ open_at self.entry.lines.now school.now self.entry.index }
    {
        if !self.school_is(school) {
            return 0;
        }
        let at = LINE_WIDTH * self.index;
        let ordered = Copies(get::<2>(self.lines, at + ORDERED_AT));
        let arrived = Copies(get::<4>(self.lines, at + ARRIVED_AT));
        let mark = Mark::from(self.lines[at + MARK_AT]);
        mark.open_of(missing(ordered, arrived)).0
    }

    // Whether Q and A are within their bounds, and what is kept of the last report goes together.
    #[tactic(auto, unfolding(entry::specs::Stored::line_sound))]
    pub fn is_sound(self) -> bool
        ensures { result ≡ line_sound self.entry.lines.now self.entry.index }
    {
        let at = LINE_WIDTH * self.index;
        let ordered = get::<2>(self.lines, at + ORDERED_AT);
        let arrived = get::<4>(self.lines, at + ARRIVED_AT);
        let mark = self.lines[at + MARK_AT];
        let message = get::<2>(self.lines, at + MESSAGE_AT);
        ((1 <= ordered) & (ordered <= MOST_COPIES))
            && arrived <= MOST_ARRIVED
            && is_report_sound(mark, message, self.date())
    }
}
