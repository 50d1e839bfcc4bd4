// The book as its caller lends it, to be read: room for lines, room for slips, and how many of each are used. The library has no heap, so the rooms stay the caller's.
#[derive(Clone, Copy, PartialEq, Eq, Debug)]
pub struct LentBook<'a> {
    pub lines: &'a [u8],
    pub slips: &'a [u8],
    pub used: &'a [usize; 2],
}

impl<'a> LentBook<'a> {
    ghost use Rattle.std.specs.Prelude.{◌≡◌};
    ghost use Rattle.book.specs.Lent.{used_lines, used_slips};
    ghost use Rattle.finding.specs.Seen.{seen};

    #[tactic(auto, unfolding(book::specs::Lent::used_lines))]
    pub fn used_lines(self) -> usize
        ensures { result ≡ used_lines (seen self.entry) }
    {
        self.used[0]
    }

    #[tactic(auto, unfolding(book::specs::Lent::used_slips))]
    pub fn used_slips(self) -> usize
        ensures { result ≡ used_slips (seen self.entry) }
    {
        self.used[1]
    }
}
