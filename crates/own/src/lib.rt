// A record booked with a roster of its own entry alone, for a desk that has no roster.
#![tactic(auto)]

ghost use Rattle.std.specs.Prelude.{◌≡◌, ◌≤◌, length};
ghost use Rattle.record.specs.Layout.{kind_of};
ghost use Rattle.book.specs.Lent.{lent};
ghost use Rattle.book.specs.Booking.{outcome};
ghost use Rattle.own.specs.Own.{parties_end, account_by, own_entry, book_own, NeverInTheWay};

use book::answer::Booked;
use booking::book;
use cells::little::put;
use cells::{part, paste_at};
use record::layout::{Kind, kind_of};
use record::places::{PARTIES_END, RECIPIENT, SENDER};
use roster::{ACCOUNT_WIDTH, ENTRY_WIDTH};

// The highest ceiling that an entry of a roster can state.
const HIGHEST_CEILING: u64 = 4294967295;

// The account of a record's own school.
#[tactic(auto, unfolding(crate::specs::Own::account_by))]
fn own_account(s: &[u8]) -> &[u8]
    ensures { result.now ≡ account_by (kind_of s.now) s.now }
{
    match kind_of(s) {
        Some(Kind::Order) => part(s, SENDER, RECIPIENT),
        Some(Kind::Goods | Kind::Closing | Kind::Report) | None => part(s, RECIPIENT, PARTIES_END),
    }
}

// An entry of a roster: a record's own account with the highest ceiling.
#[tactic(auto, using(crate::proofs::Own::account_wide))]
fn own_entry(s: &[u8]) -> [u8; ENTRY_WIDTH]
    requires { parties_end ≤ length s.now }
    ensures { result ≡ own_entry s.now }
{
    let mut entry = [0u8; ENTRY_WIDTH];
    paste_at(&mut entry, 0, own_account(s));
    put::<4>(&mut entry, ACCOUNT_WIDTH, HIGHEST_CEILING);
    entry
}

// Books a record with a roster of its own entry; of none where it is too short to have one. It takes the rooms as booking does.
#[tactic(auto, unfolding(crate::specs::Own::book_own, crate::specs::Own::own_roster), using(cells::proofs::Parts::nothing))]
pub fn book_own(s: &[u8], lines: &mut [u8], slips: &mut [u8], used: &mut [usize; 2]) -> Booked
    ensures { outcome result (lent lines.new slips.new used.new) ≡ book_own s.now (lent lines.old slips.old used.old) }
{
    if s.len() < PARTIES_END {
        return book(s, &[], lines, slips, used);
    }
    let entry = own_entry(s);
    book(s, &entry, lines, slips, used)
}

// The theorem that the roster is never in a record's way; there is nothing to run.
#[tactic(auto, using(crate::proofs::Own::never_in_the_way))]
pub fn never_in_the_way()
    ensures { NeverInTheWay }
{}
