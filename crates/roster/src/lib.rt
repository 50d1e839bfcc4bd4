// The roster in lent bytes: an entry for each school of the desk, address, qualifier and ceiling. The first entry with an account speaks for it.
#![tactic(auto)]

ghost use Rattle.std.specs.Prelude.{◌≡◌, ◌*◌, ◌+◌, ◌≤◌, length, IfSome};
ghost use Rattle.roster.specs.Roster.{entry_width, roster_sound, account_is, find_account, standing};

pub mod schools;

use cells::little::get;
use cells::same_by;

// An entry: address 10, qualifier 2, ceiling 4. The first two are the account.
pub const ENTRY_WIDTH: usize = 16;

pub const ACCOUNT_WIDTH: usize = 12;

pub const MOST_SCHOOLS: usize = 64;

// Whether these bytes are a roster: whole entries, at most 64.
#[tactic(auto, unfolding(crate::specs::Roster::entries, crate::specs::Roster::roster_sound))]
pub fn is_roster(roster: &[u8]) -> bool
    ensures { result ≡ roster_sound roster.now }
{
    (roster.len() % ENTRY_WIDTH == 0) & (roster.len() / ENTRY_WIDTH <= MOST_SCHOOLS)
}

// Whether an entry has an account, compared in place.
#[tactic(auto, unfolding(crate::specs::Roster::account_is, crate::specs::Roster::account_at), using(cells::proofs::Parts::part_is))]
fn account_is(roster: &[u8], i: usize, account: &[u8]) -> bool
    requires { entry_width * i + entry_width ≤ length roster.now }
    ensures { result ≡ account_is roster.now account.now i }
{
    let at = ENTRY_WIDTH * i;
    let end = at + ACCOUNT_WIDTH;
    same_by(&roster[at..end], account, 0)
}

// The first entry with an account; it is whole.
#[tactic(auto, unfolding(crate::specs::Roster::entries, crate::specs::Roster::find_account), using(cells::proofs::Searches::first_here, cells::proofs::Searches::first_next, cells::proofs::Searches::first_end))]
fn find_account(roster: &[u8], account: &[u8]) -> Option<usize>
    ensures first { result ≡ find_account roster.now account.now }
    ensures whole { IfSome result (λ i. entry_width * i + entry_width ≤ length roster.now) }
{
    for i in 0..roster.len() / ENTRY_WIDTH {
        if account_is(roster, i, account) {
            return Some(i);
        }
    }
    None
}

// What the roster says of an account: its ceiling, or that it is not on the roster.
#[tactic(auto, unfolding(crate::specs::Roster::standing, crate::specs::Roster::standing_at, crate::specs::Roster::ceiling_at))]
pub fn standing_on(roster: &[u8], account: &[u8]) -> Option<u64>
    ensures { result ≡ standing roster.now account.now }
{
    let i = find_account(roster, account)?;
    Some(get::<4>(roster, ENTRY_WIDTH * i + ACCOUNT_WIDTH))
}
