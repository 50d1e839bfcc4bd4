// The booking rule of RULES 7 on lists, with no bytes in it. The functions do nothing: each promises what the rule comes to, so that no theorem can be lost.
#![tactic(auto)]

ghost use Rattle.ledger.specs.Demand3.{Demand3, AcceptedExactly, CeilingKept};

// What holds of a book after any sequence of bookings from empty.
#[tactic(auto, using(crate::proofs::Demand3::promise3))]
pub fn demand_3()
    ensures { Demand3 }
{}

// A record is accepted exactly where none of its refusals holds.
#[tactic(auto, using(crate::proofs::Demand3::accepted_exactly))]
pub fn accepted_exactly()
    ensures { AcceptedExactly }
{}

// After an accepted order its school's open copies are at most the ceiling.
#[tactic(auto, using(crate::proofs::Ceilings::ceiling_kept))]
pub fn ceiling_kept()
    ensures { CeilingKept }
{}
