// What holds after any records were given to the booking call, as promises of functions that do nothing, so that no theorem can be lost.
#![tactic(auto)]

ghost use Rattle.balance.specs.Demand3.{Demand3};
ghost use Rattle.balance.specs.Agreed.{AgreedTells};
ghost use Rattle.balance.specs.Joined.{AskedTells, BookedTells, NumbersAgree, CeilingHeld, ToldDemand3};

// What is accepted, the accounts of whatever rooms are lent, and the ceiling, in what the calls answer.
#[tactic(auto, using(crate::proofs::Demand3::demand3))]
pub fn demand_3()
    ensures { Demand3 }
{}

// A record is told whether it names the article that was ordered under its key.
#[tactic(auto, using(crate::proofs::Agreed::agreed_tells))]
pub fn agreed_tells()
    ensures { AgreedTells }
{}

// The call by key gives the figures of the first line with the key.
#[tactic(auto, using(crate::proofs::Figures::asked_tells))]
pub fn asked_tells()
    ensures { AskedTells }
{}

// Booking says of a line what the call by key says of it afterwards.
#[tactic(auto, using(crate::proofs::Figures::booked_tells))]
pub fn booked_tells()
    ensures { BookedTells }
{}

// Booking and the rule on lists refuse with one number.
#[tactic(auto, using(crate::proofs::Numbers::numbers_agree))]
pub fn numbers_agree()
    ensures { NumbersAgree }
{}

// After an accepted order its school's open copies are at most its ceiling, whatever book was lent.
#[tactic(auto, using(crate::proofs::Ceilings::ceiling_held))]
pub fn ceiling_held()
    ensures { CeilingHeld }
{}

// The book that the bytes tell keeps the promises of the rule on lists.
#[tactic(auto, using(crate::proofs::Given::told_demand3))]
pub fn told_demand_3()
    ensures { ToldDemand3 }
{}
