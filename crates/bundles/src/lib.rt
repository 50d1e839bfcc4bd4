// Demand 2 for the parts of a bundle, as theorems over the definitions of reading and writing them.
#![tactic(auto)]

ghost use Rattle.bundles.specs.Demand2.{PartsDemand2};

// Exactly the bundles that are as they should be are read into parts and written from them, and both ways give back what was there. There is nothing to run: the contract is the theorem.
#[tactic(auto, using(crate::proofs::Demand2::parts_demand2))]
pub fn parts_demand_2()
    ensures { PartsDemand2 }
{}
