// Moving a save between its forms (RULES 9.6).
ghost use Rattle.restored.specs.Moves.{ToNewAndBack, BackAndToNew, NewLoadsAlike, OldLoadsAlike, ToNewExactly, ToOldExactly, NoneNumbered, BothForms};

// Old to new and back gives the old bytes.
#[tactic(auto, using(crate::proofs::Moves::to_new_and_back))]
pub fn to_new_and_back()
    ensures { ToNewAndBack }
{}

// Back, where it is done, and then to new gives the new bytes.
#[tactic(auto, using(crate::proofs::Moves::back_and_to_new))]
pub fn back_and_to_new()
    ensures { BackAndToNew }
{}

// Loading a save is loading what it was moved to.
#[tactic(auto, using(crate::proofs::Moves::new_loads_alike))]
pub fn new_loads_alike()
    ensures { NewLoadsAlike }
{}

#[tactic(auto, using(crate::proofs::Moves::old_loads_alike))]
pub fn old_loads_alike()
    ensures { OldLoadsAlike }
{}

// A move is done exactly for a save of its own form, where the output is large enough, and back where no message is a number besides.
#[tactic(auto, using(crate::proofs::Moves::to_new_exactly))]
pub fn to_new_exactly()
    ensures { ToNewExactly }
{}

pub fn to_old_exactly()
    ensures { ToOldExactly }
{}

// In a save of the new form no message is a number exactly where each line has no report or an unknown message.
#[tactic(auto, using(crate::proofs::Moves::none_numbered_where))]
pub fn none_numbered_where()
    ensures { NoneNumbered }
{}

// A save is of both forms exactly where it has no lines.
#[tactic(auto, using(crate::proofs::Moves::both_forms))]
pub fn both_forms()
    ensures { BothForms }
{}
