// Exactly the records that RULES 2 lays down are read and written; read after write gives the fields, write after read the bytes. The functions do nothing: each promises a theorem about the definitions of reading and writing, so that none can be lost.
#![tactic(auto)]

ghost use Rattle.roundtrip.specs.Demand2.{Demand2, TypedBack};

// Of every record by its bytes, its optional fields and its table.
#[tactic(auto, using(crate::proofs::Demand2::demand2))]
pub fn demand_2()
    ensures { Demand2 }
{}

// And of the typed records of all three kinds.
#[tactic(auto, using(crate::proofs::Demand2::typed_back))]
pub fn typed_back()
    ensures { TypedBack }
{}
