// The fixed part as it is to be written.
ghost use Rattle.std.specs.Prelude.{◌≡◌};
ghost use Rattle.record.specs.Layout.{layout, kind_of};
ghost use Rattle.writing.specs.Write.{field_holding, first_faulty, fixed_judged};

use crate::answer::{Refusal, Verdict};
use record::layout::{Kind, first_broken, fixed_width, kind_of, layout};
use signs::allowed_run;

// The index of the field that the byte at a place stands in, or the number of fields past them: no Option, so that the smaller of two such indices is the first fault.
#[tactic(auto, using(crate::proofs::Holding::holding))]
pub fn field_holding(k: Kind, place: usize) -> usize
    ensures { result ≡ field_holding (layout k) place }
{
    let fields = layout(k);
    let mut left = place;
    for (i, field) in fields.iter().enumerate() {
        if left < field.size {
            return i;
        }
        left -= field.size;
    }
    fields.len()
}

// The first fixed field that breaks its rule or holds a byte not allowed. Most often each byte is allowed.
#[tactic(auto, unfolding(crate::specs::Write::first_faulty, record::specs::Layout::fixed_width), using(crate::proofs::Holding::held_none, record::proofs::Layouts::broken_most))]
pub fn first_faulty(k: Kind, fixed: &[u8]) -> usize
    ensures { result ≡ first_faulty k fixed.now }
{
    let broken = first_broken(k, fixed);
    let allowed = allowed_run(fixed);
    if fixed_width(k) <= allowed {
        return broken;
    }
    broken.min(field_holding(k, allowed))
}

// 5: the first fixed field that is not as it has to be.
#[tactic(auto, unfolding(crate::specs::Write::fixed_judged), using(std::proofs::lemmas::Bool::Decides::nat_tests))]
pub fn judge_fixed(fixed: &[u8]) -> Verdict
    ensures { result ≡ fixed_judged (kind_of fixed.now) fixed.now }
{
    let k = kind_of(fixed).ok_or(Refusal::FixedField(0))?;
    if fixed.len() != fixed_width(k) {
        return Err(Refusal::FixedField(0));
    }
    let faulty = first_faulty(k, fixed);
    if faulty != layout(k).len() {
        return Err(Refusal::FixedField(faulty));
    }
    Ok(0)
}
