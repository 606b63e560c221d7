//! Whether two plans are the same.

ghost use Rattle.std.specs.Prelude.{◌≡◌, ◌↔◌, IfOk, IsTrue, OnOk};
ghost use Rattle.beam_values.specs.Spelling.{spelling};
ghost use Rattle.value_forms.specs.Plans.{plan_form};

use beam_values::{Bytes, NoMemory, Plan};
use std::alloc::Global;
use value_forms::Stored;

/// Whether two plans are the same: each has one spelling.
pub fn is_same_plan(alloc: Global, a: &Plan, b: &Plan) -> Result<bool, NoMemory>
    ensures { IfOk result (λ is. IsTrue is ↔ (a.now ≡ b.now)) }
{
    let first = spelled(alloc, a)?;
    let second = spelled(alloc, b)?;
    Ok(is_same(first.as_slice(), second.as_slice()))
}

fn spelled(alloc: Global, plan: &Plan) -> Result<Bytes, NoMemory>
    ensures spelling { IfOk result (λ bytes. bytes ≡ spelling (plan_form.to plan.now)) }
    ensures fits { OnOk result (plan_form.Fits plan.now) }
{
    let mut bytes = Bytes::new(alloc);
    plan.write(&mut bytes)?;
    Ok(bytes)
}

fn is_same(a: &[u8], b: &[u8]) -> bool
    ensures { IsTrue result ↔ (a.now ≡ b.now) }
{
    a == b
}
