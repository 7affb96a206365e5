//! One function.

ghost use Rattle.std.specs.Prelude.{◌≡◌, ◌++◌, ◌∷◌, [], map, IfOk, OnOk};
ghost use Rattle.model_stobjs.specs.Entries.{function_of};
ghost use Rattle.acl_terms.specs.Definitions.{seen_generated};
ghost use Rattle.acl_terms.specs.Signatures.{seen_out};
ghost use Rattle.acl_generated.specs.Tasks.{seen_slot, seen_task};

use crate::tasks::{Slot, Task};
use acl_base::SymId;
use acl_terms::{GeneratedFunction, Out, Signature};
use sqlite_items::Items;
use std::alloc::{AllocError, Global};

fn out_of(slot: Slot, stobj: SymId, held: SymId) -> Out
    ensures { seen_out result ≡ seen_slot stobj.0 held.0 slot }
{
    match slot {
        Slot::Ordinary => Out::Ordinary,
        Slot::Itself => Out::Object(stobj),
        Slot::Held => Out::Object(held),
    }
}

fn push_out(outs: &mut Items<Out>, out: Out) -> Result<(), AllocError>
    ensures { OnOk result (outs.new ≡ outs.old ++ out ∷ []) }
{
    outs.push(out)?;
    Ok(())
}

/// What is taken, or what is given.
#[tactic(auto, using(crate::proofs::OutLemmas::outs_start, crate::proofs::OutLemmas::outs_more, crate::proofs::OutLemmas::outs_end))]
fn outs_of(
    alloc: Global,
    slots: &[Slot],
    stobj: SymId,
    held: SymId,
) -> Result<Items<Out>, AllocError>
    ensures { IfOk result (λ os. map seen_out os ≡ map (seen_slot stobj.0 held.0) slots.now) }
{
    let mut outs = Items::new(alloc);
    let mut rest = slots;
    'slots: while let Some((slot, others)) = rest.split_first() {
        push_out(&mut outs, out_of(*slot, stobj, held))?;
        rest = others;
    }
    Ok(outs)
}

/// The function of this name that does this, of the field of this number where it is one of a field.
pub(crate) fn generated(
    alloc: Global,
    name: SymId,
    stobj: SymId,
    held: SymId,
    field: Option<u32>,
    task: &Task,
) -> Result<GeneratedFunction, AllocError>
    ensures { IfOk result (λ f. seen_generated f ≡ function_of stobj.0 field name.0 (seen_task stobj.0 held.0 task.now)) }
{
    let ins = outs_of(alloc, task.ins, stobj, held)?;
    let outs = outs_of(alloc, task.outs, stobj, held)?;
    Ok(GeneratedFunction {
        name,
        stobj,
        field,
        role: task.role,
        signature: Signature { ins, outs },
    })
}

/// One more function.
pub(crate) fn push_function(
    all: &mut Vec<GeneratedFunction>,
    function: GeneratedFunction,
) -> Result<(), AllocError>
    ensures { OnOk result (all.new.items ≡ all.old.items ++ function ∷ []) }
{
    all.push(function)?;
    Ok(())
}
