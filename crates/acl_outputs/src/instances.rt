//! Instances of signatures.

ghost use Rattle.std.specs.Prelude.{◌≡◌, ◌++◌, ◌∷◌, [], map, length, drop, IfOk, OnOk, option_map};
ghost use Rattle.std.specs.List.{zip};
ghost use Rattle.model_terms.specs.Classes.{stobjs, all_congruent, actual_of, renamed_out, instance_of};
ghost use Rattle.acl_terms.specs.Forms.{numbers};
ghost use Rattle.acl_terms.specs.Signatures.{seen_out, seen_outs, seen_signature};
ghost use Rattle.acl_worlds.specs.Contents.{seen_world};

use crate::kinds::congruent;
use crate::lists::repeats;
use acl_base::SymId;
use acl_heap::Heap;
use acl_terms::{Out, Signature};
use acl_worlds::World;
use sqlite_items::Items;
use std::alloc::{AllocError, Global};

#[tactic(auto, using(crate::proofs::ListLemmas::numbers_push, crate::proofs::ListLemmas::numbers_same))]
fn put_stobj(found: &mut Items<SymId>, out: Out) -> Result<(), AllocError>
    ensures { OnOk result (numbers found.new ≡ numbers found.old ++ stobjs (seen_out out ∷ [])) }
{
    match out {
        Out::Ordinary => Ok(()),
        Out::Object(x) => {
            found.push(x)?;
            Ok(())
        }
    }
}

/// The stobjs among some kinds.
#[tactic(auto, using(crate::proofs::ListLemmas::objects_step, crate::proofs::ListLemmas::objects_end))]
pub fn stobjs(alloc: Global, outs: &[Out]) -> Result<Items<SymId>, AllocError>
    ensures { IfOk result (λ xs. numbers xs ≡ stobjs (seen_outs outs.now)) }
{
    let mut found = Items::new(alloc);
    for out in outs {
        put_stobj(&mut found, *out)?;
    }
    Ok(found)
}

/// Whether there are as many actuals as formals, each congruent to its formal.
#[tactic(auto, using(crate::proofs::ListLemmas::congruent_step, crate::proofs::ListLemmas::congruent_short, crate::proofs::ListLemmas::congruent_end, crate::proofs::ListLemmas::congruent_long))]
pub fn all_congruent(world: &World, heap: &Heap, formals: &[SymId], actuals: &[SymId]) -> bool
    ensures { result ≡ all_congruent (seen_world heap.now world.now) (numbers formals.now) (numbers actuals.now) }
{
    for (i, formal) in formals.iter().enumerate() {
        if i >= actuals.len() {
            return false;
        }
        if !congruent(world, heap, *formal, actuals[i]) {
            return false;
        }
    }
    actuals.len() <= formals.len()
}

/// The actual of a formal; another name stays.
#[tactic(auto, using(crate::proofs::ListLemmas::actual_here, crate::proofs::ListLemmas::actual_step, crate::proofs::ListLemmas::actual_short, crate::proofs::ListLemmas::actual_end))]
pub fn actual_of(formals: &[SymId], actuals: &[SymId], x: SymId) -> SymId
    ensures { result.0 ≡ actual_of (zip (numbers formals.now) (numbers actuals.now)) x.0 }
{
    for (i, formal) in formals.iter().enumerate() {
        if i >= actuals.len() {
            return x;
        }
        if x.0 == formal.0 {
            return actuals[i];
        }
    }
    x
}

/// A kind with a formal's object renamed to its actual.
pub fn renamed_out(formals: &[SymId], actuals: &[SymId], out: Out) -> Out
    ensures { seen_out result ≡ renamed_out (zip (numbers formals.now) (numbers actuals.now)) (seen_out out) }
{
    match out {
        Out::Ordinary => Out::Ordinary,
        Out::Object(x) => Out::Object(actual_of(formals, actuals, x)),
    }
}

#[tactic(auto, using(crate::proofs::ListLemmas::renamed_step, crate::proofs::ListLemmas::outs_push, crate::proofs::ListLemmas::renamed_end))]
fn renamed_outs(
    alloc: Global,
    formals: &[SymId],
    actuals: &[SymId],
    outs: &[Out],
) -> Result<Items<Out>, AllocError>
    ensures { IfOk result (λ os. seen_outs os ≡ map (renamed_out (zip (numbers formals.now) (numbers actuals.now))) (seen_outs outs.now)) }
{
    let mut renamed = Items::new(alloc);
    for out in outs {
        renamed.push(renamed_out(formals, actuals, *out))?;
    }
    Ok(renamed)
}

/// A signature with each object formal renamed to its actual. None exactly where there are not as many actuals as object
/// formals, one is not congruent to its formal, or one stands twice.
#[tactic(auto, using(crate::proofs::InstanceLemmas::instance_there, crate::proofs::InstanceLemmas::instance_apart, crate::proofs::InstanceLemmas::instance_twice))]
pub fn instantiate(
    alloc: Global,
    world: &World,
    heap: &Heap,
    signature: &Signature,
    actuals: &[SymId],
) -> Result<Option<Signature>, AllocError>
    ensures { IfOk result (λ r. option_map seen_signature r ≡ instance_of (seen_world heap.now world.now) (seen_signature signature.now) (numbers actuals.now)) }
{
    let formals = stobjs(alloc, signature.ins.as_slice())?;
    if !all_congruent(world, heap, formals.as_slice(), actuals) {
        return Ok(None);
    }
    if repeats(actuals) {
        return Ok(None);
    }
    let ins = renamed_outs(alloc, formals.as_slice(), actuals, signature.ins.as_slice())?;
    let outs = renamed_outs(
        alloc,
        formals.as_slice(),
        actuals,
        signature.outs.as_slice(),
    )?;
    Ok(Some(Signature { ins, outs }))
}
