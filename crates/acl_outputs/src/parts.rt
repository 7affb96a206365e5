//! What is read off the parts of a form.

ghost use Rattle.std.specs.Prelude.{◌≡◌, ◌++◌, ◌∷◌, [], map, Some, None, nat_eq, IfOk, OnOk, option_map, if◌then◌else◌};
ghost use Rattle.std.specs.Option.{option_copied, option_map_or};
ghost use Rattle.std.specs.Map.{lookup};
ghost use Rattle.model_terms.specs.Cores as cores;
ghost use Rattle.model_terms.specs.Cores.{variable};
ghost use Rattle.model_terms.specs.Scopes.{kind_of};
ghost use Rattle.model_terms.specs.Worlds as worlds;
ghost use Rattle.model_terms.specs.Outputs.{stobj_actuals, all_there, part_kinds};
ghost use Rattle.acl_terms.specs.Forms.{numbers, seen_core, seen_cores};
ghost use Rattle.acl_terms.specs.Signatures.{seen_out, seen_outs, seen_name, seen_scope, seen_signature};
ghost use Rattle.acl_outputs.specs.Known.{seen_known, joined};

use acl_base::SymId;
use acl_heap::Heap;
use acl_terms::{Core, Out, Scope, Signature};
use sqlite_items::Items;
use std::alloc::{AllocError, Global};

/// The name of the variable that a form is.
#[tactic(auto, using(crate::proofs::PartLemmas::variable_var, crate::proofs::PartLemmas::variable_const, crate::proofs::PartLemmas::variable_if, crate::proofs::PartLemmas::variable_let, crate::proofs::PartLemmas::variable_mv, crate::proofs::PartLemmas::variable_mv_let, crate::proofs::PartLemmas::variable_stobj_let, crate::proofs::PartLemmas::variable_with_local, crate::proofs::PartLemmas::variable_must_be_equal, crate::proofs::PartLemmas::variable_call))]
pub fn variable(core: &Core, _heap: &Heap) -> Option<SymId>
    ensures { seen_name result ≡ variable (seen_core _heap.now core.now) }
{
    match core {
        Core::Var(x) => Some(*x),
        Core::Const(_) => None,
        Core::If(_, _, _) => None,
        Core::Let(_, _) => None,
        Core::Mv(_) => None,
        Core::MvLet(_, _, _) => None,
        Core::StobjLet { .. } => None,
        Core::WithLocal { .. } => None,
        Core::MustBeEqual(_, _) => None,
        Core::Call(_, _) => None,
    }
}

/// Puts the variable of an object position last; false where there is none.
#[tactic(auto, using(crate::proofs::PartLemmas::there_ordinary, crate::proofs::PartLemmas::there_some, crate::proofs::PartLemmas::there_none, crate::proofs::ListLemmas::numbers_push))]
fn put_actual(
    kind: Out,
    part: &Core,
    heap: &Heap,
    found: &mut Items<SymId>,
) -> Result<bool, AllocError>
    ensures { IfOk result (λ there. (if there then Some (numbers found.new) else None) ≡ joined (numbers found.old) (all_there (stobj_actuals (seen_out kind ∷ []) (cores.more (seen_core heap.now part.now) cores.none)))) }
{
    match kind {
        Out::Ordinary => Ok(true),
        Out::Object(_) => match variable(part, heap) {
            Some(x) => {
                found.push(x)?;
                Ok(true)
            }
            None => Ok(false),
        },
    }
}

/// The variables in the object positions of a call. None where another form stands in one.
#[tactic(auto, using(crate::proofs::PartLemmas::actuals_past, crate::proofs::PartLemmas::actuals_end, crate::proofs::PartLemmas::actuals_start))]
pub fn stobj_actuals(
    alloc: Global,
    ins: &[Out],
    parts: &[Core],
    heap: &Heap,
) -> Result<Option<Items<SymId>>, AllocError>
    ensures { IfOk result (λ r. option_map numbers r ≡ all_there (stobj_actuals (seen_outs ins.now) (cores.cores (seen_cores heap.now parts.now)))) }
{
    let mut found = Items::new(alloc);
    for (i, kind) in ins.iter().enumerate() {
        if i >= parts.len() {
            return Ok(Some(found));
        }
        let there = put_actual(*kind, &parts[i], heap, &mut found)?;
        if !there {
            return Ok(None);
        }
    }
    Ok(Some(found))
}

/// The kind of a part of an `MV`: an object where it is the variable of one in scope.
fn part_kind(scope: &Scope, part: &Core, heap: &Heap) -> Out
    ensures { seen_out result ≡ option_map_or (kind_of (seen_scope scope.now)) (variable (seen_core heap.now part.now)) worlds.Ordinary }
{
    match variable(part, heap) {
        Some(x) => scope.kind_of(x),
        None => Out::Ordinary,
    }
}

/// The kinds of the parts of an `MV`. Each variable costs one look-up.
#[tactic(auto, using(crate::proofs::PartLemmas::kinds_step, crate::proofs::PartLemmas::kinds_end, crate::proofs::ListLemmas::outs_push))]
pub fn part_kinds(
    alloc: Global,
    scope: &Scope,
    parts: &[Core],
    heap: &Heap,
) -> Result<Items<Out>, AllocError>
    ensures { IfOk result (λ os. seen_outs os ≡ part_kinds (seen_scope scope.now) (cores.cores (seen_cores heap.now parts.now))) }
{
    let mut kinds = Items::new(alloc);
    for part in parts {
        kinds.push(part_kind(scope, part, heap))?;
    }
    Ok(kinds)
}

/// The signature that is known of a function beside the world's.
#[tactic(auto, using(crate::proofs::PartLemmas::known_here, crate::proofs::PartLemmas::known_step, crate::proofs::PartLemmas::known_end))]
pub fn known_signature(known: &[(SymId, Signature)], f: SymId) -> Option<&Signature>
    ensures { option_map seen_signature (option_copied result) ≡ lookup (nat_eq f.0) (seen_known known.now) }
{
    for one in known {
        if f.0 == one.0.0 {
            return Some(&one.1);
        }
    }
    None
}
