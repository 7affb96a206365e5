//! The outputs by text of core forms.

ghost use Rattle.std.specs.Prelude.{◌≡◌, ◌≤◌, ◌∷◌, [], Some, None, IfOk, OnOk, option_map};
ghost use Rattle.model_terms.specs.Cores as cores;
ghost use Rattle.model_terms.specs.Worlds as worlds;
ghost use Rattle.model_terms.specs.Outputs.{signature_in, signature_of, call_outs, outputs};
ghost use Rattle.acl_terms.specs.Depths.{depth_of};
ghost use Rattle.acl_terms.specs.Definitions.{seen_definition, FitsTable};
ghost use Rattle.acl_terms.specs.Forms.{seen_core, seen_cores};
ghost use Rattle.acl_terms.specs.Signatures.{seen_outs, seen_scope, seen_signature};
ghost use Rattle.acl_worlds.specs.Contents.{seen_world};
ghost use Rattle.acl_outputs.specs.Known.{seen_known};

use crate::instances::instantiate;
use crate::parts::{known_signature, part_kinds, stobj_actuals};
use crate::scopes::{bind, body_scope, consumer_scope, names_of};
use acl_base::SymId;
use acl_heap::Heap;
use acl_terms::{Core, Definition, Out, Scope, Signature};
use acl_worlds::World;
use sqlite_items::Items;
use std::alloc::{AllocError, Global};

fn single(alloc: Global, out: Out) -> Result<Items<Out>, AllocError>
    ensures { IfOk result (λ os. os ≡ out ∷ []) }
{
    let mut outs = Items::new(alloc);
    outs.push(out)?;
    Ok(outs)
}

/// The outputs of a signature at these actuals: those of its instance, or its own where there is none.
#[tactic(auto, using(crate::proofs::CallLemmas::call_instance, crate::proofs::CallLemmas::call_apart, crate::proofs::CallLemmas::call_other))]
fn call_outs(
    alloc: Global,
    world: &World,
    heap: &Heap,
    signature: &Signature,
    actuals: &[Core],
) -> Result<Items<Out>, AllocError>
    ensures { IfOk result (λ os. seen_outs os ≡ call_outs (seen_world heap.now world.now) (seen_signature signature.now) (cores.cores (seen_cores heap.now actuals.now))) }
{
    match stobj_actuals(alloc, signature.ins.as_slice(), actuals, heap)? {
        None => Items::from_slice(alloc, signature.outs.as_slice()),
        Some(names) => match instantiate(alloc, world, heap, signature, names.as_slice())? {
            None => Items::from_slice(alloc, signature.outs.as_slice()),
            Some(instance) => Ok(instance.outs),
        },
    }
}

/// The outputs of a definition at these actuals, where it has a signature.
#[tactic(auto, using(crate::proofs::CallLemmas::call_plain))]
fn definition_outs(
    alloc: Global,
    world: &World,
    heap: &Heap,
    definition: &Definition,
    actuals: &[Core],
) -> Result<Option<Items<Out>>, AllocError>
    ensures { IfOk result (λ r. option_map seen_outs r ≡ option_map (λ s. call_outs (seen_world heap.now world.now) s (cores.cores (seen_cores heap.now actuals.now))) (signature_in (seen_definition heap.now definition.now))) }
{
    let signature = match definition {
        Definition::Primitive { .. } => return Ok(Some(single(alloc, Out::Ordinary)?)),
        Definition::Function(function) => &function.signature,
        Definition::Macro(_) => return Ok(None),
        Definition::Constant { .. } => return Ok(None),
        Definition::Object { .. } => return Ok(None),
        Definition::Generated(function) => &function.signature,
        Definition::Abstract(_) => return Ok(None),
        Definition::OfAbstract(function) => &function.signature,
        Definition::Named { .. } => return Ok(None),
        Definition::Signed { signature, .. } => signature,
    };
    let outs = call_outs(alloc, world, heap, signature, actuals)?;
    Ok(Some(outs))
}

/// The outputs of a function at these actuals, where its signature is known.
#[tactic(auto, using(crate::proofs::CallLemmas::called_known, crate::proofs::CallLemmas::called_defined, crate::proofs::CallLemmas::called_nowhere))]
fn called_outs(
    alloc: Global,
    world: &World,
    heap: &Heap,
    known: &[(SymId, Signature)],
    f: SymId,
    actuals: &[Core],
) -> Result<Option<Items<Out>>, AllocError>
    ensures { IfOk result (λ r. option_map seen_outs r ≡ option_map (λ s. call_outs (seen_world heap.now world.now) s (cores.cores (seen_cores heap.now actuals.now))) (signature_of (seen_world heap.now world.now) (seen_known known.now) f.0)) }
{
    match known_signature(known, f) {
        Some(signature) => {
            let outs = call_outs(alloc, world, heap, signature, actuals)?;
            Ok(Some(outs))
        }
        None => match world.look(f, heap) {
            Some(definition) => {
                let outs = definition_outs(alloc, world, heap, definition, actuals)?;
                Ok(outs)
            }
            None => Ok(None),
        },
    }
}

/// The outputs of a form in a scope, which is as before afterwards. The recursion is as deep as the form.
#[tactic(auto, using(crate::proofs::FormLemmas::out_var, crate::proofs::FormLemmas::out_const, crate::proofs::FormLemmas::out_if, crate::proofs::FormLemmas::out_let, crate::proofs::FormLemmas::out_mv, crate::proofs::FormLemmas::out_mv_let, crate::proofs::FormLemmas::out_stobj_let, crate::proofs::FormLemmas::out_with_local, crate::proofs::FormLemmas::out_must_be_equal, crate::proofs::FormLemmas::out_call, crate::proofs::FormLemmas::then_depth, crate::proofs::FormLemmas::else_depth, crate::proofs::FormLemmas::let_depth, crate::proofs::FormLemmas::mv_let_depth, crate::proofs::FormLemmas::stobj_let_depth, crate::proofs::FormLemmas::with_local_depth, crate::proofs::FormLemmas::must_be_equal_depth))]
fn outputs_in(
    alloc: Global,
    world: &World,
    heap: &Heap,
    known: &[(SymId, Signature)],
    scope: &mut Scope,
    core: &Core,
) -> Result<Option<Items<Out>>, AllocError>
    requires { depth_of (seen_core heap.now core.now) ≤ 2048 }
    ensures is { IfOk result (λ r. option_map seen_outs r ≡ outputs (seen_world heap.now world.now) (seen_known known.now) (seen_scope scope.old) (seen_core heap.now core.now)) }
    ensures scope { OnOk result (scope.new ≡ scope.old) }
{
    match core {
        Core::Var(x) => {
            let outs = single(alloc, scope.kind_of(*x))?;
            Ok(Some(outs))
        }
        Core::Const(_) => {
            let outs = single(alloc, Out::Ordinary)?;
            Ok(Some(outs))
        }
        Core::If(_, then, other) => {
            match outputs_in(alloc, world, heap, known, scope, then.get())? {
                Some(outs) => Ok(Some(outs)),
                None => {
                    let outs = outputs_in(alloc, world, heap, known, scope, other.get())?;
                    Ok(outs)
                }
            }
        }
        Core::Let(bindings, body) => {
            let names = names_of(alloc, bindings.as_slice())?;
            let mark = scope.len();
            bind(scope, world, heap, names.as_slice())?;
            let outs = outputs_in(alloc, world, heap, known, scope, body.get())?;
            scope.cut(mark);
            Ok(outs)
        }
        Core::Mv(parts) => {
            let outs = part_kinds(alloc, scope, parts.as_slice(), heap)?;
            Ok(Some(outs))
        }
        Core::MvLet(names, _, body) => {
            let mark = scope.len();
            bind(scope, world, heap, names.as_slice())?;
            let outs = outputs_in(alloc, world, heap, known, scope, body.get())?;
            scope.cut(mark);
            Ok(outs)
        }
        Core::StobjLet {
            bindings,
            vars,
            consumer,
            ..
        } => {
            let mut inner = consumer_scope(
                alloc,
                world,
                heap,
                scope,
                bindings.as_slice(),
                vars.as_slice(),
            )?;
            let outs = outputs_in(alloc, world, heap, known, &mut inner, consumer.get())?;
            Ok(outs)
        }
        Core::WithLocal {
            stobj,
            names,
            body,
            ..
        } => {
            let mut inner = body_scope(alloc, world, heap, scope, *stobj, names.as_slice())?;
            let outs = outputs_in(alloc, world, heap, known, &mut inner, body.get())?;
            Ok(outs)
        }
        Core::MustBeEqual(logic, _) => {
            let outs = outputs_in(alloc, world, heap, known, scope, logic.get())?;
            Ok(outs)
        }
        Core::Call(f, actuals) => {
            let outs = called_outs(alloc, world, heap, known, *f, actuals.as_slice())?;
            Ok(outs)
        }
    }
}

/// The outputs of a form in a copy of a scope.
fn outputs_in_copy(
    alloc: Global,
    world: &World,
    heap: &Heap,
    known: &[(SymId, Signature)],
    scope: &Scope,
    core: &Core,
) -> Result<Option<Items<Out>>, AllocError>
    requires { depth_of (seen_core heap.now core.now) ≤ 2048 }
    ensures { IfOk result (λ r. option_map seen_outs r ≡ outputs (seen_world heap.now world.now) (seen_known known.now) (seen_scope scope.now) (seen_core heap.now core.now)) }
{
    let mut inner = Scope::from_entries(alloc, scope.entries())?;
    let outs = outputs_in(alloc, world, heap, known, &mut inner, core)?;
    Ok(outs)
}

/// The outputs by text of a form, where the signatures in `known` count beside the world's. None exactly where they are
/// not known, since a function that they rest on has no signature yet. The recursion is at most 2,048 deep; a form costs
/// its way down to the place that its outputs come from, and `IF` both branches at most. A form that may bind names on
/// that way copies the scope once; a variable, a constant, an `MV` and a call copy none of it.
pub fn outputs(
    alloc: Global,
    world: &World,
    heap: &Heap,
    known: &[(SymId, Signature)],
    scope: &Scope,
    core: &Core,
) -> Result<Option<Items<Out>>, AllocError>
    requires { depth_of (seen_core heap.now core.now) ≤ 2048 }
    ensures { IfOk result (λ r. option_map seen_outs r ≡ outputs (seen_world heap.now world.now) (seen_known known.now) (seen_scope scope.now) (seen_core heap.now core.now)) }
{
    match core {
        Core::Var(x) => {
            let outs = single(alloc, scope.kind_of(*x))?;
            Ok(Some(outs))
        }
        Core::Const(_) => {
            let outs = single(alloc, Out::Ordinary)?;
            Ok(Some(outs))
        }
        Core::If(_, _, _) => outputs_in_copy(alloc, world, heap, known, scope, core),
        Core::Let(_, _) => outputs_in_copy(alloc, world, heap, known, scope, core),
        Core::Mv(parts) => {
            let outs = part_kinds(alloc, scope, parts.as_slice(), heap)?;
            Ok(Some(outs))
        }
        Core::MvLet(_, _, _) => outputs_in_copy(alloc, world, heap, known, scope, core),
        Core::StobjLet { .. } => outputs_in_copy(alloc, world, heap, known, scope, core),
        Core::WithLocal { .. } => outputs_in_copy(alloc, world, heap, known, scope, core),
        Core::MustBeEqual(_, _) => outputs_in_copy(alloc, world, heap, known, scope, core),
        Core::Call(f, actuals) => {
            let outs = called_outs(alloc, world, heap, known, *f, actuals.as_slice())?;
            Ok(outs)
        }
    }
}
