//! What is read off the parts of a form.

ghost use Rattle.std.specs.Prelude.{◌≡◌, ◌++◌, ◌∷◌, [], ◌&&◌, map, drop, not, Some, None, IfOk, OnOk, option_map};
ghost use Rattle.std.specs.List.{list_any};
ghost use Rattle.std.specs.Option.{option_map_or};
ghost use Rattle.model_terms.specs.Cores as cores;
ghost use Rattle.model_terms.specs.Cores.{variable};
ghost use Rattle.model_terms.specs.Worlds as worlds;
ghost use Rattle.model_terms.specs.Accessors as accessors;
ghost use Rattle.model_terms.specs.Classes.{is_stobj_name};
ghost use Rattle.model_terms.specs.Outputs.{signature_in};
ghost use Rattle.model_terms.specs.Sites.{first_kind, formal_stobj, actual_kind, ins_of};
ghost use Rattle.model_terms.specs.Rules.{is_wrong_part, any_wrong_part, s12_fails};
ghost use Rattle.acl_terms.specs.Definitions.{seen_definition};
ghost use Rattle.acl_terms.specs.Forms.{numbers, seen_core, seen_cores};
ghost use Rattle.acl_terms.specs.Signatures.{seen_out, seen_outs, seen_name, seen_signature};
ghost use Rattle.acl_worlds.specs.Contents.{seen_world};
ghost use Rattle.acl_thread.specs.Own.{object_variable, object_variables, own_ins};
ghost use Rattle.acl_thread.specs.Walks.{AlikeIns};

use acl_base::SymId;
use acl_heap::Heap;
use acl_outputs::{is_stobj_name, variable};
use acl_terms::{Core, Definition, Out};
use acl_worlds::World;
use sqlite_items::Items;
use std::alloc::{AllocError, Global};

/// The kind at a place of a list, ordinary past its end.
#[tactic(auto, using(crate::proofs::PartLemmas::kind_there, crate::proofs::PartLemmas::kind_past))]
pub fn kind_at(kinds: &[Out], i: usize) -> Out
    ensures { seen_out result ≡ first_kind (seen_outs (drop i kinds.now)) }
{
    if i < kinds.len() {
        kinds[i]
    } else {
        Out::Ordinary
    }
}

/// The object of a formal in an object position.
pub fn formal_stobj(kind: Out) -> Option<SymId>
    ensures { seen_name result ≡ formal_stobj (seen_out kind) }
{
    match kind {
        Out::Ordinary => None,
        Out::Object(x) => Some(x),
    }
}

/// What is expected of an actual: in an object position the object whose variable it is.
pub fn actual_kind(kind: Out, actual: &Core, heap: &Heap) -> Out
    ensures { seen_out result ≡ actual_kind (seen_out kind) (variable (seen_core heap.now actual.now)) }
{
    match kind {
        Out::Ordinary => Out::Ordinary,
        Out::Object(x) => match variable(actual, heap) {
            None => Out::Object(x),
            Some(y) => Out::Object(y),
        },
    }
}

/// Whether one of the names is an object's.
#[tactic(auto, using(crate::proofs::PartLemmas::any_step, crate::proofs::PartLemmas::any_end))]
pub fn any_stobj(world: &World, heap: &Heap, names: &[SymId]) -> bool
    ensures { result ≡ list_any (is_stobj_name (seen_world heap.now world.now)) (numbers names.now) }
{
    for name in names {
        if is_stobj_name(world, heap, *name) {
            return true;
        }
    }
    false
}

/// Whether a part stands where an object is expected and is not its variable.
fn is_wrong_part(kind: Out, part: &Core, heap: &Heap) -> bool
    ensures { result ≡ is_wrong_part (seen_out kind) (seen_core heap.now part.now) }
{
    match kind {
        Out::Ordinary => false,
        Out::Object(x) => match variable(part, heap) {
            None => true,
            Some(y) => x.0 != y.0,
        },
    }
}

/// Whether one of the parts does.
#[tactic(auto, using(crate::proofs::PartLemmas::wrong_step, crate::proofs::PartLemmas::wrong_end))]
pub fn any_wrong_part(kinds: &[Out], parts: &[Core], heap: &Heap) -> bool
    ensures { result ≡ any_wrong_part (seen_outs kinds.now) (cores.cores (seen_cores heap.now parts.now)) }
{
    for (i, part) in parts.iter().enumerate() {
        let kind = kind_at(kinds, i);
        if is_wrong_part(kind, part, heap) {
            return true;
        }
    }
    false
}

/// Puts the variable of an object position last.
#[tactic(auto, using(acl_outputs::proofs::ListLemmas::numbers_push, acl_outputs::proofs::ListLemmas::numbers_same))]
fn put_variable(
    found: &mut Items<SymId>,
    kind: Out,
    actual: &Core,
    heap: &Heap,
) -> Result<(), AllocError>
    ensures { OnOk result (numbers found.new ≡ numbers found.old ++ object_variable (seen_out kind) (seen_core heap.now actual.now)) }
{
    match kind {
        Out::Ordinary => Ok(()),
        Out::Object(_) => match variable(actual, heap) {
            None => Ok(()),
            Some(x) => {
                found.push(x)?;
                Ok(())
            }
        },
    }
}

/// The variables in the object positions of a call.
#[tactic(auto, using(crate::proofs::PartLemmas::variables_step, crate::proofs::PartLemmas::variables_end))]
pub fn object_variables(
    alloc: Global,
    ins: &[Out],
    actuals: &[Core],
    heap: &Heap,
) -> Result<Items<SymId>, AllocError>
    ensures { IfOk result (λ xs. numbers xs ≡ object_variables (seen_outs ins.now) (cores.cores (seen_cores heap.now actuals.now))) }
{
    let mut found = Items::new(alloc);
    for (i, actual) in actuals.iter().enumerate() {
        let kind = kind_at(ins, i);
        put_variable(&mut found, kind, actual, heap)?;
    }
    Ok(found)
}

/// The kinds of a definition's formals; none stand for ordinary ones alone.
#[tactic(auto, using(crate::proofs::InLemmas::alike_same, crate::proofs::InLemmas::alike_plain))]
fn ins_in(alloc: Global, definition: &Definition, _heap: &Heap) -> Result<Items<Out>, AllocError>
    ensures { IfOk result (λ ins. AlikeIns (seen_outs ins) (own_ins (signature_in (seen_definition _heap.now definition.now)))) }
{
    let signature = match definition {
        Definition::Primitive { .. } => return Ok(Items::new(alloc)),
        Definition::Function(function) => &function.signature,
        Definition::Macro(_) => return Ok(Items::new(alloc)),
        Definition::Constant { .. } => return Ok(Items::new(alloc)),
        Definition::Object { .. } => return Ok(Items::new(alloc)),
        Definition::Generated(function) => &function.signature,
        Definition::Abstract(_) => return Ok(Items::new(alloc)),
        Definition::OfAbstract(function) => &function.signature,
        Definition::Named { .. } => return Ok(Items::new(alloc)),
        Definition::Signed { signature, .. } => signature,
    };
    let ins = Items::from_slice(alloc, signature.ins.as_slice())?;
    Ok(ins)
}

/// The kinds of a function's formals; none stand for ordinary ones alone.
#[tactic(auto, using(crate::proofs::InLemmas::ins_there, crate::proofs::InLemmas::ins_nowhere))]
pub fn called_ins(
    alloc: Global,
    world: &World,
    heap: &Heap,
    f: SymId,
) -> Result<Items<Out>, AllocError>
    ensures { IfOk result (λ ins. AlikeIns (seen_outs ins) (ins_of (seen_world heap.now world.now) f.0)) }
{
    match world.look(f, heap) {
        Some(definition) => {
            let ins = ins_in(alloc, definition, heap)?;
            Ok(ins)
        }
        None => Ok(Items::new(alloc)),
    }
}
