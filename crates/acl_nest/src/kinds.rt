//! Lists of kinds.

ghost use Rattle.std.specs.Prelude.{◌≡◌, ◌≤◌, ◌++◌, ◌∷◌, [], IfOk, OnOk};
ghost use Rattle.std.specs.List.{list_all};
ghost use Rattle.model_terms.specs.Classes.{has, stobjs};
ghost use Rattle.model_terms.specs.Scopes.{name_kinds};
ghost use Rattle.model_terms.specs.Outputs.{outs};
ghost use Rattle.model_terms.specs.Nested.{is_stobj, same_kind, same_kinds, stobjs_expected};
ghost use Rattle.acl_terms.specs.Depths.{depth_of};
ghost use Rattle.acl_terms.specs.Forms.{numbers, seen_core};
ghost use Rattle.acl_terms.specs.Signatures.{seen_out, seen_outs, seen_scope};
ghost use Rattle.acl_worlds.specs.Contents.{seen_world};

use acl_base::SymId;
use acl_heap::Heap;
use acl_outputs::{has, name_kind, outputs, stobjs};
use acl_terms::{Core, Out, Scope};
use acl_worlds::World;
use sqlite_items::Items;
use std::alloc::{AllocError, Global};

/// Whether the kind is an object's.
pub fn is_object(kind: Out) -> bool
    ensures { result ≡ is_stobj (seen_out kind) }
{
    match kind {
        Out::Ordinary => false,
        Out::Object(_) => true,
    }
}

/// Whether both are ordinary, or one object.
pub fn same_kind(a: Out, b: Out) -> bool
    ensures { result ≡ same_kind (seen_out a) (seen_out b) }
{
    match a {
        Out::Ordinary => match b {
            Out::Ordinary => true,
            Out::Object(_) => false,
        },
        Out::Object(x) => match b {
            Out::Ordinary => false,
            Out::Object(y) => x.0 == y.0,
        },
    }
}

/// Whether the kinds are the same, one by one.
#[tactic(auto, using(crate::proofs::KindLemmas::same_step, crate::proofs::KindLemmas::same_short, crate::proofs::KindLemmas::same_end, crate::proofs::KindLemmas::same_long))]
pub fn same_kinds(first: &[Out], second: &[Out]) -> bool
    ensures { result ≡ same_kinds (seen_outs first.now) (seen_outs second.now) }
{
    for (i, kind) in first.iter().enumerate() {
        if i >= second.len() {
            return false;
        }
        if !same_kind(*kind, second[i]) {
            return false;
        }
    }
    second.len() <= first.len()
}

/// The kinds that names have where they are bound.
#[tactic(auto, using(crate::proofs::KindLemmas::kinds_step, crate::proofs::KindLemmas::kinds_end, acl_outputs::proofs::ListLemmas::outs_push))]
pub fn name_kinds(
    alloc: Global,
    world: &World,
    heap: &Heap,
    names: &[SymId],
) -> Result<Items<Out>, AllocError>
    ensures { IfOk result (λ os. seen_outs os ≡ name_kinds (seen_world heap.now world.now) (numbers names.now)) }
{
    let mut kinds = Items::new(alloc);
    for name in names {
        kinds.push(name_kind(world, heap, *name))?;
    }
    Ok(kinds)
}

#[tactic(auto, using(crate::proofs::KindLemmas::among_step, crate::proofs::KindLemmas::among_end))]
fn all_among(names: &[SymId], among: &[SymId]) -> bool
    ensures { result ≡ list_all (has (numbers among.now)) (numbers names.now) }
{
    for name in names {
        if !has(among, *name) {
            return false;
        }
    }
    true
}

/// Whether the stobjs among the kinds are all expected.
pub fn stobjs_expected(alloc: Global, kinds: &[Out], expected: &[Out]) -> Result<bool, AllocError>
    ensures { IfOk result (λ b. b ≡ stobjs_expected (seen_outs kinds.now) (seen_outs expected.now)) }
{
    let given = stobjs(alloc, kinds)?;
    let wanted = stobjs(alloc, expected)?;
    Ok(all_among(given.as_slice(), wanted.as_slice()))
}

/// The outputs by text of a form in a world where every function has a signature; one ordinary where none are known.
pub fn outs(
    alloc: Global,
    world: &World,
    heap: &Heap,
    scope: &Scope,
    core: &Core,
) -> Result<Items<Out>, AllocError>
    requires { depth_of (seen_core heap.now core.now) ≤ 2048 }
    ensures { IfOk result (λ os. seen_outs os ≡ outs (seen_world heap.now world.now) (seen_scope scope.now) (seen_core heap.now core.now)) }
{
    match outputs(alloc, world, heap, &[], scope, core)? {
        Some(known) => Ok(known),
        None => {
            let mut one = Items::new(alloc);
            one.push(Out::Ordinary)?;
            Ok(one)
        }
    }
}
