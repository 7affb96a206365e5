//! Functions that are being admitted.

ghost use Rattle.std.specs.Prelude.{◌≡◌, ◌++◌, ◌∷◌, [], map, IfOk};
ghost use Rattle.model_terms.specs.Rounds.{formal_kind, formal_entry};
ghost use Rattle.acl_terms.specs.Forms.{numbers};
ghost use Rattle.acl_terms.specs.Signatures.{seen_out, seen_outs, seen_entry, seen_scope};
ghost use Rattle.acl_worlds.specs.Contents.{seen_world};

use acl_base::SymId;
use acl_heap::Heap;
use acl_outputs::{has, name_kind};
use acl_terms::{Core, Entry, Out, Scope};
use acl_worlds::World;
use sqlite_items::Items;
use std::alloc::{AllocError, Global};

/// A function that is being admitted.
#[derive(Debug, Drop)]
pub struct Member {
    pub name: SymId,
    pub formals: Items<SymId>,
    /// The names that are declared as objects.
    pub stobjs: Items<SymId>,
    pub guard: Core,
    pub body: Core,
}

/// The kind of a formal: an object where it is declared as one and names one.
pub fn formal_kind(world: &World, heap: &Heap, stobjs: &[SymId], x: SymId) -> Out
    ensures { seen_out result ≡ formal_kind (seen_world heap.now world.now) (numbers stobjs.now) x.0 }
{
    if has(stobjs, x) {
        name_kind(world, heap, x)
    } else {
        Out::Ordinary
    }
}

/// The kinds of formals.
#[tactic(auto, using(crate::proofs::MemberLemmas::kinds_step, crate::proofs::MemberLemmas::kinds_end, acl_outputs::proofs::ListLemmas::outs_push))]
pub fn formal_kinds(
    alloc: Global,
    world: &World,
    heap: &Heap,
    stobjs: &[SymId],
    formals: &[SymId],
) -> Result<Items<Out>, AllocError>
    ensures { IfOk result (λ ks. seen_outs ks ≡ map (formal_kind (seen_world heap.now world.now) (numbers stobjs.now)) (numbers formals.now)) }
{
    let mut kinds = Items::new(alloc);
    for formal in formals {
        kinds.push(formal_kind(world, heap, stobjs, *formal))?;
    }
    Ok(kinds)
}

fn formal_entry(world: &World, heap: &Heap, stobjs: &[SymId], name: SymId) -> Entry
    ensures { seen_entry result ≡ formal_entry (seen_world heap.now world.now) (numbers stobjs.now) name.0 }
{
    Entry {
        name,
        kind: formal_kind(world, heap, stobjs, name),
    }
}

/// The scope of formals.
#[tactic(auto, using(crate::proofs::MemberLemmas::entries_step, crate::proofs::MemberLemmas::entries_end, acl_outputs::proofs::ScopeLemmas::scope_push))]
pub fn formal_scope(
    alloc: Global,
    world: &World,
    heap: &Heap,
    stobjs: &[SymId],
    formals: &[SymId],
) -> Result<Scope, AllocError>
    ensures { IfOk result (λ s. seen_scope s ≡ map (formal_entry (seen_world heap.now world.now) (numbers stobjs.now)) (numbers formals.now)) }
{
    let mut scope = Scope::new(alloc);
    for formal in formals {
        scope.push(formal_entry(world, heap, stobjs, *formal))?;
    }
    Ok(scope)
}
