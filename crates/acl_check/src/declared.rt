//! What is declared of formals.

ghost use Rattle.std.specs.Prelude.{◌≡◌, ◌++◌, ◌∷◌, [], ◌&&◌, map, not, IfOk};
ghost use Rattle.std.specs.List.{list_any};
ghost use Rattle.model_terms.specs.Classes.{has, is_stobj_name};
ghost use Rattle.model_terms.specs.Faults.{s10_fails, ordinary_scope};
ghost use Rattle.acl_terms.specs.Forms.{numbers};
ghost use Rattle.acl_terms.specs.Signatures.{seen_scope};
ghost use Rattle.acl_worlds.specs.Contents.{seen_world};
ghost use Rattle.acl_check.specs.Members.{is_undeclared, is_no_formal};

use acl_base::SymId;
use acl_heap::Heap;
use acl_outputs::{has, is_stobj_name};
use acl_terms::{Entry, Out, Scope};
use acl_worlds::World;
use std::alloc::{AllocError, Global};

/// Whether a formal names an object and is not declared as one.
fn is_undeclared(world: &World, heap: &Heap, stobjs: &[SymId], x: SymId) -> bool
    ensures { result ≡ is_undeclared (seen_world heap.now world.now) (numbers stobjs.now) x.0 }
{
    let object = is_stobj_name(world, heap, x);
    let declared = has(stobjs, x);
    object & !declared
}

/// Whether a declared name is no formal that names an object.
fn is_no_formal(world: &World, heap: &Heap, formals: &[SymId], x: SymId) -> bool
    ensures { result ≡ is_no_formal (seen_world heap.now world.now) (numbers formals.now) x.0 }
{
    let formal = has(formals, x);
    let object = is_stobj_name(world, heap, x);
    !(formal & object)
}

#[tactic(auto, using(crate::proofs::MemberLemmas::undeclared_step, crate::proofs::MemberLemmas::undeclared_end))]
fn any_undeclared(world: &World, heap: &Heap, stobjs: &[SymId], formals: &[SymId]) -> bool
    ensures { result ≡ list_any (is_undeclared (seen_world heap.now world.now) (numbers stobjs.now)) (numbers formals.now) }
{
    for formal in formals {
        if is_undeclared(world, heap, stobjs, *formal) {
            return true;
        }
    }
    false
}

#[tactic(auto, using(crate::proofs::MemberLemmas::no_formal_step, crate::proofs::MemberLemmas::no_formal_end))]
fn any_no_formal(world: &World, heap: &Heap, formals: &[SymId], stobjs: &[SymId]) -> bool
    ensures { result ≡ list_any (is_no_formal (seen_world heap.now world.now) (numbers formals.now)) (numbers stobjs.now) }
{
    for name in stobjs {
        if is_no_formal(world, heap, formals, *name) {
            return true;
        }
    }
    false
}

/// S10: a formal that names an object is not declared as one, or a declared name is no such formal.
pub fn fails_s10(world: &World, heap: &Heap, formals: &[SymId], stobjs: &[SymId]) -> bool
    ensures { result ≡ s10_fails (seen_world heap.now world.now) (numbers formals.now) (numbers stobjs.now) }
{
    let undeclared = any_undeclared(world, heap, stobjs, formals);
    let other = any_no_formal(world, heap, formals, stobjs);
    undeclared | other
}

/// The scope of names that are all ordinary.
#[tactic(auto, using(crate::proofs::MemberLemmas::ordinary_step, crate::proofs::MemberLemmas::ordinary_end, acl_outputs::proofs::ScopeLemmas::scope_push))]
pub fn ordinary_scope(alloc: Global, names: &[SymId]) -> Result<Scope, AllocError>
    ensures { IfOk result (λ s. seen_scope s ≡ ordinary_scope (numbers names.now)) }
{
    let mut scope = Scope::new(alloc);
    for name in names {
        scope.push(Entry {
            name: *name,
            kind: Out::Ordinary,
        })?;
    }
    Ok(scope)
}
