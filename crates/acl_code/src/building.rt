//! The walk over a form that fills the table.

ghost use Rattle.std.specs.Prelude.{◌≡◌, ◌+◌, ◌<◌, ℕ, length, IfOk, OnOk, OnErr};
ghost use Rattle.model_terms.specs.Cores as cores;
ghost use Rattle.model_slots.specs.Environments.{all_bound, ordinary_bound, formal_environment};
ghost use Rattle.model_slots.specs.Resolved.{resolved, all_resolved};
ghost use Rattle.acl_terms.specs.Forms.{numbers, seen_core, seen_cores, seen_bound};
ghost use Rattle.acl_worlds.specs.Contents.{seen_world};
ghost use Rattle.acl_code.specs.Environments.{seen_environment};
ghost use Rattle.acl_code.specs.Constants.{ConstantsAreKnown, FormIsKnown, FormsAreKnown};
ghost use Rattle.acl_code.specs.Sizes.{Fits, FitParts, FitBound};
ghost use Rattle.acl_code.specs.Tables.{Grown, TermsLie, IsBuilt, AreBuilt, IfNone};

use crate::environment::{Environment, bind_all, bind_ordinary, slot_behind};
use crate::finish::{
    finish_call, finish_const, finish_if, finish_let, finish_must_be_equal, finish_mv,
    finish_mv_let, finish_stobj_let, finish_var, finish_with_local,
};
use crate::loans::{children, number, variable_operand};
use crate::table::Terms;
use acl_base::{SymId, TermId};
use acl_heap::Heap;
use acl_outputs::names_of;
use acl_terms::Core;
use acl_worlds::World;
use sqlite_items::Items;
use std::alloc::{AllocError, Global};

/// The term of a form whose own values begin at the slot `at`. The environment is as before afterwards.
#[cycle(building)]
fn build_in(
    alloc: Global,
    terms: &mut Terms,
    world: &World,
    heap: &Heap,
    environment: &mut Environment,
    at: u64,
    core: &Core,
) -> Result<Option<TermId>, AllocError>
    requires words { TermsLie heap.now terms.old }
    requires fits { Fits heap.now at core.now }
    ensures built { IfOk result (λ r. IsBuilt heap.now terms.new r (resolved (seen_world heap.now world.now) (seen_environment environment.old) at (seen_core heap.now core.now))) }
    ensures environment { OnOk result (environment.new ≡ environment.old) }
    ensures grows { Grown terms.old terms.new }
    ensures words { TermsLie heap.now terms.new }
    ensures known { (n : ℕ) → 1 < n → FormIsKnown n (seen_core heap.now core.now) → ConstantsAreKnown n heap.now terms.old → ConstantsAreKnown n heap.now terms.new }
{
    match core {
        Core::Var(x) => {
            let variable = variable_operand(environment, heap, *x);
            let t = finish_var(terms, heap, variable)?;
            Ok(t)
        }
        Core::Const(word) => {
            let t = finish_const(terms, heap, *word)?;
            Ok(t)
        }
        Core::If(test, then, other) => {
            let test = build_in(alloc, terms, world, heap, environment, at, test.get())?;
            let then = build_in(alloc, terms, world, heap, environment, at, then.get())?;
            let other = build_in(alloc, terms, world, heap, environment, at, other.get())?;
            let t = finish_if(terms, heap, at, test, then, other)?;
            Ok(t)
        }
        Core::Let(bindings, body) => {
            let bound = bindings.as_slice();
            let parts = build_bound(alloc, terms, world, heap, environment, at, bound)?;
            let names = names_of(alloc, bound)?;
            let names = names.as_slice();
            let body = body.get();
            let body = build_under(alloc, terms, world, heap, environment, names, at, body)?;
            let t = finish_let(terms, heap, at, parts, body)?;
            Ok(t)
        }
        Core::Mv(parts) => {
            let parts = parts.as_slice();
            let parts = build_parts(alloc, terms, world, heap, environment, at, parts)?;
            let t = finish_mv(terms, heap, at, parts)?;
            Ok(t)
        }
        Core::MvLet(names, bound, body) => {
            let names = names.as_slice();
            let bound = build_in(alloc, terms, world, heap, environment, at, bound.get())?;
            let body = body.get();
            let body = build_under(alloc, terms, world, heap, environment, names, at, body)?;
            let t = finish_mv_let(terms, heap, at, bound, body)?;
            Ok(t)
        }
        Core::StobjLet {
            bindings,
            vars,
            producer,
            consumer,
        } => {
            let vars = vars.as_slice();
            let bound = bindings.as_slice();
            let lent = children(alloc, world, heap, environment, vars, bound)?;
            let names = names_of(alloc, bound)?;
            let names = names.as_slice();
            let made = producer.get();
            let made = build_inside(alloc, terms, world, heap, environment, names, at, made)?;
            let used = consumer.get();
            let used = build_under(alloc, terms, world, heap, environment, vars, at, used)?;
            let t = finish_stobj_let(terms, heap, at, lent, made, used)?;
            Ok(t)
        }
        Core::WithLocal {
            stobj,
            names,
            producer,
            body,
        } => {
            let own = &[*stobj];
            let names = names.as_slice();
            let made = producer.get();
            let made = build_inside(alloc, terms, world, heap, environment, own, at, made)?;
            let body = body.get();
            let body = build_under(alloc, terms, world, heap, environment, names, at, body)?;
            let t = finish_with_local(terms, heap, at, *stobj, made, body)?;
            Ok(t)
        }
        Core::MustBeEqual(logic, _) => {
            let logic = build_in(alloc, terms, world, heap, environment, at, logic.get())?;
            let t = finish_must_be_equal(terms, heap, logic)?;
            Ok(t)
        }
        Core::Call(f, actuals) => {
            let function = number(world, heap, *f);
            let actuals = actuals.as_slice();
            let actuals = build_parts(alloc, terms, world, heap, environment, at, actuals)?;
            let t = finish_call(terms, heap, at, function, actuals)?;
            Ok(t)
        }
    }
}

/// The term of a form under names that have slots from `at` on, a stobj the variable that it had.
#[cycle(building)]
fn build_under(
    alloc: Global,
    terms: &mut Terms,
    world: &World,
    heap: &Heap,
    environment: &mut Environment,
    names: &[SymId],
    at: u64,
    body: &Core,
) -> Result<Option<TermId>, AllocError>
    requires words { TermsLie heap.now terms.old }
    requires fits { Fits heap.now (at + length (numbers names.now)) body.now }
    ensures built { IfOk result (λ r. IsBuilt heap.now terms.new r (resolved (seen_world heap.now world.now) (ordinary_bound (seen_world heap.now world.now) at (numbers names.now) (seen_environment environment.old)) (at + length (numbers names.now)) (seen_core heap.now body.now))) }
    ensures environment { OnOk result (environment.new ≡ environment.old) }
    ensures grows { Grown terms.old terms.new }
    ensures words { TermsLie heap.now terms.new }
    ensures known { (n : ℕ) → 1 < n → FormIsKnown n (seen_core heap.now body.now) → ConstantsAreKnown n heap.now terms.old → ConstantsAreKnown n heap.now terms.new }
{
    let mark = environment.len();
    let inner = bind_ordinary(environment, world, heap, names, at)?;
    let t = build_in(alloc, terms, world, heap, environment, inner, body)?;
    environment.cut(mark);
    Ok(t)
}

/// The same where each name has a variable of its own.
#[cycle(building)]
fn build_inside(
    alloc: Global,
    terms: &mut Terms,
    world: &World,
    heap: &Heap,
    environment: &mut Environment,
    names: &[SymId],
    at: u64,
    body: &Core,
) -> Result<Option<TermId>, AllocError>
    requires words { TermsLie heap.now terms.old }
    requires fits { Fits heap.now (at + length (numbers names.now)) body.now }
    ensures built { IfOk result (λ r. IsBuilt heap.now terms.new r (resolved (seen_world heap.now world.now) (all_bound at (numbers names.now) (seen_environment environment.old)) (at + length (numbers names.now)) (seen_core heap.now body.now))) }
    ensures environment { OnOk result (environment.new ≡ environment.old) }
    ensures grows { Grown terms.old terms.new }
    ensures words { TermsLie heap.now terms.new }
    ensures known { (n : ℕ) → 1 < n → FormIsKnown n (seen_core heap.now body.now) → ConstantsAreKnown n heap.now terms.old → ConstantsAreKnown n heap.now terms.new }
{
    let mark = environment.len();
    let inner = bind_all(environment, names, at)?;
    let t = build_in(alloc, terms, world, heap, environment, inner, body)?;
    environment.cut(mark);
    Ok(t)
}

/// The terms of parts, each a slot further on.
#[cycle(building)]
fn build_parts(
    alloc: Global,
    terms: &mut Terms,
    world: &World,
    heap: &Heap,
    environment: &mut Environment,
    at: u64,
    parts: &[Core],
) -> Result<Option<Items<TermId>>, AllocError>
    requires words { TermsLie heap.now terms.old }
    requires fits { FitParts heap.now at parts.now }
    ensures built { IfOk result (λ r. AreBuilt heap.now terms.new r (all_resolved (seen_world heap.now world.now) (seen_environment environment.old) at (cores.cores (seen_cores heap.now parts.now)))) }
    ensures environment { OnOk result (environment.new ≡ environment.old) }
    ensures grows { Grown terms.old terms.new }
    ensures words { TermsLie heap.now terms.new }
    ensures known { (n : ℕ) → 1 < n → FormsAreKnown n (cores.cores (seen_cores heap.now parts.now)) → ConstantsAreKnown n heap.now terms.old → ConstantsAreKnown n heap.now terms.new }
{
    let mut found = Items::new(alloc);
    for (i, part) in parts.iter().enumerate() {
        let slot = slot_behind(at, i);
        match build_in(alloc, terms, world, heap, environment, slot, part)? {
            Some(t) => found.push(t)?,
            None => return Ok(None),
        }
    }
    Ok(Some(found))
}

/// The terms of the forms that are bound, each a slot further on.
#[cycle(building)]
fn build_bound(
    alloc: Global,
    terms: &mut Terms,
    world: &World,
    heap: &Heap,
    environment: &mut Environment,
    at: u64,
    bindings: &[(SymId, Core)],
) -> Result<Option<Items<TermId>>, AllocError>
    requires words { TermsLie heap.now terms.old }
    requires fits { FitBound heap.now at bindings.now }
    ensures built { IfOk result (λ r. AreBuilt heap.now terms.new r (all_resolved (seen_world heap.now world.now) (seen_environment environment.old) at (cores.cores (seen_bound heap.now bindings.now)))) }
    ensures environment { OnOk result (environment.new ≡ environment.old) }
    ensures grows { Grown terms.old terms.new }
    ensures words { TermsLie heap.now terms.new }
    ensures known { (n : ℕ) → 1 < n → FormsAreKnown n (cores.cores (seen_bound heap.now bindings.now)) → ConstantsAreKnown n heap.now terms.old → ConstantsAreKnown n heap.now terms.new }
{
    let mut found = Items::new(alloc);
    for (i, binding) in bindings.iter().enumerate() {
        let slot = slot_behind(at, i);
        match build_in(alloc, terms, world, heap, environment, slot, &binding.1)? {
            Some(t) => found.push(t)?,
            None => return Ok(None),
        }
    }
    Ok(Some(found))
}

/// The term of a body under formals. Where there is none, terms of its parts may stand last.
#[tactic(auto, using(crate::proofs::BuildLemmas::body_built, crate::proofs::BuildLemmas::body_fits))]
fn build_body(
    alloc: Global,
    terms: &mut Terms,
    world: &World,
    heap: &Heap,
    formals: &[SymId],
    body: &Core,
) -> Result<Option<TermId>, AllocError>
    requires words { TermsLie heap.now terms.old }
    requires fits { Fits heap.now (length formals.now) body.now }
    ensures built { IfOk result (λ r. IsBuilt heap.now terms.new r (resolved (seen_world heap.now world.now) (formal_environment (numbers formals.now)) (length formals.now) (seen_core heap.now body.now))) }
    ensures grows { Grown terms.old terms.new }
    ensures words { TermsLie heap.now terms.new }
    ensures known { (n : ℕ) → 1 < n → FormIsKnown n (seen_core heap.now body.now) → ConstantsAreKnown n heap.now terms.old → ConstantsAreKnown n heap.now terms.new }
{
    let mut environment = Environment::new(alloc);
    let t = build_inside(
        alloc,
        terms,
        world,
        heap,
        &mut environment,
        formals,
        0,
        body,
    )?;
    Ok(t)
}

/// The term of a body under formals, the first of which has slot 0, with the terms of its parts before it. None exactly
/// where the body has no tree: a function does not stand, or what a `STOBJ-LET` binds reaches no child. The table is then as
/// it was, and so it is for want of memory. The recursion is at most 2,048 deep.
pub fn build(
    alloc: Global,
    terms: &mut Terms,
    world: &World,
    heap: &Heap,
    formals: &[SymId],
    body: &Core,
) -> Result<Option<TermId>, AllocError>
    requires words { TermsLie heap.now terms.old }
    requires fits { Fits heap.now (length formals.now) body.now }
    ensures built { IfOk result (λ r. IsBuilt heap.now terms.new r (resolved (seen_world heap.now world.now) (formal_environment (numbers formals.now)) (length formals.now) (seen_core heap.now body.now))) }
    ensures none { IfOk result (λ r. IfNone r (terms.new ≡ terms.old)) }
    ensures err { OnErr result (terms.new ≡ terms.old) }
    ensures grows { Grown terms.old terms.new }
    ensures words { TermsLie heap.now terms.new }
    ensures known { (n : ℕ) → 1 < n → FormIsKnown n (seen_core heap.now body.now) → ConstantsAreKnown n heap.now terms.old → ConstantsAreKnown n heap.now terms.new }
{
    let mark = terms.len();
    match build_body(alloc, terms, world, heap, formals, body) {
        Ok(built) => match built {
            Some(t) => Ok(Some(t)),
            None => {
                terms.cut_to(mark);
                Ok(None)
            }
        },
        Err(e) => {
            terms.cut_to(mark);
            Err(e)
        }
    }
}
