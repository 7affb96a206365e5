//! The pass over a form, children first.

ghost use Rattle.std.specs.Prelude.{◌≡◌, ◌≤◌, None, IfOk, OnOk, option_map};
ghost use Rattle.model_terms.specs.Cores as cores;
ghost use Rattle.model_terms.specs.Scopes.{name_kinds};
ghost use Rattle.model_terms.specs.Rules.{any_gives_another};
ghost use Rattle.model_terms_laws.specs.Parts.{parts_fault, actuals_fault};
ghost use Rattle.acl_terms.specs.Forms.{bound_names, seen_core, seen_cores, seen_bound};
ghost use Rattle.acl_terms.specs.Signatures.{seen_name, seen_outs, seen_scope};
ghost use Rattle.acl_worlds.specs.Contents.{seen_world};
ghost use Rattle.acl_thread.specs.Sizes.{Fits, FitParts, FitBound};
ghost use Rattle.acl_thread.specs.Walks.{IsWalked, seen_fault};

use crate::arms::{
    at_const, at_var, close_call, close_if, close_let, close_must_be_equal, close_mv, close_mv_let,
    close_stobj_let, close_with_local,
};
use crate::ends::{Bound, Walked};
use crate::fault::{Fault, down, either};
use crate::given::{is_bound_wrongly, or};
use crate::parts::{actual_kind, called_ins, formal_stobj, kind_at};
use crate::scopes::{local_scope, producer_scope};
use acl_base::SymId;
use acl_heap::Heap;
use acl_nest::name_kinds;
use acl_outputs::{bind, body_scope, consumer_scope, name_kind, names_of};
use acl_terms::{Core, Mode, Out, Scope};
use acl_worlds::World;
use std::alloc::{AllocError, Global};

/// The outputs and the first fault of a form in a scope, which is as before afterwards.
#[cycle(walk)]
fn walk_form(
    alloc: Global,
    world: &World,
    heap: &Heap,
    mode: Mode,
    scope: &mut Scope,
    core: &Core,
    formal: Option<SymId>,
    expected: &[Out],
) -> Result<Walked, AllocError>
    requires fits { Fits heap.now core.now }
    ensures is { IfOk result (λ r. IsWalked (seen_world heap.now world.now) mode (seen_scope scope.old) (seen_core heap.now core.now) (seen_name formal) (seen_outs expected.now) (option_map seen_outs r.outputs) (option_map seen_fault r.fault)) }
    ensures scope { OnOk result (scope.new ≡ scope.old) }
{
    match core {
        Core::Var(x) => {
            let walked = at_var(alloc, world, heap, mode, scope, formal, expected, *x)?;
            Ok(walked)
        }
        Core::Const(_) => {
            let walked = at_const(alloc, mode, formal, expected)?;
            Ok(walked)
        }
        Core::If(a, b, c) => {
            let one = &[Out::Ordinary];
            let test = walk_form(alloc, world, heap, mode, scope, a.get(), None, one)?;
            let then = walk_form(alloc, world, heap, mode, scope, b.get(), None, expected)?;
            let other = walk_form(alloc, world, heap, mode, scope, c.get(), None, expected)?;
            let walked = close_if(alloc, mode, formal, test, then, other)?;
            Ok(walked)
        }
        Core::Let(bindings, body) => {
            let names = names_of(alloc, bindings.as_slice())?;
            let bound = walk_bound(alloc, world, heap, mode, scope, bindings.as_slice())?;
            let mark = scope.len();
            bind(scope, world, heap, names.as_slice())?;
            let inner = walk_form(alloc, world, heap, mode, scope, body.get(), None, expected)?;
            scope.cut(mark);
            let walked = close_let(
                alloc,
                world,
                heap,
                mode,
                formal,
                expected,
                names.as_slice(),
                bindings.len(),
                bound,
                inner,
            )?;
            Ok(walked)
        }
        Core::Mv(parts) => {
            let below = walk_parts(alloc, world, heap, mode, scope, parts.as_slice(), expected)?;
            let walked = close_mv(
                alloc,
                heap,
                mode,
                scope,
                formal,
                expected,
                parts.as_slice(),
                below,
            )?;
            Ok(walked)
        }
        Core::MvLet(names, given, body) => {
            let kinds = name_kinds(alloc, world, heap, names.as_slice())?;
            let wanted = kinds.as_slice();
            let first = walk_form(alloc, world, heap, mode, scope, given.get(), None, wanted)?;
            let mark = scope.len();
            bind(scope, world, heap, names.as_slice())?;
            let second = walk_form(alloc, world, heap, mode, scope, body.get(), None, expected)?;
            scope.cut(mark);
            let walked = close_mv_let(alloc, mode, formal, expected, wanted, first, second)?;
            Ok(walked)
        }
        Core::StobjLet {
            bindings,
            vars,
            producer,
            consumer,
        } => {
            let kinds = name_kinds(alloc, world, heap, vars.as_slice())?;
            let wanted = kinds.as_slice();
            let mut inner = producer_scope(alloc, world, heap, scope, bindings.as_slice())?;
            let first = walk_form(
                alloc,
                world,
                heap,
                mode,
                &mut inner,
                producer.get(),
                None,
                wanted,
            )?;
            let mut outer = consumer_scope(
                alloc,
                world,
                heap,
                scope,
                bindings.as_slice(),
                vars.as_slice(),
            )?;
            let second = walk_form(
                alloc,
                world,
                heap,
                mode,
                &mut outer,
                consumer.get(),
                None,
                expected,
            )?;
            let walked = close_stobj_let(
                alloc, world, heap, mode, scope, formal, expected, core, first, second,
            )?;
            Ok(walked)
        }
        Core::WithLocal {
            stobj,
            names,
            producer,
            body,
        } => {
            let kinds = name_kinds(alloc, world, heap, names.as_slice())?;
            let wanted = kinds.as_slice();
            let mut inner = local_scope(alloc, world, heap, scope, *stobj)?;
            let first = walk_form(
                alloc,
                world,
                heap,
                mode,
                &mut inner,
                producer.get(),
                None,
                wanted,
            )?;
            let mut outer = body_scope(alloc, world, heap, scope, *stobj, names.as_slice())?;
            let second = walk_form(
                alloc,
                world,
                heap,
                mode,
                &mut outer,
                body.get(),
                None,
                expected,
            )?;
            let walked = close_with_local(
                alloc, world, heap, mode, scope, formal, expected, core, first, second,
            )?;
            Ok(walked)
        }
        Core::MustBeEqual(logic, exec) => {
            let first = walk_form(alloc, world, heap, mode, scope, logic.get(), None, expected)?;
            let second = walk_form(alloc, world, heap, mode, scope, exec.get(), None, expected)?;
            let walked = close_must_be_equal(alloc, mode, formal, first, second)?;
            Ok(walked)
        }
        Core::Call(f, actuals) => {
            let ins = called_ins(alloc, world, heap, *f)?;
            let below = walk_actuals(
                alloc,
                world,
                heap,
                mode,
                scope,
                actuals.as_slice(),
                ins.as_slice(),
            )?;
            let walked = close_call(
                alloc,
                world,
                heap,
                mode,
                scope,
                formal,
                expected,
                core,
                *f,
                ins.as_slice(),
                actuals.as_slice(),
                below,
            )?;
            Ok(walked)
        }
    }
}

/// The first fault among the parts of an `MV`, of which each is expected to give one output.
#[cycle(walk)]
fn walk_parts(
    alloc: Global,
    world: &World,
    heap: &Heap,
    mode: Mode,
    scope: &mut Scope,
    parts: &[Core],
    kinds: &[Out],
) -> Result<Option<Fault>, AllocError>
    requires fits { FitParts heap.now parts.now }
    ensures is { IfOk result (λ r. option_map seen_fault r ≡ parts_fault (seen_world heap.now world.now) mode (seen_scope scope.old) (seen_outs kinds.now) 0 (cores.cores (seen_cores heap.now parts.now))) }
    ensures scope { OnOk result (scope.new ≡ scope.old) }
{
    let mut fault = None;
    for (i, part) in parts.iter().enumerate() {
        let kind = kind_at(kinds, i);
        let walked = walk_form(alloc, world, heap, mode, scope, part, None, &[kind])?;
        let below = down(i as u32, walked.fault)?;
        fault = either(fault, below);
    }
    Ok(fault)
}

/// The first fault among the actuals of a call.
#[cycle(walk)]
fn walk_actuals(
    alloc: Global,
    world: &World,
    heap: &Heap,
    mode: Mode,
    scope: &mut Scope,
    actuals: &[Core],
    ins: &[Out],
) -> Result<Option<Fault>, AllocError>
    requires fits { FitParts heap.now actuals.now }
    ensures is { IfOk result (λ r. option_map seen_fault r ≡ actuals_fault (seen_world heap.now world.now) mode (seen_scope scope.old) (seen_outs ins.now) 0 (cores.cores (seen_cores heap.now actuals.now))) }
    ensures scope { OnOk result (scope.new ≡ scope.old) }
{
    let mut fault = None;
    for (i, actual) in actuals.iter().enumerate() {
        let kind = kind_at(ins, i);
        let object = formal_stobj(kind);
        let given = actual_kind(kind, actual, heap);
        let walked = walk_form(alloc, world, heap, mode, scope, actual, object, &[given])?;
        let below = down(i as u32, walked.fault)?;
        fault = either(fault, below);
    }
    Ok(fault)
}

/// The first fault among the forms that a `LET` binds, and whether an object is bound to what does not give it.
#[cycle(walk)]
fn walk_bound(
    alloc: Global,
    world: &World,
    heap: &Heap,
    mode: Mode,
    scope: &mut Scope,
    bindings: &[(SymId, Core)],
) -> Result<Bound, AllocError>
    requires fits { FitBound heap.now bindings.now }
    ensures is { IfOk result (λ r. option_map seen_fault r.fault ≡ parts_fault (seen_world heap.now world.now) mode (seen_scope scope.old) (name_kinds (seen_world heap.now world.now) (bound_names bindings.now)) 0 (cores.cores (seen_bound heap.now bindings.now))) }
    ensures wrong { IfOk result (λ r. r.wrong ≡ any_gives_another (seen_world heap.now world.now) (seen_scope scope.old) (bound_names bindings.now) (cores.cores (seen_bound heap.now bindings.now))) }
    ensures scope { OnOk result (scope.new ≡ scope.old) }
{
    let mut fault = None;
    let mut wrong = false;
    for (i, binding) in bindings.iter().enumerate() {
        let kind = name_kind(world, heap, binding.0);
        let walked = walk_form(alloc, world, heap, mode, scope, &binding.1, None, &[kind])?;
        let here = is_bound_wrongly(kind, &walked.outputs);
        wrong = or(wrong, here);
        let below = down(i as u32, walked.fault)?;
        fault = either(fault, below);
    }
    Ok(Bound { fault, wrong })
}

/// The outputs by text and the first fault of a form in a scope, of which these outputs are expected; as an actual in the
/// position of an object's formal, or not. Outputs are computed once a node; the recursion is as deep as the form.
pub fn walk(
    alloc: Global,
    world: &World,
    heap: &Heap,
    mode: Mode,
    scope: &Scope,
    core: &Core,
    formal: Option<SymId>,
    expected: &[Out],
) -> Result<Walked, AllocError>
    requires { Fits heap.now core.now }
    ensures { IfOk result (λ r. IsWalked (seen_world heap.now world.now) mode (seen_scope scope.now) (seen_core heap.now core.now) (seen_name formal) (seen_outs expected.now) (option_map seen_outs r.outputs) (option_map seen_fault r.fault)) }
{
    let mut inner = Scope::from_entries(alloc, scope.entries())?;
    let walked = walk_form(alloc, world, heap, mode, &mut inner, core, formal, expected)?;
    Ok(walked)
}
