//! The first fault of a ready form.

ghost use Rattle.std.specs.Prelude.{◌≡◌, ◌≤◌, ◌+◌, None, length, option_map};
ghost use Rattle.std.specs.Option.{option_or};
ghost use Rattle.model_terms.specs.Cores as cores;
ghost use Rattle.model_terms.specs.Worlds as worlds;
ghost use Rattle.model_expansion.specs.Expansion.{ready_fault, ready_faults, head_fault, arity_of};
ghost use Rattle.acl_terms.specs.Forms.{seen_core, seen_cores, seen_bound};
ghost use Rattle.acl_worlds.specs.Contents.{seen_world, WorldLies};
ghost use Rattle.acl_expand.specs.Looks.{seen_fault, setting_at};

use acl_base::{Limits, SymId};
use acl_expand::head_fault;
use acl_heap::Heap;
use acl_syms::Symbols;
use acl_terms::{Core, ExpandFault};
use acl_worlds::World;

/// The first node of a ready form that is too deep, or that calls what is no function of so many arguments.
#[cycle(faults)]
#[tactic(auto, using(crate::proofs::ReadyLemmas::no_room, crate::proofs::ReadyLemmas::fault_var, crate::proofs::ReadyLemmas::fault_const, crate::proofs::ReadyLemmas::fault_if, crate::proofs::ReadyLemmas::fault_mv, crate::proofs::ReadyLemmas::fault_mv_let, crate::proofs::ReadyLemmas::fault_local, crate::proofs::ReadyLemmas::fault_equal))]
pub fn form_fault(
    heap: &Heap,
    syms: &Symbols,
    world: &World,
    limits: Limits,
    form: &Core,
    left: u32,
) -> Option<ExpandFault>
    requires { WorldLies heap.now world.now }
    ensures { option_map (seen_fault heap.now None) result ≡ ready_fault (setting_at heap.now world.now syms.now limits.steps limits.depth) (seen_core heap.now form.now) left }
{
    if left == 0 {
        return Some(ExpandFault::TooNested);
    }
    let under = left - 1;
    match form {
        Core::Var(_) => None,
        Core::Const(_) => None,
        Core::If(a, b, c) => {
            match form_fault(heap, syms, world, limits, a.get(), under) {
                Some(fault) => Some(fault),
                None => two_fault(heap, syms, world, limits, b.get(), c.get(), under),
            }
        }
        Core::Let(bindings, body) => {
            match bound_fault(heap, syms, world, limits, bindings.as_slice(), under) {
                Some(fault) => Some(fault),
                None => form_fault(heap, syms, world, limits, body.get(), under),
            }
        }
        Core::Mv(parts) => parts_fault(heap, syms, world, limits, parts.as_slice(), under),
        Core::MvLet(_, bound, body) => {
            two_fault(heap, syms, world, limits, bound.get(), body.get(), under)
        }
        Core::StobjLet {
            bindings,
            vars: _,
            producer,
            consumer,
        } => {
            match bound_fault(heap, syms, world, limits, bindings.as_slice(), under) {
                Some(fault) => Some(fault),
                None => two_fault(
                    heap,
                    syms,
                    world,
                    limits,
                    producer.get(),
                    consumer.get(),
                    under,
                ),
            }
        }
        Core::WithLocal {
            stobj: _,
            names: _,
            producer,
            body,
        } => two_fault(heap, syms, world, limits, producer.get(), body.get(), under),
        Core::MustBeEqual(logic, exec) => {
            two_fault(heap, syms, world, limits, logic.get(), exec.get(), under)
        }
        Core::Call(function, actuals) => {
            call_fault(
                heap,
                syms,
                world,
                limits,
                *function,
                actuals.as_slice(),
                under,
            )
        }
    }
}

/// The same of one form and of the next.
#[cycle(faults)]
fn two_fault(
    heap: &Heap,
    syms: &Symbols,
    world: &World,
    limits: Limits,
    first: &Core,
    second: &Core,
    left: u32,
) -> Option<ExpandFault>
    requires { WorldLies heap.now world.now }
    ensures { option_map (seen_fault heap.now None) result ≡ option_or (ready_fault (setting_at heap.now world.now syms.now limits.steps limits.depth) (seen_core heap.now first.now) left) (ready_fault (setting_at heap.now world.now syms.now limits.steps limits.depth) (seen_core heap.now second.now) left) }
{
    match form_fault(heap, syms, world, limits, first, left) {
        Some(fault) => Some(fault),
        None => form_fault(heap, syms, world, limits, second, left),
    }
}

/// The same of a call.
#[cycle(faults)]
fn call_fault(
    heap: &Heap,
    syms: &Symbols,
    world: &World,
    limits: Limits,
    function: SymId,
    actuals: &[Core],
    left: u32,
) -> Option<ExpandFault>
    requires { WorldLies heap.now world.now }
    ensures { option_map (seen_fault heap.now None) result ≡ option_or (head_fault (setting_at heap.now world.now syms.now limits.steps limits.depth) function.0 (length actuals.now) (arity_of (worlds.definition (seen_world heap.now world.now) function.0))) (ready_faults (setting_at heap.now world.now syms.now limits.steps limits.depth) (cores.cores (seen_cores heap.now actuals.now)) left) }
{
    let count = actuals.len();
    match head_fault(heap, syms, world, limits, function, count) {
        Some(fault) => Some(fault),
        None => parts_fault(heap, syms, world, limits, actuals, left),
    }
}

/// The first fault of the forms in a row.
#[cycle(faults)]
fn parts_fault(
    heap: &Heap,
    syms: &Symbols,
    world: &World,
    limits: Limits,
    parts: &[Core],
    left: u32,
) -> Option<ExpandFault>
    requires { WorldLies heap.now world.now }
    ensures { option_map (seen_fault heap.now None) result ≡ ready_faults (setting_at heap.now world.now syms.now limits.steps limits.depth) (cores.cores (seen_cores heap.now parts.now)) left }
{
    'parts: for part in parts {
        match form_fault(heap, syms, world, limits, part, left) {
            Some(fault) => return Some(fault),
            None => {}
        }
    }
    None
}

/// The same of what is bound.
#[cycle(faults)]
fn bound_fault(
    heap: &Heap,
    syms: &Symbols,
    world: &World,
    limits: Limits,
    bindings: &[(SymId, Core)],
    left: u32,
) -> Option<ExpandFault>
    requires { WorldLies heap.now world.now }
    ensures { option_map (seen_fault heap.now None) result ≡ ready_faults (setting_at heap.now world.now syms.now limits.steps limits.depth) (cores.cores (seen_bound heap.now bindings.now)) left }
{
    'bindings: for binding in bindings {
        match form_fault(heap, syms, world, limits, &binding.1, left) {
            Some(fault) => return Some(fault),
            None => {}
        }
    }
    None
}
