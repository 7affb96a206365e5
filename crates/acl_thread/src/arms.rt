//! What is left to do at each variant of a form once its parts are done.

ghost use Rattle.std.specs.Prelude.{◌≡◌, ◌<◌, ◌≤◌, ◌^◌, ◌∷◌, [], ◌&&◌, false, length, not, is_some, nat_eq, Some, None, IfOk, option_map};
ghost use Rattle.std.specs.Option.{option_or, option_map_or};
ghost use Rattle.std.specs.List.{list_any};
ghost use Rattle.model_terms.specs.declared.rule.Rule.TheVariants.{S1, S2, S4, S5, S6, S7, S8, S9, S12, S13, S14, S16};
ghost use Rattle.model_terms.specs.Cores as cores;
ghost use Rattle.model_terms.specs.Worlds as worlds;
ghost use Rattle.model_terms.specs.Worlds.{definition};
ghost use Rattle.model_terms.specs.Accessors.{is_internal, runs};
ghost use Rattle.model_terms.specs.Classes.{is_stobj_name, repeats};
ghost use Rattle.model_terms.specs.Nested.{same_kinds, stobjs_expected};
ghost use Rattle.model_terms.specs.Outputs.{outputs, part_kinds};
ghost use Rattle.model_terms.specs.Rules.{mv_fails, s13_fails, s14_fails};
ghost use Rattle.model_terms.specs.Scopes.{kind_of, name_kinds};
ghost use Rattle.model_terms_laws.specs.Parts.{fault_down};
ghost use Rattle.acl_terms.specs.Depths.{depth_of};
ghost use Rattle.acl_terms.specs.Forms.{numbers, seen_core, seen_cores, CoreLies};
ghost use Rattle.acl_terms.specs.Signatures.{seen_name, seen_outs, seen_scope};
ghost use Rattle.acl_worlds.specs.Contents.{seen_world};
ghost use Rattle.acl_thread.specs.Own.{full, when, own_rule, known_or_one, object_variables};
ghost use Rattle.acl_thread.specs.Walks.{seen_fault, at_form};

use crate::calls::call_rule;
use crate::ends::{Bound, Walked, finish, finish_first, finish_if, finish_let, finish_second};
use crate::fault::Fault;
use crate::given::single;
use crate::own::{
    branch_rule, const_rule, let_rule, mv_let_rule, mv_rule, stobj_let_rule, var_rule,
    with_local_rule,
};
use acl_base::SymId;
use acl_heap::Heap;
use acl_nest::{check_let, check_local};
use acl_outputs::{outputs, part_kinds};
use acl_terms::{Core, Mode, Out, Scope};
use acl_worlds::World;
use std::alloc::{AllocError, Global};

/// A variable.
pub fn at_var(
    alloc: Global,
    world: &World,
    heap: &Heap,
    mode: Mode,
    scope: &Scope,
    formal: Option<SymId>,
    expected: &[Out],
    x: SymId,
) -> Result<Walked, AllocError>
    ensures outputs { IfOk result (λ r. option_map seen_outs r.outputs ≡ Some (kind_of (seen_scope scope.now) x.0 ∷ [])) }
    ensures fault { IfOk result (λ r. option_map seen_fault r.fault ≡ option_or (at_form (own_rule (seen_world heap.now world.now) mode (seen_scope scope.now) (cores.Var x.0) (seen_name formal) (seen_outs expected.now))) None) }
{
    let rule = var_rule(world, heap, mode, scope, formal, expected, x);
    let outputs = single(alloc, scope.kind_of(x))?;
    Ok(finish(alloc, rule, outputs, None))
}

/// A constant.
pub fn at_const(
    alloc: Global,
    mode: Mode,
    formal: Option<SymId>,
    expected: &[Out],
) -> Result<Walked, AllocError>
    ensures outputs { IfOk result (λ r. option_map seen_outs r.outputs ≡ Some (worlds.Ordinary ∷ [])) }
    ensures fault { IfOk result (λ r. option_map seen_fault r.fault ≡ option_or (at_form (when (full mode && is_some (seen_name formal)) S1 (when (full mode && not (same_kinds (worlds.Ordinary ∷ []) (seen_outs expected.now))) S8 None))) None) }
{
    let rule = const_rule(mode, formal, expected);
    let outputs = single(alloc, Out::Ordinary)?;
    Ok(finish(alloc, rule, outputs, None))
}

/// An `IF`, by its test and its branches.
pub fn close_if(
    alloc: Global,
    mode: Mode,
    formal: Option<SymId>,
    test: Walked,
    then: Walked,
    other: Walked,
) -> Result<Walked, AllocError>
    ensures outputs { IfOk result (λ r. option_map seen_outs r.outputs ≡ option_or (option_map seen_outs then.outputs) (option_map seen_outs other.outputs)) }
    ensures fault { IfOk result (λ r. option_map seen_fault r.fault ≡ option_or (at_form (when (full mode && is_some (seen_name formal)) S1 (when (full mode && not (same_kinds (known_or_one (option_map seen_outs then.outputs)) (known_or_one (option_map seen_outs other.outputs)))) S7 None))) (option_or (fault_down 0 (option_map seen_fault test.fault)) (option_or (fault_down 1 (option_map seen_fault then.fault)) (fault_down 2 (option_map seen_fault other.fault))))) }
{
    let rule = branch_rule(mode, formal, &then.outputs, &other.outputs);
    let walked = finish_if(alloc, rule, test, then, other)?;
    Ok(walked)
}

/// A `LET` of so many names, by what it binds and its body.
pub fn close_let(
    alloc: Global,
    world: &World,
    heap: &Heap,
    mode: Mode,
    formal: Option<SymId>,
    expected: &[Out],
    names: &[SymId],
    count: usize,
    bound: Bound,
    body: Walked,
) -> Result<Walked, AllocError>
    requires { count < 2 ^ 32 }
    ensures outputs { IfOk result (λ r. option_map seen_outs r.outputs ≡ option_map seen_outs body.outputs) }
    ensures fault { IfOk result (λ r. option_map seen_fault r.fault ≡ option_or (at_form (when (full mode && is_some (seen_name formal)) S1 (when (full mode && (list_any (is_stobj_name (seen_world heap.now world.now)) (numbers names.now) && not (nat_eq (length (numbers names.now)) 1))) S4 (when (full mode && bound.wrong) S5 (when (full mode && not (stobjs_expected (name_kinds (seen_world heap.now world.now) (numbers names.now)) (seen_outs expected.now))) S6 None))))) (option_or (option_map seen_fault bound.fault) (fault_down count (option_map seen_fault body.fault)))) }
{
    let Bound { fault, wrong } = bound;
    let rule = let_rule(alloc, world, heap, mode, formal, expected, names, wrong)?;
    let walked = finish_let(alloc, rule, fault, count as u32, body)?;
    Ok(walked)
}

/// An `MV`, by the first fault among its parts.
pub fn close_mv(
    alloc: Global,
    heap: &Heap,
    mode: Mode,
    scope: &Scope,
    formal: Option<SymId>,
    expected: &[Out],
    parts: &[Core],
    below: Option<Fault>,
) -> Result<Walked, AllocError>
    ensures outputs { IfOk result (λ r. option_map seen_outs r.outputs ≡ Some (part_kinds (seen_scope scope.now) (cores.cores (seen_cores heap.now parts.now)))) }
    ensures fault { IfOk result (λ r. option_map seen_fault r.fault ≡ option_or (at_form (when (full mode && is_some (seen_name formal)) S1 (when (full mode && mv_fails (seen_outs expected.now) (cores.cores (seen_cores heap.now parts.now))) S9 None))) (option_map seen_fault below)) }
{
    let rule = mv_rule(alloc, heap, mode, formal, expected, parts)?;
    let kinds = part_kinds(alloc, scope, parts, heap)?;
    Ok(finish(alloc, rule, Some(kinds), below))
}

/// An `MV-LET`, by its bound form and its body.
pub fn close_mv_let(
    alloc: Global,
    mode: Mode,
    formal: Option<SymId>,
    expected: &[Out],
    kinds: &[Out],
    bound: Walked,
    body: Walked,
) -> Result<Walked, AllocError>
    ensures outputs { IfOk result (λ r. option_map seen_outs r.outputs ≡ option_map seen_outs body.outputs) }
    ensures fault { IfOk result (λ r. option_map seen_fault r.fault ≡ option_or (at_form (when (full mode && is_some (seen_name formal)) S1 (when (full mode && not (stobjs_expected (seen_outs kinds.now) (seen_outs expected.now))) S6 (when (full mode && not (same_kinds (known_or_one (option_map seen_outs bound.outputs)) (seen_outs kinds.now))) S9 None)))) (option_or (fault_down 0 (option_map seen_fault bound.fault)) (fault_down 1 (option_map seen_fault body.fault)))) }
{
    let rule = mv_let_rule(alloc, mode, formal, expected, kinds, &bound.outputs)?;
    let walked = finish_second(alloc, rule, bound, body)?;
    Ok(walked)
}

/// A `STOBJ-LET`, by its producer and its consumer.
pub fn close_stobj_let(
    alloc: Global,
    world: &World,
    heap: &Heap,
    mode: Mode,
    scope: &Scope,
    formal: Option<SymId>,
    expected: &[Out],
    core: &Core,
    producer: Walked,
    consumer: Walked,
) -> Result<Walked, AllocError>
    requires { CoreLies heap.now core.now }
    ensures outputs { IfOk result (λ r. option_map seen_outs r.outputs ≡ option_map seen_outs consumer.outputs) }
    ensures fault { IfOk result (λ r. option_map seen_fault r.fault ≡ option_or (at_form (when (full mode && is_some (seen_name formal)) S1 (when (full mode && not (not (s13_fails (seen_world heap.now world.now) (seen_scope scope.now) (seen_outs expected.now) (seen_core heap.now core.now)))) S13 (when (not (full mode)) S16 None)))) (option_or (fault_down 0 (option_map seen_fault producer.fault)) (fault_down 1 (option_map seen_fault consumer.fault)))) }
{
    let holds = check_let(alloc, core, scope, expected, world, heap)?;
    let rule = stobj_let_rule(mode, formal, holds);
    let walked = finish_second(alloc, rule, producer, consumer)?;
    Ok(walked)
}

/// A `WITH-LOCAL-STOBJ`, by its producer and its body.
pub fn close_with_local(
    alloc: Global,
    world: &World,
    heap: &Heap,
    mode: Mode,
    scope: &Scope,
    formal: Option<SymId>,
    expected: &[Out],
    core: &Core,
    producer: Walked,
    body: Walked,
) -> Result<Walked, AllocError>
    requires { depth_of (seen_core heap.now core.now) ≤ 2048 }
    ensures outputs { IfOk result (λ r. option_map seen_outs r.outputs ≡ option_map seen_outs body.outputs) }
    ensures fault { IfOk result (λ r. option_map seen_fault r.fault ≡ option_or (at_form (when (full mode && is_some (seen_name formal)) S1 (when (full mode && not (not (s14_fails (seen_world heap.now world.now) (seen_scope scope.now) (seen_outs expected.now) (seen_core heap.now core.now)))) S14 (when (not (full mode)) S16 None)))) (option_or (fault_down 0 (option_map seen_fault producer.fault)) (fault_down 1 (option_map seen_fault body.fault)))) }
{
    let holds = check_local(alloc, core, scope, expected, world, heap)?;
    let rule = with_local_rule(mode, formal, holds);
    let walked = finish_second(alloc, rule, producer, body)?;
    Ok(walked)
}

/// A `MUST-BE-EQUAL`, by its two parts.
pub fn close_must_be_equal(
    alloc: Global,
    mode: Mode,
    formal: Option<SymId>,
    logic: Walked,
    exec: Walked,
) -> Result<Walked, AllocError>
    ensures outputs { IfOk result (λ r. option_map seen_outs r.outputs ≡ option_map seen_outs logic.outputs) }
    ensures fault { IfOk result (λ r. option_map seen_fault r.fault ≡ option_or (at_form (when (full mode && is_some (seen_name formal)) S1 (when (full mode && not (same_kinds (known_or_one (option_map seen_outs logic.outputs)) (known_or_one (option_map seen_outs exec.outputs)))) S7 None))) (option_or (fault_down 0 (option_map seen_fault logic.fault)) (fault_down 1 (option_map seen_fault exec.fault)))) }
{
    let rule = branch_rule(mode, formal, &logic.outputs, &exec.outputs);
    let walked = finish_first(alloc, rule, logic, exec)?;
    Ok(walked)
}

/// A call, by the kinds of its formals and the first fault among its actuals.
pub fn close_call(
    alloc: Global,
    world: &World,
    heap: &Heap,
    mode: Mode,
    scope: &Scope,
    formal: Option<SymId>,
    expected: &[Out],
    core: &Core,
    f: SymId,
    ins: &[Out],
    actuals: &[Core],
    below: Option<Fault>,
) -> Result<Walked, AllocError>
    requires { depth_of (seen_core heap.now core.now) ≤ 2048 }
    ensures outputs { IfOk result (λ r. option_map seen_outs r.outputs ≡ outputs (seen_world heap.now world.now) [] (seen_scope scope.now) (seen_core heap.now core.now)) }
    ensures fault { IfOk result (λ r. option_map seen_fault r.fault ≡ option_or (at_form (when (full mode && is_some (seen_name formal)) S1 (when (full mode && repeats (object_variables (seen_outs ins.now) (cores.cores (seen_cores heap.now actuals.now)))) S2 (when (full mode && not (same_kinds (known_or_one (option_map seen_outs r.outputs)) (seen_outs expected.now))) S8 (when (full mode && option_map_or (is_internal (seen_world heap.now world.now)) (definition (seen_world heap.now world.now) f.0) false) S12 (when (full mode && not (runs (seen_world heap.now world.now) f.0)) S16 None)))))) (option_map seen_fault below)) }
{
    let given = outputs(alloc, world, heap, &[], scope, core)?;
    let rule = call_rule(
        alloc, world, heap, mode, formal, expected, f, ins, actuals, &given,
    )?;
    Ok(finish(alloc, rule, given, below))
}
