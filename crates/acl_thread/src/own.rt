//! The rule that fails at a form itself.

ghost use Rattle.std.specs.Prelude.{◌≡◌, ◌&&◌, ◌∷◌, [], length, not, is_some, nat_eq, None, IfOk, option_map};
ghost use Rattle.std.specs.List.{list_any};
ghost use Rattle.model_terms.specs.declared.rule.Rule.TheVariants.{S1, S4, S5, S6, S7, S8, S9, S13, S14, S16};
ghost use Rattle.model_terms.specs.Cores as cores;
ghost use Rattle.model_terms.specs.Worlds as worlds;
ghost use Rattle.model_terms.specs.Classes.{is_stobj_name};
ghost use Rattle.model_terms.specs.Nested.{same_kinds, stobjs_expected};
ghost use Rattle.model_terms.specs.Scopes.{in_scope, name_kinds};
ghost use Rattle.model_terms.specs.Rules.{s1_fails, is_misplaced, s8_fails, mv_fails, s11_fails, s15_fails};
ghost use Rattle.acl_terms.specs.Forms.{numbers, seen_cores};
ghost use Rattle.acl_terms.specs.Signatures.{seen_name, seen_outs, seen_scope};
ghost use Rattle.acl_worlds.specs.Contents.{seen_world};
ghost use Rattle.acl_thread.specs.Own.{full, when, own_rule, known_or_one};

use crate::fault::when;
use crate::given::{give_same, gives};
use crate::parts::{any_stobj, any_wrong_part};
use acl_base::SymId;
use acl_heap::Heap;
use acl_nest::{is_object, name_kinds, same_kinds, stobjs_expected};
use acl_outputs::{congruent, is_stobj_name, repeats, stobjs};
use acl_terms::{Core, Mode, Out, Rule, Scope};
use acl_worlds::World;
use sqlite_items::Items;
use std::alloc::{AllocError, Global};

/// Whether all rules are tested.
pub fn is_full(mode: Mode) -> bool
    ensures { result ≡ full mode }
{
    match mode {
        Mode::Executable => true,
        Mode::Logic => false,
        Mode::Macro => true,
    }
}

/// S1, at a variable.
fn is_no_actual(world: &World, heap: &Heap, scope: &Scope, formal: Option<SymId>, x: SymId) -> bool
    ensures { result ≡ s1_fails (seen_world heap.now world.now) (seen_scope scope.now) (seen_name formal) (cores.Var x.0) }
{
    match formal {
        None => false,
        Some(object) => {
            let stands = is_object(scope.kind_of(x)) & congruent(world, heap, object, x);
            !stands
        }
    }
}

/// S3.
fn is_misplaced(scope: &Scope, expected: &[Out], x: SymId) -> bool
    ensures { result ≡ is_misplaced (seen_scope scope.now) (seen_outs expected.now) x.0 }
{
    let object = is_object(scope.kind_of(x));
    let ordinary = same_kinds(expected, &[Out::Ordinary]);
    object & ordinary
}

/// S8, at a variable.
fn gives_another(world: &World, heap: &Heap, scope: &Scope, expected: &[Out], x: SymId) -> bool
    ensures { result ≡ s8_fails (seen_world heap.now world.now) (seen_scope scope.now) (seen_outs expected.now) (cores.Var x.0) }
{
    let misplaced = is_misplaced(scope, expected, x);
    let same = same_kinds(&[scope.kind_of(x)], expected);
    !misplaced & !same
}

fn is_in_scope(scope: &Scope, x: SymId) -> bool
    ensures { result ≡ in_scope (seen_scope scope.now) x.0 }
{
    match scope.kind_in(x) {
        Some(_) => true,
        None => false,
    }
}

/// S11.
fn is_unbound(world: &World, heap: &Heap, mode: Mode, scope: &Scope, x: SymId) -> bool
    ensures { result ≡ s11_fails (seen_world heap.now world.now) mode (seen_scope scope.now) (cores.Var x.0) }
{
    let bound = is_in_scope(scope, x);
    match mode {
        Mode::Executable => !bound,
        Mode::Logic => !bound,
        Mode::Macro => {
            let named = is_stobj_name(world, heap, x);
            !bound & !named
        }
    }
}

/// S15.
fn is_object_in_macro(world: &World, heap: &Heap, mode: Mode, x: SymId) -> bool
    ensures { result ≡ s15_fails (seen_world heap.now world.now) mode (cores.Var x.0) }
{
    match mode {
        Mode::Executable => false,
        Mode::Logic => false,
        Mode::Macro => is_stobj_name(world, heap, x),
    }
}

/// The rule that fails at a variable.
#[tactic(auto, using(crate::proofs::RuleLemmas::own_var))]
pub fn var_rule(
    world: &World,
    heap: &Heap,
    mode: Mode,
    scope: &Scope,
    formal: Option<SymId>,
    expected: &[Out],
    x: SymId,
) -> Option<Rule>
    ensures { result ≡ own_rule (seen_world heap.now world.now) mode (seen_scope scope.now) (cores.Var x.0) (seen_name formal) (seen_outs expected.now) }
{
    let tested = is_full(mode);
    let s1 = is_no_actual(world, heap, scope, formal, x);
    let s3 = is_misplaced(scope, expected, x);
    let s8 = gives_another(world, heap, scope, expected, x);
    let s11 = is_unbound(world, heap, mode, scope, x);
    let s15 = is_object_in_macro(world, heap, mode, x);
    let names = when(s11, Rule::S11, when(s15, Rule::S15, None));
    when(
        tested & s1,
        Rule::S1,
        when(tested & s3, Rule::S3, when(tested & s8, Rule::S8, names)),
    )
}

/// S1, at what is no variable.
pub fn is_given(formal: Option<SymId>) -> bool
    ensures { result ≡ is_some (seen_name formal) }
{
    match formal {
        Some(_) => true,
        None => false,
    }
}

/// The rule that fails at a constant.
pub fn const_rule(mode: Mode, formal: Option<SymId>, expected: &[Out]) -> Option<Rule>
    ensures { result ≡ when (full mode && is_some (seen_name formal)) S1 (when (full mode && not (same_kinds (worlds.Ordinary ∷ []) (seen_outs expected.now))) S8 None) }
{
    let tested = is_full(mode);
    let same = same_kinds(&[Out::Ordinary], expected);
    when(
        tested & is_given(formal),
        Rule::S1,
        when(tested & !same, Rule::S8, None),
    )
}

/// The rule that fails at an `IF` or a `MUST-BE-EQUAL` by what its two parts give.
pub fn branch_rule(
    mode: Mode,
    formal: Option<SymId>,
    first: &Option<Items<Out>>,
    second: &Option<Items<Out>>,
) -> Option<Rule>
    ensures { result ≡ when (full mode && is_some (seen_name formal)) S1 (when (full mode && not (same_kinds (known_or_one (option_map seen_outs first.now)) (known_or_one (option_map seen_outs second.now)))) S7 None) }
{
    let tested = is_full(mode);
    let same = give_same(first, second);
    when(
        tested & is_given(formal),
        Rule::S1,
        when(tested & !same, Rule::S7, None),
    )
}

/// S4.
fn binds_more(world: &World, heap: &Heap, names: &[SymId]) -> bool
    ensures { result ≡ list_any (is_stobj_name (seen_world heap.now world.now)) (numbers names.now) && not (nat_eq (length (numbers names.now)) 1) }
{
    let object = any_stobj(world, heap, names);
    let more = names.len() != 1;
    object & more
}

/// The rule that fails at a `LET`, where `wrong` says whether an object is bound to what does not give it.
pub fn let_rule(
    alloc: Global,
    world: &World,
    heap: &Heap,
    mode: Mode,
    formal: Option<SymId>,
    expected: &[Out],
    names: &[SymId],
    wrong: bool,
) -> Result<Option<Rule>, AllocError>
    ensures { IfOk result (λ r. r ≡ when (full mode && is_some (seen_name formal)) S1 (when (full mode && (list_any (is_stobj_name (seen_world heap.now world.now)) (numbers names.now) && not (nat_eq (length (numbers names.now)) 1))) S4 (when (full mode && wrong) S5 (when (full mode && not (stobjs_expected (name_kinds (seen_world heap.now world.now) (numbers names.now)) (seen_outs expected.now))) S6 None)))) }
{
    let tested = is_full(mode);
    let s4 = binds_more(world, heap, names);
    let kinds = name_kinds(alloc, world, heap, names)?;
    let expects = stobjs_expected(alloc, kinds.as_slice(), expected)?;
    let later = when(
        tested & wrong,
        Rule::S5,
        when(tested & !expects, Rule::S6, None),
    );
    Ok(when(
        tested & is_given(formal),
        Rule::S1,
        when(tested & s4, Rule::S4, later),
    ))
}

/// S9, at an `MV`.
#[tactic(auto, using(crate::proofs::PartLemmas::mv_is))]
fn fails_mv(
    alloc: Global,
    heap: &Heap,
    expected: &[Out],
    parts: &[Core],
) -> Result<bool, AllocError>
    ensures { IfOk result (λ b. b ≡ mv_fails (seen_outs expected.now) (cores.cores (seen_cores heap.now parts.now))) }
{
    let uneven = parts.len() != expected.len();
    let wrong = any_wrong_part(expected, parts, heap);
    let wanted = stobjs(alloc, expected)?;
    let twice = repeats(wanted.as_slice());
    Ok(uneven | (wrong | twice))
}

/// The rule that fails at an `MV`.
pub fn mv_rule(
    alloc: Global,
    heap: &Heap,
    mode: Mode,
    formal: Option<SymId>,
    expected: &[Out],
    parts: &[Core],
) -> Result<Option<Rule>, AllocError>
    ensures { IfOk result (λ r. r ≡ when (full mode && is_some (seen_name formal)) S1 (when (full mode && mv_fails (seen_outs expected.now) (cores.cores (seen_cores heap.now parts.now))) S9 None)) }
{
    let tested = is_full(mode);
    let s9 = fails_mv(alloc, heap, expected, parts)?;
    Ok(when(
        tested & is_given(formal),
        Rule::S1,
        when(tested & s9, Rule::S9, None),
    ))
}

/// The rule that fails at an `MV-LET` by what its bound form gives.
pub fn mv_let_rule(
    alloc: Global,
    mode: Mode,
    formal: Option<SymId>,
    expected: &[Out],
    kinds: &[Out],
    given: &Option<Items<Out>>,
) -> Result<Option<Rule>, AllocError>
    ensures { IfOk result (λ r. r ≡ when (full mode && is_some (seen_name formal)) S1 (when (full mode && not (stobjs_expected (seen_outs kinds.now) (seen_outs expected.now))) S6 (when (full mode && not (same_kinds (known_or_one (option_map seen_outs given.now)) (seen_outs kinds.now))) S9 None))) }
{
    let tested = is_full(mode);
    let expects = stobjs_expected(alloc, kinds, expected)?;
    let same = gives(given, kinds);
    Ok(when(
        tested & is_given(formal),
        Rule::S1,
        when(
            tested & !expects,
            Rule::S6,
            when(tested & !same, Rule::S9, None),
        ),
    ))
}

/// The rule that fails at a `STOBJ-LET`, by whether its conditions hold.
pub fn stobj_let_rule(mode: Mode, formal: Option<SymId>, holds: bool) -> Option<Rule>
    ensures { result ≡ when (full mode && is_some (seen_name formal)) S1 (when (full mode && not holds) S13 (when (not (full mode)) S16 None)) }
{
    let tested = is_full(mode);
    when(
        tested & is_given(formal),
        Rule::S1,
        when(tested & !holds, Rule::S13, when(!tested, Rule::S16, None)),
    )
}

/// The rule that fails at a `WITH-LOCAL-STOBJ`, by whether its conditions hold.
pub fn with_local_rule(mode: Mode, formal: Option<SymId>, holds: bool) -> Option<Rule>
    ensures { result ≡ when (full mode && is_some (seen_name formal)) S1 (when (full mode && not holds) S14 (when (not (full mode)) S16 None)) }
{
    let tested = is_full(mode);
    when(
        tested & is_given(formal),
        Rule::S1,
        when(tested & !holds, Rule::S14, when(!tested, Rule::S16, None)),
    )
}
