//! The rule that fails at a call.

ghost use Rattle.std.specs.Prelude.{◌≡◌, ◌&&◌, false, not, is_some, None, IfOk, option_map};
ghost use Rattle.std.specs.Option.{option_map_or};
ghost use Rattle.model_terms.specs.declared.rule.Rule.TheVariants.{S1, S2, S8, S12, S16};
ghost use Rattle.model_terms.specs.Cores as cores;
ghost use Rattle.model_terms.specs.Worlds as worlds;
ghost use Rattle.model_terms.specs.Worlds.{definition};
ghost use Rattle.model_terms.specs.Accessors.{is_kept_back, is_creator, is_internal, is_executable, runs, held_in};
ghost use Rattle.model_terms.specs.Classes.{repeats};
ghost use Rattle.model_terms.specs.Nested.{same_kinds};
ghost use Rattle.acl_terms.specs.Definitions.{seen_definition, seen_generated};
ghost use Rattle.acl_terms.specs.Forms.{seen_cores};
ghost use Rattle.acl_terms.specs.Signatures.{seen_name, seen_outs};
ghost use Rattle.acl_worlds.specs.Contents.{seen_world};
ghost use Rattle.acl_nest.specs.Accessors.{seen_holds};
ghost use Rattle.acl_thread.specs.Own.{full, when, known_or_one, object_variables};

use crate::fault::when;
use crate::given::gives;
use crate::own::{is_full, is_given};
use crate::parts::object_variables;
use acl_base::SymId;
use acl_heap::Heap;
use acl_nest::{HeldStobjs, held_in};
use acl_outputs::repeats;
use acl_terms::{AbstractRole, Core, Definition, Mode, Out, Role, Rule};
use acl_worlds::World;
use sqlite_items::Items;
use std::alloc::{AllocError, Global};

fn is_kept_back(role: Role, holds: Option<HeldStobjs>) -> bool
    ensures { result ≡ is_kept_back role (option_map seen_holds holds) }
{
    match role {
        Role::Recognizer => false,
        Role::Creator => true,
        Role::FieldRecognizer => false,
        Role::Access => holds.is_some(),
        Role::Update => holds.is_some(),
        Role::Length => false,
        Role::Resize => false,
        Role::HashGet => false,
        Role::HashBoundp => false,
        Role::HashGetBound => false,
        Role::HashPut => false,
        Role::HashRem => false,
        Role::HashCount => false,
        Role::HashClear => false,
    }
}

fn is_creator(role: AbstractRole) -> bool
    ensures { result ≡ is_creator role }
{
    match role {
        AbstractRole::Recognizer => false,
        AbstractRole::Creator => true,
        AbstractRole::Export => false,
    }
}

/// Whether a definition is a creator, or the accessor or updater of a child.
fn is_internal(world: &World, heap: &Heap, definition: &Definition) -> bool
    ensures { result ≡ is_internal (seen_world heap.now world.now) (seen_definition heap.now definition.now) }
{
    match definition {
        Definition::Primitive { .. } => false,
        Definition::Function(_) => false,
        Definition::Macro(_) => false,
        Definition::Constant { .. } => false,
        Definition::Object { .. } => false,
        Definition::Generated(function) => {
            is_kept_back(function.role, held_in(world, heap, function))
        }
        Definition::Abstract(_) => false,
        Definition::OfAbstract(function) => is_creator(function.role),
        Definition::Named { .. } => false,
        Definition::Signed { .. } => false,
    }
}

fn is_executable(definition: &Definition, _heap: &Heap) -> bool
    ensures { result ≡ is_executable (seen_definition _heap.now definition.now) }
{
    match definition {
        Definition::Primitive { .. } => true,
        Definition::Function(function) => function.executable,
        Definition::Macro(_) => true,
        Definition::Constant { .. } => true,
        Definition::Object { .. } => true,
        Definition::Generated(_) => true,
        Definition::Abstract(_) => true,
        Definition::OfAbstract(_) => true,
        Definition::Named { .. } => true,
        Definition::Signed { executable, .. } => *executable,
    }
}

/// S12.
fn calls_internal(world: &World, heap: &Heap, f: SymId) -> bool
    ensures { result ≡ option_map_or (is_internal (seen_world heap.now world.now)) (definition (seen_world heap.now world.now) f.0) false }
{
    match world.look(f, heap) {
        Some(definition) => is_internal(world, heap, definition),
        None => false,
    }
}

/// Whether a function runs.
pub fn runs(world: &World, heap: &Heap, f: SymId) -> bool
    ensures { result ≡ runs (seen_world heap.now world.now) f.0 }
{
    match world.look(f, heap) {
        Some(definition) => is_executable(definition, heap),
        None => true,
    }
}

/// The rule that fails at a call by what it gives.
pub fn call_rule(
    alloc: Global,
    world: &World,
    heap: &Heap,
    mode: Mode,
    formal: Option<SymId>,
    expected: &[Out],
    f: SymId,
    ins: &[Out],
    actuals: &[Core],
    given: &Option<Items<Out>>,
) -> Result<Option<Rule>, AllocError>
    ensures { IfOk result (λ r. r ≡ when (full mode && is_some (seen_name formal)) S1 (when (full mode && repeats (object_variables (seen_outs ins.now) (cores.cores (seen_cores heap.now actuals.now)))) S2 (when (full mode && not (same_kinds (known_or_one (option_map seen_outs given.now)) (seen_outs expected.now))) S8 (when (full mode && option_map_or (is_internal (seen_world heap.now world.now)) (definition (seen_world heap.now world.now) f.0) false) S12 (when (full mode && not (runs (seen_world heap.now world.now) f.0)) S16 None))))) }
{
    let tested = is_full(mode);
    let named = object_variables(alloc, ins, actuals, heap)?;
    let s2 = repeats(named.as_slice());
    let same = gives(given, expected);
    let s12 = calls_internal(world, heap, f);
    let running = runs(world, heap, f);
    let called = when(
        tested & s12,
        Rule::S12,
        when(tested & !running, Rule::S16, None),
    );
    Ok(when(
        tested & is_given(formal),
        Rule::S1,
        when(
            tested & s2,
            Rule::S2,
            when(tested & !same, Rule::S8, called),
        ),
    ))
}
