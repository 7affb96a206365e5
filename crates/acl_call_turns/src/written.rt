//! What a world has of a function, by its number.

ghost use Rattle.std.specs.Prelude.{◌≡◌, slice_get};
ghost use Rattle.acl_call_turns.specs.Calls.{formals_in, body_in, name_in_option};

use acl_base::{FnId, SymId, TermId};
use acl_terms::Definition;
use acl_worlds::World;

/// The formals of a function; what has none has no formals.
#[tactic(auto, using(crate::proofs::WorldLemmas::formals_past))]
pub fn formals_of<'a>(world: &'a World, function: FnId) -> &'a [SymId]
    ensures { result.now ≡ formals_in (slice_get world.now.definitions function.0) }
{
    if function.0 >= world.mark().definitions {
        return &[];
    }
    match world.at(function) {
        Definition::Primitive { .. } => &[],
        Definition::Function(f) => f.formals.as_slice(),
        Definition::Macro(_) => &[],
        Definition::Constant { .. } => &[],
        Definition::Object { .. } => &[],
        Definition::Generated(_) => &[],
        Definition::Abstract(_) => &[],
        Definition::OfAbstract(f) => f.formals.as_slice(),
        Definition::Named { .. } => &[],
        Definition::Signed { .. } => &[],
    }
}

/// The term of its body, or a number behind all terms of a table of this length.
#[tactic(auto, using(crate::proofs::WorldLemmas::body_past))]
pub fn body_of(world: &World, terms: u64, function: FnId) -> TermId
    ensures { result.0 ≡ body_in terms (slice_get world.now.definitions function.0) }
{
    if function.0 >= world.mark().definitions {
        return TermId(terms);
    }
    match world.at(function) {
        Definition::Primitive { .. } => TermId(terms),
        Definition::Function(f) => f.body_term,
        Definition::Macro(_) => TermId(terms),
        Definition::Constant { .. } => TermId(terms),
        Definition::Object { .. } => TermId(terms),
        Definition::Generated(_) => TermId(terms),
        Definition::Abstract(_) => TermId(terms),
        Definition::OfAbstract(_) => TermId(terms),
        Definition::Named { .. } => TermId(terms),
        Definition::Signed { .. } => TermId(terms),
    }
}

/// The name of a definition.
#[tactic(auto, using(crate::proofs::WorldLemmas::name_there, crate::proofs::WorldLemmas::name_past))]
pub fn name_of(world: &World, function: FnId) -> SymId
    ensures { result.0 ≡ name_in_option (slice_get world.now.definitions function.0) }
{
    if function.0 >= world.mark().definitions {
        SymId(0)
    } else {
        world.at(function).name()
    }
}
