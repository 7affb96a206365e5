//! The functions of abstract objects, by their numbers.

ghost use Rattle.std.specs.Prelude.{◌≡◌, slice_get};
ghost use Rattle.std.specs.Option.{option_copied};
ghost use Rattle.acl_export_turns.specs.Exports.{abstract_in, name_of, formals_of};

use acl_base::{FnId, SymId};
use acl_terms::{AbstractFunction, Definition};
use acl_worlds::World;

/// The function of an abstract object that has this number, where it is one.
#[tactic(auto, using(crate::proofs::ExportLemmas::none_there, crate::proofs::ExportLemmas::found_there))]
pub(crate) fn abstract_at(world: &World, function: FnId) -> Option<&AbstractFunction>
    ensures { option_copied result ≡ abstract_in (slice_get world.now.definitions function.0) }
{
    if function.0 >= world.mark().definitions {
        return None;
    }
    match world.at(function) {
        Definition::Primitive { .. } => None,
        Definition::Function(_) => None,
        Definition::Macro(_) => None,
        Definition::Constant { .. } => None,
        Definition::Object { .. } => None,
        Definition::Generated(_) => None,
        Definition::Abstract(_) => None,
        Definition::OfAbstract(of) => Some(of),
        Definition::Named { .. } => None,
        Definition::Signed { .. } => None,
    }
}

/// Its name.
pub(crate) fn name(of: Option<&AbstractFunction>) -> SymId
    ensures { result.0 ≡ name_of (option_copied of.entry) }
{
    match of {
        Some(of) => of.name,
        None => SymId(0),
    }
}

/// Its formals.
pub(crate) fn formals(of: Option<&AbstractFunction>) -> &[SymId]
    ensures { result.now ≡ formals_of (option_copied of.entry) }
{
    match of {
        Some(of) => of.formals.as_slice(),
        None => &[],
    }
}
