//! What the call of an export reads of it.

ghost use Rattle.std.specs.Prelude.{◌≡◌, ◌<◌, length, slice_get, option_map, IfSome};
ghost use Rattle.acl_exec_turns.specs.Exports.{Reads};
ghost use Rattle.acl_exec_turns.specs.Execs.{exec_number};

use acl_base::{FnId, SymId};
use acl_terms::Definition;
use acl_worlds::World;

/// What its call reads of an export.
#[derive(Clone, Copy)]
pub(crate) struct Export {
    pub name: SymId,
    /// The name of its exec function.
    pub exec: SymId,
    /// How many formals it has.
    pub count: u64,
}

/// What is read of no export.
const NONE: Export = Export {
    name: SymId(0),
    exec: SymId(0),
    count: 0,
};

/// What a call reads of the export with this number, whatever stands there.
#[tactic(auto, using(crate::proofs::ReadLemmas::reads_past, crate::proofs::ReadLemmas::reads_there))]
pub(crate) fn export_at(world: &World, function: FnId) -> Export
    ensures { Reads (slice_get world.now.definitions function.0) result.name result.exec result.count }
{
    if function.0 >= world.mark().definitions {
        return NONE;
    }
    match world.at(function) {
        Definition::Primitive { .. } => NONE,
        Definition::Function(_) => NONE,
        Definition::Macro(_) => NONE,
        Definition::Constant { .. } => NONE,
        Definition::Object { .. } => NONE,
        Definition::Generated(_) => NONE,
        Definition::Abstract(_) => NONE,
        Definition::OfAbstract(of) => Export {
            name: of.name,
            exec: of.exec,
            count: of.formals.as_slice().len() as u64,
        },
        Definition::Named { .. } => NONE,
        Definition::Signed { .. } => NONE,
    }
}

/// The number of its exec function, found by one look-up.
#[tactic(auto, using(crate::proofs::ReadLemmas::exec_found))]
pub(crate) fn exec_at(world: &World, _function: FnId, export: Export) -> Option<FnId>
    requires { Reads (slice_get world.now.definitions _function.0) export.name export.exec export.count }
    ensures found { option_map (λ f. f.0) result ≡ exec_number world.now _function }
    ensures within { IfSome result (λ f. f.0 < length world.now.definitions) }
{
    world.find(export.exec)
}
