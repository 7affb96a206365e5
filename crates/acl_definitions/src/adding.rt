//! All definitions, or none.

ghost use Rattle.std.specs.Prelude.{◌≡◌, ◌++◌, nat_eq, OnOk, OnErr};
ghost use Rattle.std.specs.List.{All, IsDistinct};
ghost use Rattle.acl_terms.specs.Definitions.{FitsTable};
ghost use Rattle.acl_worlds.specs.Contents.{names_in};
ghost use Rattle.acl_definitions.specs.Added.{with_definitions};

use acl_terms::Definition;
use acl_worlds::World;
use std::alloc::AllocError;

/// Puts definitions with new names last, in their order. Where one is refused memory the world is as it was.
pub fn add_all(world: &mut World, definitions: Vec<Definition>) -> Result<(), AllocError>
    requires distinct { IsDistinct nat_eq (names_in (world.old.definitions ++ definitions.items)) }
    requires fit { All FitsTable definitions.items }
    ensures ok { OnOk result (world.new ≡ with_definitions world.old definitions.items) }
    ensures err { OnErr result (world.new ≡ world.old) }
{
    let mark = world.mark();
    'definitions: for definition in definitions {
        match world.add(definition) {
            Ok(_) => {}
            Err(refused) => {
                world.cut_to(mark);
                return Err(refused);
            }
        }
    }
    Ok(())
}
