//! Definitions put in one after another. Where one is refused, those before it are in the world.

ghost use Rattle.std.specs.Prelude.{◌≡◌, ◌++◌, ◌∷◌, None, nat_eq, OnOk, OnErr};
ghost use Rattle.std.specs.List.{IsDistinct};
ghost use Rattle.acl_terms.specs.declared.definition.Definition.TheVariants as definition;
ghost use Rattle.acl_worlds.specs.Contents.{names_in, number_of, with_definition};
ghost use Rattle.acl_worlds.specs.Fields.{fields_of};
ghost use Rattle.acl_enter_stobj.specs.Entered.{function_names, with_functions, entered, Begins};

use acl_base::{Layout, SymId};
use acl_terms::{Definition, Descriptor, GeneratedFunction};
use acl_worlds::World;
use std::alloc::AllocError;

fn add_function(world: &mut World, function: GeneratedFunction) -> Result<(), AllocError>
    requires fresh { number_of world.old function.name.0 ≡ None }
    ensures ok { OnOk result (world.new ≡ with_definition world.old (definition.Generated function)) }
    ensures err { OnErr result (world.new ≡ world.old) }
{
    world.add(Definition::Generated(function))?;
    Ok(())
}

/// The functions, in their order.
#[tactic(auto, using(crate::proofs::AddLemmas::adding_start, crate::proofs::AddLemmas::adding_fresh, crate::proofs::AddLemmas::adding_refused, crate::proofs::AddLemmas::adding_more, crate::proofs::AddLemmas::adding_end))]
pub(crate) fn add_functions(
    world: &mut World,
    functions: Vec<GeneratedFunction>,
) -> Result<(), AllocError>
    requires fresh { IsDistinct nat_eq (names_in world.old.definitions ++ function_names functions.items) }
    ensures ok { OnOk result (world.new ≡ with_functions world.old functions.items) }
    ensures begins { Begins world.old world.new }
{
    'functions: for function in functions {
        add_function(world, function)?;
    }
    Ok(())
}

/// A stobj with its layout, then its functions.
#[tactic(auto, using(crate::proofs::AddLemmas::object_fresh, crate::proofs::AddLemmas::functions_fresh, crate::proofs::AddLemmas::all_entered, crate::proofs::AddLemmas::begins_same, crate::proofs::AddLemmas::begins_laid, crate::proofs::AddLemmas::begins_object))]
pub(crate) fn add_stobj(
    world: &mut World,
    descriptor: Descriptor,
    class: SymId,
    layout: Layout,
    functions: Vec<GeneratedFunction>,
) -> Result<(), AllocError>
    requires fresh { IsDistinct nat_eq (names_in world.old.definitions ++ descriptor.name.0 ∷ function_names functions.items) }
    ensures ok { OnOk result (world.new ≡ entered world.old descriptor class (fields_of layout) functions.items) }
    ensures begins { Begins world.old world.new }
{
    let number = world.add_layout(layout)?;
    world.add(Definition::Object {
        descriptor,
        layout: number,
        class,
    })?;
    add_functions(world, functions)?;
    Ok(())
}
