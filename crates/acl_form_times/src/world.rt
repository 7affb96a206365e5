//! A world of one function.

ghost use Rattle.std.specs.Prelude.{IfOk};
ghost use Rattle.acl_terms.specs.Definitions.{FitsTable};

use crate::shapes::F;
use acl_base::SymId;
use acl_terms::{Definition, Out, Signature};
use acl_worlds::World;
use sqlite_items::Items;
use std::alloc::{AllocError, Global};

/// A function of so many ordinary formals.
fn function(alloc: Global, width: u32) -> Result<Definition, AllocError>
    ensures { IfOk result (λ d. FitsTable d) }
{
    let mut ins = Items::new(alloc);
    for _ in 0..width {
        ins.push(Out::Ordinary)?;
    }
    let outs = Items::from_slice(alloc, &[Out::Ordinary])?;
    Ok(Definition::Signed {
        name: SymId(F),
        formals: Items::new(alloc),
        signature: Signature { ins, outs },
        executable: true,
    })
}

/// Puts a function of so many ordinary formals in.
pub fn put_function(alloc: Global, world: &mut World, width: u32) -> Result<(), AllocError> {
    let definition = function(alloc, width)?;
    match world.find(definition.name()) {
        Some(_) => Ok(()),
        None => {
            world.add(definition)?;
            Ok(())
        }
    }
}
