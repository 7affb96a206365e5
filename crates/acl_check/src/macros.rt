//! The first fault of a macro.

ghost use Rattle.std.specs.Prelude.{◌≡◌, ◌++◌, ◌∷◌, [], map, Some, None, IfOk, OnOk, option_map, option_to_list};
ghost use Rattle.std.specs.List.{list_any};
ghost use Rattle.model_terms.specs.Classes.{is_stobj_name};
ghost use Rattle.model_terms.specs.Faults.{optional_names, formal_names, macro_fault};
ghost use Rattle.acl_terms.specs.Definitions.{seen_optional, seen_optionals, seen_formals};
ghost use Rattle.acl_terms.specs.Forms.{numbers, seen_core};
ghost use Rattle.acl_terms.specs.Signatures.{seen_name};
ghost use Rattle.acl_worlds.specs.Contents.{seen_world};
ghost use Rattle.acl_thread.specs.Sizes.{Fits};
ghost use Rattle.acl_thread.specs.Walks.{seen_fault};

use crate::declared::ordinary_scope;
use crate::faults::{at_number, below, form_fault};
use acl_base::SymId;
use acl_heap::Heap;
use acl_terms::{Core, MacroFormals, Mode, OptionalFormal, Out, Rule};
use acl_thread::{Fault, any_stobj};
use acl_worlds::World;
use sqlite_items::Items;
use std::alloc::{AllocError, Global};

/// Puts a name last, where there is one.
#[tactic(auto, using(acl_outputs::proofs::ListLemmas::numbers_push, acl_outputs::proofs::ListLemmas::numbers_same))]
fn put_name(names: &mut Items<SymId>, name: Option<SymId>) -> Result<(), AllocError>
    ensures { OnOk result (numbers names.new ≡ numbers names.old ++ option_to_list (seen_name name)) }
{
    match name {
        Some(x) => {
            names.push(x)?;
            Ok(())
        }
        None => Ok(()),
    }
}

/// Puts the names of a formal last.
#[tactic(auto, using(crate::proofs::MacroLemmas::one_put))]
fn put_optional(
    names: &mut Items<SymId>,
    formal: OptionalFormal,
    _heap: &Heap,
) -> Result<(), AllocError>
    ensures { OnOk result (numbers names.new ≡ numbers names.old ++ optional_names (seen_optional _heap.now formal ∷ [])) }
{
    names.push(formal.name)?;
    put_name(names, formal.supplied)?;
    Ok(())
}

/// Puts the names of formals last.
#[tactic(auto, using(crate::proofs::MacroLemmas::names_step, crate::proofs::MacroLemmas::names_end))]
fn put_optionals(
    names: &mut Items<SymId>,
    formals: &[OptionalFormal],
    heap: &Heap,
) -> Result<(), AllocError>
    ensures { OnOk result (numbers names.new ≡ numbers names.old ++ optional_names (map (seen_optional heap.now) formals.now)) }
{
    for formal in formals {
        put_optional(names, *formal, heap)?;
    }
    Ok(())
}

/// The names of a macro's formals, in the order in which a body's actuals come.
#[tactic(auto, using(crate::proofs::MacroLemmas::keys_put, crate::proofs::MacroLemmas::no_keys_put))]
pub fn formal_names(
    alloc: Global,
    heap: &Heap,
    formals: &MacroFormals,
) -> Result<Items<SymId>, AllocError>
    ensures { IfOk result (λ ns. numbers ns ≡ formal_names (seen_formals heap.now formals.now)) }
{
    let mut names = Items::from_slice(alloc, formals.required.as_slice())?;
    put_optionals(&mut names, formals.optional.as_slice(), heap)?;
    put_name(&mut names, formals.rest)?;
    match &formals.keys {
        Some(keys) => {
            put_optionals(&mut names, keys.as_slice(), heap)?;
            Ok(names)
        }
        None => Ok(names),
    }
}

/// The first fault of a macro.
#[tactic(auto, using(crate::proofs::MacroLemmas::formal_there, crate::proofs::MacroLemmas::formal_none))]
pub fn macro_fault(
    alloc: Global,
    world: &World,
    heap: &Heap,
    formals: &MacroFormals,
    body: &Core,
) -> Result<Option<Fault>, AllocError>
    requires { Fits heap.now body.now }
    ensures { IfOk result (λ f. option_map seen_fault f ≡ macro_fault (seen_world heap.now world.now) (seen_formals heap.now formals.now) (seen_core heap.now body.now)) }
{
    let names = formal_names(alloc, heap, formals)?;
    if any_stobj(world, heap, names.as_slice()) {
        let fault = at_number(alloc, Rule::S15, 0)?;
        Ok(Some(fault))
    } else {
        let scope = ordinary_scope(alloc, names.as_slice())?;
        let one = &[Out::Ordinary];
        let inner = form_fault(alloc, world, heap, Mode::Macro, &scope, body, one)?;
        let fault = below(0, 1, inner)?;
        Ok(fault)
    }
}
