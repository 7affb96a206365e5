//! A stobj as it is written.

ghost use Rattle.std.specs.Prelude.{◌≡◌, ◌≤◌, length, option_map, option_and_then, codes, IfOk};
ghost use Rattle.model_stobjs.specs.Keys.{keys_in};
ghost use Rattle.model_stobjs.specs.Descriptors.{is_executable_flag, renaming_of, old_stobj, stobj_keys, written_with, written_stobj};
ghost use Rattle.acl_heap.specs.Objects.{object_of, Lies};
ghost use Rattle.acl_worlds.specs.Contents.{seen_world, WorldLies};
ghost use Rattle.acl_layers.specs.Lists.{items_along};
ghost use Rattle.acl_stobj_read.specs.Keys.{value_along};
ghost use Rattle.acl_stobj_read.specs.Written.{SeenRenaming, SeenOld, seen_fields, fields_reach};
ghost use Rattle.acl_stobj_written.specs.Read.{SeenStobj};

use crate::fields::fields_of;
use acl_base::{SymId, Word};
use acl_heap::{Heap, Seen};
use acl_layers::is_true_list;
use acl_stobj_read::{
    Key, WrittenField, WrittenStobj, are_stobj_keys, is_executable, key_value, old_stobj,
    renaming_of,
};
use acl_syms::Symbols;
use acl_worlds::World;
use sqlite_items::Items;
use std::alloc::{AllocError, Global};

fn executable_in(heap: &Heap, syms: &Symbols, keys: Word) -> bool
    requires { Lies heap.now keys }
    ensures { is_executable_flag (value_along syms.now.symbols (codes "NON-EXECUTABLE") (items_along (object_of heap.now keys))) ≡ result }
{
    is_executable(heap, key_value(heap, syms, Key::NonExecutable, keys))
}

fn renaming_in(
    alloc: Global,
    heap: &Heap,
    syms: &Symbols,
    keys: Word,
) -> Result<Option<Items<(SymId, SymId)>>, AllocError>
    requires { Lies heap.now keys }
    ensures { IfOk result (λ r. SeenRenaming r (renaming_of (value_along syms.now.symbols (codes "RENAMING") (items_along (object_of heap.now keys))))) }
{
    let renaming = renaming_of(alloc, heap, key_value(heap, syms, Key::Renaming, keys))?;
    Ok(renaming)
}

fn old_in(heap: &Heap, syms: &Symbols, world: &World, keys: Word) -> Option<Option<SymId>>
    requires keys { Lies heap.now keys }
    requires world { WorldLies heap.now world.now }
    ensures { SeenOld result (old_stobj (seen_world heap.now world.now) (value_along syms.now.symbols (codes "CONGRUENT-TO") (items_along (object_of heap.now keys)))) }
{
    old_stobj(heap, world, key_value(heap, syms, Key::CongruentTo, keys))
}

/// The stobj of a name, fields, and keys with values.
#[tactic(auto, using(crate::proofs::StobjLemmas::no_keys, crate::proofs::StobjLemmas::not_executable, crate::proofs::StobjLemmas::no_renaming, crate::proofs::StobjLemmas::no_old, crate::proofs::StobjLemmas::stobj_is))]
fn stobj_with(
    alloc: Global,
    heap: &Heap,
    syms: &Symbols,
    world: &World,
    name: Word,
    fields: Items<WrittenField>,
    keys: Word,
) -> Result<Option<WrittenStobj>, AllocError>
    requires name { Lies heap.now name }
    requires fields { fields_reach fields ≤ length heap.now }
    requires keys { Lies heap.now keys }
    requires world { WorldLies heap.now world.now }
    ensures { IfOk result (λ r. SeenStobj heap.now r (option_and_then (written_with (seen_world heap.now world.now) (object_of heap.now name) (seen_fields heap.now fields)) (keys_in syms.now.symbols stobj_keys (items_along (object_of heap.now keys))))) }
{
    if !are_stobj_keys(heap, syms, keys) {
        return Ok(None);
    }
    if !executable_in(heap, syms, keys) {
        return Ok(None);
    }
    match renaming_in(alloc, heap, syms, keys)? {
        None => Ok(None),
        Some(renaming) => match old_in(heap, syms, world, keys) {
            None => Ok(None),
            Some(congruent_to) => Ok(Some(WrittenStobj {
                name,
                fields,
                renaming,
                congruent_to,
            })),
        },
    }
}

/// What stands behind the head, as it is written: a name, fields, and from the first keyword on keys.
#[tactic(auto, using(crate::proofs::StobjLemmas::no_list, crate::proofs::StobjLemmas::nothing_there, crate::proofs::StobjLemmas::bad_fields, crate::proofs::StobjLemmas::whole))]
pub fn written_stobj(
    alloc: Global,
    heap: &Heap,
    syms: &Symbols,
    world: &World,
    form: Word,
) -> Result<Option<WrittenStobj>, AllocError>
    requires form { Lies heap.now form }
    requires world { WorldLies heap.now world.now }
    ensures { IfOk result (λ r. SeenStobj heap.now r (written_stobj (seen_world heap.now world.now) syms.now.symbols (object_of heap.now form))) }
{
    if !is_true_list(heap, form) {
        return Ok(None);
    }
    let Seen::Pair(name, rest) = heap.look(form) else {
        return Ok(None);
    };
    match fields_of(alloc, heap, syms, rest)? {
        None => Ok(None),
        Some((fields, keys)) => {
            let stobj = stobj_with(alloc, heap, syms, world, name, fields, keys)?;
            Ok(stobj)
        }
    }
}
