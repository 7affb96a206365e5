//! What the keys of a stobj say.

ghost use Rattle.std.specs.Prelude.{◌≡◌, ◌≤◌, length, option_map, option_and_then, IfOk};
ghost use Rattle.model_objects.specs.Object.{Symbol};
ghost use Rattle.model_expansion.specs.Forms.{elements};
ghost use Rattle.model_stobjs.specs.Descriptors.{two_symbols, renaming_of, is_executable_flag, old_stobj};
ghost use Rattle.acl_heap.specs.Objects.{object_of, Lies};
ghost use Rattle.acl_worlds.specs.Contents.{seen_world, WorldLies};
ghost use Rattle.acl_layers.specs.Lists.{option_reach};
ghost use Rattle.acl_stobj_read.specs.Written.{SeenPair, SeenRenaming, SeenOld};

use crate::lists::{symbol, two_or_three};
use crate::world::descriptor_of;
use acl_base::{SymId, Word};
use acl_heap::{Heap, Seen};
use acl_layers::is_symbol;
use acl_worlds::World;
use sqlite_items::Items;
use std::alloc::{AllocError, Global};

/// The symbols of a list of two.
#[tactic(auto, using(crate::proofs::ReadingLemmas::not_listed, crate::proofs::ReadingLemmas::three_listed, crate::proofs::ReadingLemmas::two_listed))]
fn two_symbols(heap: &Heap, x: Word) -> Option<(SymId, SymId)>
    requires { Lies heap.now x }
    ensures { SeenPair result (option_and_then two_symbols (elements (object_of heap.now x))) }
{
    let (first, second, third) = two_or_three(heap, x)?;
    match third {
        Some(_) => None,
        None => {
            let first = symbol(heap, first)?;
            let second = symbol(heap, second)?;
            Some((first, second))
        }
    }
}

/// Names that were made, with those that stand for them.
#[tactic(auto, using(acl_layers::proofs::EachLemmas::step_some, acl_layers::proofs::EachLemmas::step_none, acl_layers::proofs::EachLemmas::start, acl_layers::proofs::EachLemmas::end_nil, acl_layers::proofs::EachLemmas::end_symbol, acl_layers::proofs::EachLemmas::end_integer, acl_layers::proofs::EachLemmas::end_text, crate::proofs::ReadingLemmas::pair_pushed))]
fn pairs_of(
    alloc: Global,
    heap: &Heap,
    list: Word,
) -> Result<Option<Items<(SymId, SymId)>>, AllocError>
    requires { Lies heap.now list }
    ensures { IfOk result (λ r. SeenRenaming r (renaming_of (Some (object_of heap.now list)))) }
{
    let mut found = Items::new(alloc);
    let mut rest = list;
    'items: loop {
        match heap.look(rest) {
            Seen::Pair(first, next) => {
                match two_symbols(heap, first) {
                    Some(pair) => found.push(pair)?,
                    None => return Ok(None),
                }
                rest = next;
            }
            Seen::Symbol(s) => return if s.0 == 1 { Ok(Some(found)) } else { Ok(None) },
            Seen::Integer(_) => return Ok(None),
            Seen::Text(_) => return Ok(None),
        }
    }
}

pub fn renaming_of(
    alloc: Global,
    heap: &Heap,
    x: Option<Word>,
) -> Result<Option<Items<(SymId, SymId)>>, AllocError>
    requires { option_reach x ≤ length heap.now }
    ensures { IfOk result (λ r. SeenRenaming r (renaming_of (option_map (object_of heap.now) x))) }
{
    match x {
        None => Ok(Some(Items::new(alloc))),
        Some(list) => pairs_of(alloc, heap, list),
    }
}

/// Whether it is not said that nothing is executed.
pub fn is_executable(heap: &Heap, x: Option<Word>) -> bool
    requires { option_reach x ≤ length heap.now }
    ensures { result ≡ is_executable_flag (option_map (object_of heap.now) x) }
{
    match x {
        None => true,
        Some(x) => is_symbol(heap, x, 1),
    }
}

/// The stobj of this name, which is a concrete one.
fn old_named(heap: &Heap, world: &World, name: SymId) -> Option<Option<SymId>>
    requires { WorldLies heap.now world.now }
    ensures { SeenOld result (old_stobj (seen_world heap.now world.now) (Some (Symbol name.0))) }
{
    match descriptor_of(world, heap, name) {
        None => None,
        Some(_) => Some(Some(name)),
    }
}

pub fn old_stobj(heap: &Heap, world: &World, x: Option<Word>) -> Option<Option<SymId>>
    requires x { option_reach x ≤ length heap.now }
    requires world { WorldLies heap.now world.now }
    ensures { SeenOld result (old_stobj (seen_world heap.now world.now) (option_map (object_of heap.now) x)) }
{
    let Some(x) = x else {
        return Some(None);
    };
    match heap.look(x) {
        Seen::Symbol(name) => old_named(heap, world, name),
        Seen::Integer(_) => None,
        Seen::Text(_) => None,
        Seen::Pair(_, _) => None,
    }
}
