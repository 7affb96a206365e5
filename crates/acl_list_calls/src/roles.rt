//! What a function does, by its role.

ghost use Rattle.std.specs.Prelude.{◌≡◌, ◌≤◌, length, IfOk};
ghost use Rattle.model_prims.specs.Kinds.{by_number};
ghost use Rattle.model_eval.specs.Variables.{ordinary};
ghost use Rattle.model_eval.specs.GeneratedCalls.{effect};
ghost use Rattle.acl_heap.specs.Objects.{Extends};
ghost use Rattle.acl_terms.specs.Definitions.{seen_shape, shape_reach};
ghost use Rattle.acl_worlds.specs.Contents.{seen_world, WorldLies};
ghost use Rattle.acl_keep.specs.Seen.{all_seen};
ghost use Rattle.acl_lists.specs.Tables.{Grown};
ghost use Rattle.acl_lists.specs.Pairs.{Within};
ghost use Rattle.acl_layouts.specs.Typed.{IsTyped, AcceptsTypes};
ghost use Rattle.acl_layouts.specs.Laid.{laid};
ghost use Rattle.acl_list_parts.specs.Parts.{list_given};
ghost use Rattle.acl_list_calls.specs.Results.{Does, ValuesLie};

use crate::arguments::{T, argument, truth};
use crate::done::{Done, Place};
use crate::hashing;
use crate::reading::{access, measure};
use crate::writing::{resize, update};
use acl_heap::Heap;
use acl_layouts::{LaidOut, recognizes_field};
use acl_lists::Lists;
use acl_terms::Shown;
use acl_worlds::World;
use model_terms::Role;
use std::alloc::{AllocError, Global};

/// Whether an object is as the layout of a field says.
#[tactic(auto, using(crate::proofs::RoleLemmas::field_recognized))]
fn recognize(
    _lists: &Lists,
    world: &World,
    heap: &Heap,
    place: Place,
    part: LaidOut,
    values: &[Shown],
) -> Result<Done, AllocError>
    requires world { WorldLies heap.now world.now }
    requires accepts { AcceptsTypes (seen_world heap.now world.now) }
    requires shape { shape_reach part.shape ≤ length heap.now }
    requires typed { IsTyped (seen_shape heap.now part.shape) }
    requires values { ValuesLie heap.now values.now }
    ensures { IfOk result (Does heap.now _lists.now (effect by_number Role.FieldRecognizer (laid (seen_world heap.now world.now) part.depth (seen_shape heap.now part.shape)) place.field (ordinary (all_seen heap.now values.now)) (list_given _lists.now place.list))) }
{
    let x = argument(values, heap, 0);
    let holds = recognizes_field(world, heap, part.depth, part.shape, x)?;
    let w = truth(heap, holds);
    Ok(Done::Reads(w))
}

/// What a function of this role does: of a field, or of the object itself.
#[tactic(auto, using(crate::proofs::RoleLemmas::recognizer_done, crate::proofs::RoleLemmas::creator_done, crate::proofs::ReadLemmas::extends_same, acl_lists::proofs::TableLemmas::grown_same))]
pub(crate) fn by_role(
    alloc: Global,
    lists: &mut Lists,
    world: &World,
    heap: &mut Heap,
    role: Role,
    place: Place,
    part: LaidOut,
    values: &[Shown],
) -> Result<Done, AllocError>
    requires world { WorldLies heap.old world.now }
    requires accepts { AcceptsTypes (seen_world heap.old world.now) }
    requires place { Within lists.old place.list }
    requires shape { shape_reach part.shape ≤ length heap.old }
    requires typed { IsTyped (seen_shape heap.old part.shape) }
    requires values { ValuesLie heap.old values.now }
    ensures heap { Extends heap.old heap.new }
    ensures lists { Grown lists.old lists.new }
    ensures is { IfOk result (Does heap.new lists.new (effect by_number role (laid (seen_world heap.old world.now) part.depth (seen_shape heap.old part.shape)) place.field (ordinary (all_seen heap.old values.now)) (list_given lists.old place.list))) }
{
    match role {
        Role::Recognizer => Ok(Done::Reads(T)),
        Role::Creator => Ok(Done::Refuses),
        Role::FieldRecognizer => recognize(lists, world, heap, place, part, values),
        Role::Access => access(lists, heap, place, part.shape, values),
        Role::Update => update(alloc, lists, heap, place, part.shape, values),
        Role::Length => measure(lists, heap, place),
        Role::Resize => resize(alloc, lists, heap, place, part.shape, values),
        Role::HashGet => hashing::get(alloc, lists, heap, place, part.shape, values),
        Role::HashBoundp => hashing::is_bound(alloc, lists, heap, place, part.shape, values),
        Role::HashGetBound => hashing::look_up(alloc, lists, heap, place, part.shape, values),
        Role::HashPut => hashing::put(alloc, lists, heap, place, part.shape, values),
        Role::HashRem => hashing::remove(alloc, lists, heap, place, part.shape, values),
        Role::HashCount => hashing::count(alloc, lists, heap, place),
        Role::HashClear => hashing::clear(alloc, lists, heap, place),
    }
}
