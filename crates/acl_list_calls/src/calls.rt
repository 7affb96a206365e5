//! A call of a function that an object comes with.

ghost use Rattle.std.specs.Prelude.{◌≡◌, unwrap_or, IfOk};
ghost use Rattle.model_prims.specs.Kinds.{by_number};
ghost use Rattle.model_lists.specs.Layouts.{field_layout};
ghost use Rattle.model_eval.specs.Variables.{ordinary};
ghost use Rattle.model_eval.specs.StobjLayouts.{stobj_layout};
ghost use Rattle.model_eval.specs.GeneratedCalls.{effect};
ghost use Rattle.acl_heap.specs.Objects.{Extends};
ghost use Rattle.acl_worlds.specs.Contents.{seen_world, WorldLies};
ghost use Rattle.acl_keep.specs.Seen.{all_seen};
ghost use Rattle.acl_lists.specs.Tables.{Grown};
ghost use Rattle.acl_lists.specs.Pairs.{Within};
ghost use Rattle.acl_new_lists.specs.Begun.{itself};
ghost use Rattle.acl_layouts.specs.Typed.{AcceptsTypes};
ghost use Rattle.acl_list_parts.specs.Parts.{list_given};
ghost use Rattle.acl_list_calls.specs.Results.{Does, ValuesLie};

use crate::done::{Done, Place};
use crate::roles::by_role;
use acl_heap::Heap;
use acl_layouts::laid_out;
use acl_lists::{ListId, Lists};
use acl_terms::{GeneratedFunction, Shown};
use acl_worlds::World;
use std::alloc::{AllocError, Global};

/// What a function does on the list of its object. Nothing that stood in the heap or in the table is overwritten.
#[tactic(auto, using(crate::proofs::RoleLemmas::call_done))]
pub fn done_by(
    alloc: Global,
    lists: &mut Lists,
    world: &World,
    heap: &mut Heap,
    function: &GeneratedFunction,
    values: &[Shown],
    list: Option<ListId>,
) -> Result<Done, AllocError>
    requires world { WorldLies heap.old world.now }
    requires accepts { AcceptsTypes (seen_world heap.old world.now) }
    requires list { Within lists.old list }
    requires values { ValuesLie heap.old values.now }
    ensures heap { Extends heap.old heap.new }
    ensures lists { Grown lists.old lists.new }
    ensures is { IfOk result (Does heap.new lists.new (effect by_number function.now.role (field_layout (unwrap_or function.now.field 0) (stobj_layout itself (seen_world heap.old world.now) function.now.stobj.0)) (unwrap_or function.now.field 0) (ordinary (all_seen heap.old values.now)) (list_given lists.old list))) }
{
    let field = function.field.unwrap_or(0);
    let part = laid_out(world, heap, function.stobj, field);
    let place = Place { list, field };
    let done = by_role(
        alloc,
        lists,
        world,
        heap,
        function.role,
        place,
        part,
        values,
    )?;
    Ok(done)
}
