//! The functions of fields.

ghost use Rattle.std.specs.Prelude.{◌≡◌, ◌+◌, ◌++◌, map, IfOk, OnOk};
ghost use Rattle.model_stobjs.specs.Entries.{named_tasks, field_tasks, field_functions};
ghost use Rattle.acl_terms.specs.Definitions.{seen_shape, seen_field, seen_generated};
ghost use Rattle.acl_terms.specs.Forms.{numbers};
ghost use Rattle.acl_generated.specs.Tasks.{seen_task};

use crate::building::{generated, push_function};
use crate::tasks::{Task, held, tasks_of};
use acl_base::SymId;
use acl_heap::Heap;
use acl_terms::{FieldDescriptor, GeneratedFunction};
use std::alloc::{AllocError, Global};

/// The functions of these names that do this, as long as there are both.
#[tactic(auto, using(crate::proofs::FunctionLemmas::named_more, crate::proofs::FunctionLemmas::named_no_name, crate::proofs::FunctionLemmas::named_no_task))]
fn add_named(
    alloc: Global,
    all: &mut Vec<GeneratedFunction>,
    stobj: SymId,
    held: SymId,
    field: u32,
    names: &[SymId],
    tasks: &[Task],
) -> Result<(), AllocError>
    ensures { OnOk result (map seen_generated all.new.items ≡ map seen_generated all.old.items ++ named_tasks stobj.0 field (numbers names.now) (map (seen_task stobj.0 held.0) tasks.now)) }
{
    let mut names_left = names;
    let mut tasks_left = tasks;
    'tasks: while let Some((task, later)) = tasks_left.split_first() {
        let Some((name, others)) = names_left.split_first() else {
            return Ok(());
        };
        let function = generated(alloc, *name, stobj, held, Some(field), task)?;
        push_function(all, function)?;
        names_left = others;
        tasks_left = later;
    }
    Ok(())
}

/// The functions of a field.
fn add_field(
    alloc: Global,
    heap: &Heap,
    all: &mut Vec<GeneratedFunction>,
    stobj: SymId,
    at: u32,
    field: &FieldDescriptor,
) -> Result<(), AllocError>
    ensures { OnOk result (map seen_generated all.new.items ≡ map seen_generated all.old.items ++ named_tasks stobj.0 at (numbers field.now.made) (field_tasks stobj.0 (seen_shape heap.now field.now.shape))) }
{
    let tasks = tasks_of(heap, stobj, field.shape);
    let names = field.made.as_slice();
    add_named(alloc, all, stobj, held(field.shape), at, names, tasks)?;
    Ok(())
}

/// The number of the next field.
fn next(at: u32) -> Result<u32, AllocError>
    ensures { IfOk result (λ n. n ≡ at + 1) }
{
    match at.checked_add(1) {
        Some(n) => Ok(n),
        None => Err(AllocError),
    }
}

/// The functions of all fields.
#[tactic(auto, using(crate::proofs::FunctionLemmas::fields_more, crate::proofs::FunctionLemmas::fields_end))]
pub(crate) fn add_fields(
    alloc: Global,
    heap: &Heap,
    all: &mut Vec<GeneratedFunction>,
    stobj: SymId,
    fields: &[FieldDescriptor],
) -> Result<(), AllocError>
    ensures { OnOk result (map seen_generated all.new.items ≡ map seen_generated all.old.items ++ field_functions stobj.0 0 (map (seen_field heap.now) fields.now)) }
{
    let mut at = 0;
    let mut rest = fields;
    'fields: while let Some((field, others)) = rest.split_first() {
        add_field(alloc, heap, all, stobj, at, field)?;
        at = next(at)?;
        rest = others;
    }
    Ok(())
}
