//! A macro as it is written, by its shape.

ghost use Rattle.std.specs.Prelude.{◌≡◌, ◌≤◌, ◌∷◌, length, IfOk};
ghost use Rattle.model_events.specs.Macros.{written_in, written_macro};
ghost use Rattle.acl_heap.specs.Objects.{object_of, Lies};
ghost use Rattle.acl_layers.specs.Lists.{items_along};
ghost use Rattle.acl_macros.specs.Written.{SeenMacro};

use crate::formals::written_formals;
use crate::written::WrittenMacro;
use acl_base::Word;
use acl_declare::items_and_body;
use acl_heap::{Heap, Seen};
use acl_layers::is_true_list;
use std::alloc::{AllocError, Global};

/// A macro of which the name and the list of its formals are known.
#[tactic(auto, using(crate::proofs::ShapeLemmas::no_list, crate::proofs::ShapeLemmas::no_formals, crate::proofs::ShapeLemmas::no_body, crate::proofs::ShapeLemmas::macro_is))]
fn written_from(
    alloc: Global,
    heap: &Heap,
    name: Word,
    formals: Word,
    rest: Word,
) -> Result<Option<WrittenMacro>, AllocError>
    requires name { Lies heap.now name }
    requires formals { Lies heap.now formals }
    requires rest { Lies heap.now rest }
    ensures { IfOk result (λ m. SeenMacro heap.now m (written_in (object_of heap.now name ∷ (object_of heap.now formals ∷ items_along (object_of heap.now rest))))) }
{
    if !is_true_list(heap, formals) {
        return Ok(None);
    }
    match written_formals(alloc, heap, formals)? {
        None => Ok(None),
        Some(formals) => match items_and_body(alloc, heap, rest)? {
            None => Ok(None),
            Some((items, body)) => Ok(Some(WrittenMacro {
                name,
                formals,
                items,
                body,
            })),
        },
    }
}

#[tactic(auto, using(crate::proofs::ShapeLemmas::named_more, crate::proofs::ShapeLemmas::named_end))]
fn written_named(
    alloc: Global,
    heap: &Heap,
    name: Word,
    rest: Word,
) -> Result<Option<WrittenMacro>, AllocError>
    requires name { Lies heap.now name }
    requires rest { Lies heap.now rest }
    ensures { IfOk result (λ m. SeenMacro heap.now m (written_in (object_of heap.now name ∷ items_along (object_of heap.now rest)))) }
{
    match heap.look(rest) {
        Seen::Pair(formals, rest) => {
            let found = written_from(alloc, heap, name, formals, rest)?;
            Ok(found)
        }
        Seen::Symbol(_) => Ok(None),
        Seen::Integer(_) => Ok(None),
        Seen::Text(_) => Ok(None),
    }
}

/// What stands behind the head.
#[tactic(auto, using(crate::proofs::ShapeLemmas::macro_bad, crate::proofs::ShapeLemmas::macro_more, crate::proofs::ShapeLemmas::macro_end))]
pub fn written_macro(
    alloc: Global,
    heap: &Heap,
    form: Word,
) -> Result<Option<WrittenMacro>, AllocError>
    requires { Lies heap.now form }
    ensures { IfOk result (λ m. SeenMacro heap.now m (written_macro (object_of heap.now form))) }
{
    if !is_true_list(heap, form) {
        return Ok(None);
    }
    match heap.look(form) {
        Seen::Pair(name, rest) => {
            let found = written_named(alloc, heap, name, rest)?;
            Ok(found)
        }
        Seen::Symbol(_) => Ok(None),
        Seen::Integer(_) => Ok(None),
        Seen::Text(_) => Ok(None),
    }
}
