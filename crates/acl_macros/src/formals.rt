//! Formals of a macro, as they are written.

ghost use Rattle.std.specs.Prelude.{◌≡◌, ◌≤◌, [], length, unwrap_or, IfOk};
ghost use Rattle.model_events.specs.Macros.{written_formals};
ghost use Rattle.acl_heap.specs.Objects.{object_of, Lies};
ghost use Rattle.acl_layers.specs.Lists.{items_along, option_reach};
ghost use Rattle.acl_declare.specs.Said.{words_at, words_reach};
ghost use Rattle.acl_macros.specs.Written.{seen_word, seen_optionals, optionals_reach, seen_keys, keys_reach, SeenFormals};
ghost use Rattle.acl_macros.specs.Sections.{after_rest, after_optional};

use crate::sections::{marked_section, rest_section, words_before};
use crate::words;
use crate::written::{WrittenFormals, WrittenOptional};
use acl_base::Word;
use acl_heap::Heap;
use acl_layers::is_pair;
use sqlite_items::Items;
use std::alloc::{AllocError, Global};

/// Those behind a mark, none where it does not stand.
fn or_none(
    alloc: Global,
    _heap: &Heap,
    optional: Option<Items<WrittenOptional>>,
) -> Items<WrittenOptional>
    ensures is { seen_optionals _heap.now result ≡ unwrap_or (seen_keys _heap.now optional) [] }
    ensures reach { optionals_reach result ≡ keys_reach optional }
{
    match optional {
        Some(optional) => optional,
        None => Items::new(alloc),
    }
}

/// Formals of which all but those with keys are known.
#[tactic(auto, using(crate::proofs::FormalLemmas::no_keys, crate::proofs::FormalLemmas::too_many, crate::proofs::FormalLemmas::all_formals))]
fn behind_rest(
    alloc: Global,
    heap: &Heap,
    required: Items<Word>,
    optional: Option<Items<WrittenOptional>>,
    rest: Option<Word>,
    list: Word,
) -> Result<Option<WrittenFormals>, AllocError>
    requires required { words_reach required ≤ length heap.now }
    requires optional { keys_reach optional ≤ length heap.now }
    requires rest { option_reach rest ≤ length heap.now }
    requires list { Lies heap.now list }
    ensures { IfOk result (λ r. SeenFormals heap.now r (after_rest (words_at heap.now required) (seen_keys heap.now optional) (seen_word heap.now rest) (items_along (object_of heap.now list)))) }
{
    match marked_section(alloc, heap, words::KEY, list)? {
        None => Ok(None),
        Some((keys, left)) => {
            if is_pair(heap, left) {
                return Ok(None);
            }
            let optional = or_none(alloc, heap, optional);
            Ok(Some(WrittenFormals {
                required,
                optional,
                rest,
                keys,
            }))
        }
    }
}

/// Formals of which the required ones and those that may be left out are known.
#[tactic(auto, using(crate::proofs::FormalLemmas::no_rest, crate::proofs::FormalLemmas::with_rest))]
fn behind_optional(
    alloc: Global,
    heap: &Heap,
    required: Items<Word>,
    optional: Option<Items<WrittenOptional>>,
    list: Word,
) -> Result<Option<WrittenFormals>, AllocError>
    requires required { words_reach required ≤ length heap.now }
    requires optional { keys_reach optional ≤ length heap.now }
    requires list { Lies heap.now list }
    ensures { IfOk result (λ r. SeenFormals heap.now r (after_optional (words_at heap.now required) (seen_keys heap.now optional) (items_along (object_of heap.now list)))) }
{
    match rest_section(heap, list) {
        None => Ok(None),
        Some((rest, left)) => {
            let formals = behind_rest(alloc, heap, required, optional, rest, left)?;
            Ok(formals)
        }
    }
}

/// The formals along a list: required ones, then the marks in their order. None where anything else stands there.
#[tactic(auto, using(crate::proofs::FormalLemmas::no_optional, crate::proofs::FormalLemmas::with_optional))]
pub fn written_formals(
    alloc: Global,
    heap: &Heap,
    list: Word,
) -> Result<Option<WrittenFormals>, AllocError>
    requires { Lies heap.now list }
    ensures { IfOk result (λ r. SeenFormals heap.now r (written_formals (items_along (object_of heap.now list)))) }
{
    let (required, at) = words_before(alloc, heap, list)?;
    match marked_section(alloc, heap, words::OPTIONAL, at)? {
        None => Ok(None),
        Some((optional, left)) => {
            let formals = behind_optional(alloc, heap, required, optional, left)?;
            Ok(formals)
        }
    }
}
