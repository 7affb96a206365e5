//! Formals as they are written.

ghost use Rattle.std.specs.Prelude.{◌≡◌, ◌≤◌, length, IfOk, option_map};
ghost use Rattle.model_expansion.specs.Faults.{BadName};
ghost use Rattle.model_stobjs.specs.Answers.{first_given};
ghost use Rattle.model_events.specs.Declarations.{bad_formal, formals_of, formals_fault};
ghost use Rattle.acl_heap.specs.Objects.{object_of, Lies};
ghost use Rattle.acl_terms.specs.Forms.{numbers};
ghost use Rattle.acl_layers.specs.Lists.{items_along, option_reach};
ghost use Rattle.acl_declare.specs.Formals.{SeenFault};

use crate::table::repeated;
use crate::xargs::symbol;
use acl_base::{SymId, Word};
use acl_heap::{Heap, Seen};
use acl_layers::variable_name;
use acl_syms::Symbols;
use sqlite_items::Items;
use std::alloc::{AllocError, Global};

/// What is wrong with formals.
#[derive(Clone, Copy, Debug)]
pub enum FormalFault {
    /// It may be none.
    BadName(Word),
    /// It stands twice.
    DuplicateFormal(SymId),
}

/// The symbols along a list of formals.
#[tactic(auto, using(crate::proofs::FormalLemmas::formals_more, crate::proofs::FormalLemmas::formals_other, crate::proofs::FormalLemmas::formals_end, acl_layers::proofs::BindingLemmas::numbers_push))]
pub fn read_formals(
    alloc: Global,
    heap: &Heap,
    _syms: &Symbols,
    list: Word,
) -> Result<Items<SymId>, AllocError>
    requires { Lies heap.now list }
    ensures { IfOk result (λ xs. numbers xs ≡ formals_of _syms.now.symbols (items_along (object_of heap.now list))) }
{
    let mut names = Items::new(alloc);
    let mut at = list;
    'formals: while let Seen::Pair(first, next) = heap.look(at) {
        match symbol(heap, first) {
            Some(name) => names.push(name)?,
            None => {}
        }
        at = next;
    }
    Ok(names)
}

/// The first that may be no formal.
#[tactic(auto, using(crate::proofs::FormalLemmas::bad_more, crate::proofs::FormalLemmas::bad_found, crate::proofs::FormalLemmas::bad_end))]
fn bad_formal(heap: &Heap, syms: &Symbols, list: Word) -> Option<Word>
    requires { Lies heap.now list }
    ensures is { first_given (bad_formal syms.now.symbols) (items_along (object_of heap.now list)) ≡ option_map (λ x. BadName (object_of heap.now x)) result }
    ensures lies { option_reach result ≤ length heap.now }
{
    let mut at = list;
    'formals: while let Seen::Pair(first, next) = heap.look(at) {
        if variable_name(heap, syms, first).is_none() {
            return Some(first);
        }
        at = next;
    }
    None
}

/// A formal that may be none, or else the earliest that comes again, found by one table of names.
#[tactic(auto, using(crate::proofs::FormalLemmas::fault_bad, crate::proofs::FormalLemmas::fault_repeated, crate::proofs::FormalLemmas::fault_none))]
pub fn formals_fault(
    alloc: Global,
    heap: &Heap,
    syms: &Symbols,
    list: Word,
) -> Result<Option<FormalFault>, AllocError>
    requires { Lies heap.now list }
    ensures { IfOk result (λ f. SeenFault heap.now f (formals_fault syms.now.symbols (items_along (object_of heap.now list)))) }
{
    match bad_formal(heap, syms, list) {
        Some(x) => Ok(Some(FormalFault::BadName(x))),
        None => {
            let names = read_formals(alloc, heap, syms, list)?;
            match repeated(alloc, names.as_slice())? {
                Some(name) => Ok(Some(FormalFault::DuplicateFormal(name))),
                None => Ok(None),
            }
        }
    }
}
