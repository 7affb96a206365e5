//! What a declaration of types says.

ghost use Rattle.std.specs.Prelude.{◌≡◌, ◌≤◌, [], ◌∷◌, length, Some, None, is_some, option_map, IfOk, OnOk, if◌then◌else◌};
ghost use Rattle.model_terms.specs.Cores.{Var};
ghost use Rattle.model_expansion.specs.Forms.{each};
ghost use Rattle.model_expansion.specs.TypeTerms.{declared_test};
ghost use Rattle.model_events.specs.Declarations.{declared_formal, type_items, type_declared};
ghost use Rattle.acl_heap.specs.Objects.{object_of, Lies, Extends};
ghost use Rattle.acl_terms.specs.Forms.{numbers};
ghost use Rattle.acl_terms.specs.Signatures.{seen_name};
ghost use Rattle.acl_layers.specs.Lists.{items_along, SeenSymbols};
ghost use Rattle.acl_declare.specs.Said.{seen_declared, declared_reach, after_said, asks_all, typed_all, typed_along};

use crate::declared_types::declared_test;
use crate::said::{Declared, GuardItem, ask};
use crate::table::is_among;
use crate::words;
use crate::xargs::symbol;
use acl_base::{SymId, Word};
use acl_heap::{Heap, Seen};
use acl_layers::is_symbol;
use acl_names::Names;
use acl_syms::Symbols;
use sqlite_items::Items;
use std::alloc::{AllocError, Global};

/// The formal that it is.
#[tactic(auto, using(crate::proofs::TypedLemmas::is_formal, crate::proofs::TypedLemmas::no_formal, crate::proofs::TypedLemmas::no_symbol))]
fn formal(heap: &Heap, _syms: &Symbols, table: &Names, x: Word) -> Option<SymId>
    requires { Lies heap.now x }
    ensures { declared_formal _syms.now.symbols table.now (object_of heap.now x) ≡ seen_name result }
{
    match symbol(heap, x) {
        None => None,
        Some(name) => {
            if !is_among(table, name) {
                return None;
            }
            Some(name)
        }
    }
}

/// The formals along a list. None where there is anything else.
#[tactic(auto, using(crate::proofs::TypedLemmas::each_more, crate::proofs::TypedLemmas::each_wrong, crate::proofs::TypedLemmas::each_end, acl_layers::proofs::BindingLemmas::numbers_push, crate::proofs::TypedLemmas::from_none))]
fn formals_along(
    alloc: Global,
    heap: &Heap,
    syms: &Symbols,
    table: &Names,
    list: Word,
) -> Result<Option<Items<SymId>>, AllocError>
    requires { Lies heap.now list }
    ensures { IfOk result (λ r. SeenSymbols r (each (declared_formal syms.now.symbols table.now) (items_along (object_of heap.now list)))) }
{
    let mut found = Items::new(alloc);
    let mut at = list;
    'names: while let Seen::Pair(first, next) = heap.look(at) {
        match formal(heap, syms, table, first) {
            Some(name) => found.push(name)?,
            None => return Ok(None),
        }
        at = next;
    }
    Ok(Some(found))
}

/// That a formal meets a type. False where it is none.
#[tactic(auto, using(crate::proofs::TypedLemmas::typed_wrong, crate::proofs::TypedLemmas::typed_nothing, crate::proofs::TypedLemmas::typed_asked, crate::proofs::SaidLemmas::said_later))]
fn add_type(
    alloc: Global,
    heap: &mut Heap,
    _syms: &Symbols,
    said: &mut Declared,
    spec: Word,
    name: SymId,
) -> Result<bool, AllocError>
    requires spec { Lies heap.old spec }
    requires said { declared_reach said.old ≤ length heap.old }
    ensures grows { Extends heap.old heap.new }
    ensures is { IfOk result (λ b. after_said (seen_declared heap.old said.old) (option_map asks_all (type_items _syms.now.symbols (object_of heap.old spec) name.0)) ≡ (if b then Some (seen_declared heap.new said.new) else None)) }
    ensures reach { OnOk result (declared_reach said.new ≤ length heap.new) }
{
    let asks_nothing = is_symbol(heap, spec, words::T);
    match declared_test(alloc, heap, name, spec) {
        Err(refused) => Err(refused),
        Ok(test) => match test {
            None => Ok(false),
            Some(test) => {
                if asks_nothing {
                    return Ok(true);
                }
                ask(heap, said, GuardItem::Meets(test))?;
                Ok(true)
            }
        },
    }
}

/// That formals meet a type.
#[tactic(auto, using(crate::proofs::TypedLemmas::types_more, crate::proofs::TypedLemmas::types_wrong, crate::proofs::TypedLemmas::types_end, crate::proofs::TypedLemmas::still_lies))]
fn add_types(
    alloc: Global,
    heap: &mut Heap,
    syms: &Symbols,
    said: &mut Declared,
    spec: Word,
    names: &[SymId],
) -> Result<bool, AllocError>
    requires spec { Lies heap.old spec }
    requires said { declared_reach said.old ≤ length heap.old }
    ensures grows { Extends heap.old heap.new }
    ensures is { IfOk result (λ b. after_said (seen_declared heap.old said.old) (typed_all syms.now.symbols (object_of heap.old spec) (numbers names.now)) ≡ (if b then Some (seen_declared heap.new said.new) else None)) }
    ensures reach { OnOk result (declared_reach said.new ≤ length heap.new) }
{
    let mut rest = names;
    'names: while let Some((name, others)) = rest.split_first() {
        if !add_type(alloc, heap, syms, said, spec, *name)? {
            return Ok(false);
        }
        rest = others;
    }
    Ok(true)
}

/// That the formals along a list meet a type.
#[tactic(auto, using(crate::proofs::TypedLemmas::no_formals, crate::proofs::TypedLemmas::some_formals))]
fn add_listed(
    alloc: Global,
    heap: &mut Heap,
    syms: &Symbols,
    table: &Names,
    said: &mut Declared,
    spec: Word,
    list: Word,
) -> Result<bool, AllocError>
    requires spec { Lies heap.old spec }
    requires list { Lies heap.old list }
    requires said { declared_reach said.old ≤ length heap.old }
    ensures grows { Extends heap.old heap.new }
    ensures is { IfOk result (λ b. after_said (seen_declared heap.old said.old) (typed_along syms.now.symbols table.now (object_of heap.old spec) (items_along (object_of heap.old list))) ≡ (if b then Some (seen_declared heap.new said.new) else None)) }
    ensures reach { OnOk result (declared_reach said.new ≤ length heap.new) }
{
    match formals_along(alloc, heap, syms, table, list)? {
        None => Ok(false),
        Some(names) => {
            let added = add_types(alloc, heap, syms, said, spec, names.as_slice())?;
            Ok(added)
        }
    }
}

/// Whether it is a type, which it is to be where no formals follow, too.
fn is_declared_type(alloc: Global, heap: &mut Heap, spec: Word) -> Result<bool, AllocError>
    requires { Lies heap.old spec }
    ensures grows { Extends heap.old heap.new }
    ensures is { IfOk result (λ b. b ≡ is_some (declared_test (Var 1) (object_of heap.old spec))) }
{
    match declared_test(alloc, heap, SymId(words::NIL), spec) {
        Err(refused) => Err(refused),
        Ok(test) => Ok(test.is_some()),
    }
}

#[tactic(auto, using(crate::proofs::TypedLemmas::no_type, crate::proofs::TypedLemmas::typed_is))]
fn typed_for(
    alloc: Global,
    heap: &mut Heap,
    syms: &Symbols,
    table: &Names,
    said: &mut Declared,
    spec: Word,
    list: Word,
) -> Result<bool, AllocError>
    requires spec { Lies heap.old spec }
    requires list { Lies heap.old list }
    requires said { declared_reach said.old ≤ length heap.old }
    ensures grows { Extends heap.old heap.new }
    ensures is { IfOk result (λ b. after_said (seen_declared heap.old said.old) (type_declared syms.now.symbols table.now (object_of heap.old spec ∷ items_along (object_of heap.old list))) ≡ (if b then Some (seen_declared heap.new said.new) else None)) }
    ensures reach { OnOk result (declared_reach said.new ≤ length heap.new) }
{
    match is_declared_type(alloc, heap, spec) {
        Err(refused) => Err(refused),
        Ok(is_type) => {
            if !is_type {
                return Ok(false);
            }
            match add_listed(alloc, heap, syms, table, said, spec, list) {
                Err(refused) => Err(refused),
                Ok(added) => Ok(added),
            }
        }
    }
}

/// What a type with formals says. False where it is wrong.
#[tactic(auto, using(crate::proofs::TypedLemmas::type_first, crate::proofs::TypedLemmas::type_none))]
pub fn typed(
    alloc: Global,
    heap: &mut Heap,
    syms: &Symbols,
    table: &Names,
    said: &mut Declared,
    list: Word,
) -> Result<bool, AllocError>
    requires list { Lies heap.old list }
    requires said { declared_reach said.old ≤ length heap.old }
    ensures grows { Extends heap.old heap.new }
    ensures is { IfOk result (λ b. after_said (seen_declared heap.old said.old) (type_declared syms.now.symbols table.now (items_along (object_of heap.old list))) ≡ (if b then Some (seen_declared heap.new said.new) else None)) }
    ensures reach { OnOk result (declared_reach said.new ≤ length heap.new) }
{
    match heap.look(list) {
        Seen::Pair(spec, names) => {
            match typed_for(alloc, heap, syms, table, said, spec, names) {
                Err(refused) => Err(refused),
                Ok(added) => Ok(added),
            }
        }
        Seen::Symbol(_) => Ok(false),
        Seen::Integer(_) => Ok(false),
        Seen::Text(_) => Ok(false),
    }
}
