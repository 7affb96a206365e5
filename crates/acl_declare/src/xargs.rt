//! What XARGS says.

ghost use Rattle.std.specs.Prelude.{◌≡◌, ◌≤◌, ◌∷◌, [], length, Some, None, codes, IfOk, OnOk, if◌then◌else◌};
ghost use Rattle.model_expansion.specs.Forms.{symbol, is_keyword_object, is_key, each_of};
ghost use Rattle.model_events.specs.Declarations.{stobjs_of, keyed_declared, xargs_declared};
ghost use Rattle.acl_heap.specs.Objects.{object_of, Lies};
ghost use Rattle.acl_terms.specs.Forms.{numbers};
ghost use Rattle.acl_terms.specs.Signatures.{seen_name};
ghost use Rattle.acl_layers.specs.Lists.{items_along, SeenSymbols};
ghost use Rattle.acl_declare.specs.Said.{seen_declared, declared_reach, after_said};

use crate::said::{Declared, GuardItem, ask, name_stobjs};
use crate::words;
use acl_base::{SymId, Word};
use acl_heap::{Heap, Seen};
use acl_layers::{is_key, is_keyword};
use acl_syms::Symbols;
use sqlite_items::Items;
use std::alloc::{AllocError, Global};

/// The symbol that it is.
pub fn symbol(heap: &Heap, x: Word) -> Option<SymId>
    requires { Lies heap.now x }
    ensures { symbol (object_of heap.now x) ≡ seen_name result }
{
    match heap.look(x) {
        Seen::Symbol(s) => Some(s),
        Seen::Integer(_) => None,
        Seen::Text(_) => None,
        Seen::Pair(_, _) => None,
    }
}

/// The symbols of a list. None where it is no true list of symbols.
#[tactic(auto, using(acl_layers::proofs::EachLemmas::step_some, acl_layers::proofs::EachLemmas::step_none, acl_layers::proofs::EachLemmas::start, acl_layers::proofs::EachLemmas::end_nil, acl_layers::proofs::EachLemmas::end_symbol, acl_layers::proofs::EachLemmas::end_integer, acl_layers::proofs::EachLemmas::end_text, acl_layers::proofs::BindingLemmas::numbers_push))]
pub fn symbols_of(
    alloc: Global,
    heap: &Heap,
    list: Word,
) -> Result<Option<Items<SymId>>, AllocError>
    requires { Lies heap.now list }
    ensures { IfOk result (λ r. SeenSymbols r (each_of symbol (object_of heap.now list))) }
{
    let mut found = Items::new(alloc);
    let mut rest = list;
    'items: loop {
        match heap.look(rest) {
            Seen::Pair(first, next) => {
                match symbol(heap, first) {
                    Some(name) => found.push(name)?,
                    None => return Ok(None),
                }
                rest = next;
            }
            Seen::Symbol(s) => return if s.0 == words::NIL {
                Ok(Some(found))
            } else {
                Ok(None)
            },
            Seen::Integer(_) => return Ok(None),
            Seen::Text(_) => return Ok(None),
        }
    }
}

fn one_name(alloc: Global, name: SymId) -> Result<Items<SymId>, AllocError>
    ensures { IfOk result (λ names. names ≡ name ∷ []) }
{
    let mut names = Items::new(alloc);
    names.push(name)?;
    Ok(names)
}

/// The stobjs that a value names: one, where `NIL` is none, or those of a list.
#[tactic(auto, using(crate::proofs::SaidLemmas::no_stobjs, crate::proofs::SaidLemmas::one_stobj, crate::proofs::SaidLemmas::listed_stobjs, crate::proofs::SaidLemmas::integer_stobjs, crate::proofs::SaidLemmas::text_stobjs))]
fn stobjs_of(alloc: Global, heap: &Heap, value: Word) -> Result<Option<Items<SymId>>, AllocError>
    requires { Lies heap.now value }
    ensures { IfOk result (λ r. SeenSymbols r (stobjs_of (object_of heap.now value))) }
{
    match heap.look(value) {
        Seen::Symbol(s) => {
            if s.0 == words::NIL {
                return Ok(Some(Items::new(alloc)));
            }
            let names = one_name(alloc, s)?;
            Ok(Some(names))
        }
        Seen::Pair(_, _) => {
            let names = symbols_of(alloc, heap, value)?;
            Ok(names)
        }
        Seen::Integer(_) => Ok(None),
        Seen::Text(_) => Ok(None),
    }
}

fn is_keyword_object(heap: &Heap, syms: &Symbols, x: Word) -> bool
    requires { Lies heap.now x }
    ensures { result ≡ is_keyword_object syms.now.symbols (object_of heap.now x) }
{
    match heap.look(x) {
        Seen::Symbol(s) => is_keyword(syms, s),
        Seen::Integer(_) => false,
        Seen::Text(_) => false,
        Seen::Pair(_, _) => false,
    }
}

fn is_guard_key(heap: &Heap, syms: &Symbols, x: Word) -> bool
    requires { Lies heap.now x }
    ensures { result ≡ is_key syms.now.symbols (codes "GUARD") (object_of heap.now x) }
{
    is_key(heap, syms, b"GUARD", x)
}

fn is_stobjs_key(heap: &Heap, syms: &Symbols, x: Word) -> bool
    requires { Lies heap.now x }
    ensures { result ≡ is_key syms.now.symbols (codes "STOBJS") (object_of heap.now x) }
{
    is_key(heap, syms, b"STOBJS", x)
}

/// A key of XARGS with its value. False where it is wrong.
#[tactic(auto, using(crate::proofs::KeyLemmas::keyed_none, crate::proofs::KeyLemmas::keyed_guard, crate::proofs::KeyLemmas::keyed_wrong, crate::proofs::KeyLemmas::keyed_stobjs, crate::proofs::KeyLemmas::keyed_other))]
fn keyed(
    alloc: Global,
    heap: &Heap,
    syms: &Symbols,
    said: &mut Declared,
    key: Word,
    value: Word,
) -> Result<bool, AllocError>
    requires key { Lies heap.now key }
    requires value { Lies heap.now value }
    requires said { declared_reach said.old ≤ length heap.now }
    ensures is { IfOk result (λ b. after_said (seen_declared heap.now said.old) (keyed_declared syms.now.symbols (object_of heap.now key) (object_of heap.now value)) ≡ (if b then Some (seen_declared heap.now said.new) else None)) }
    ensures reach { OnOk result (declared_reach said.new ≤ length heap.now) }
{
    if !is_keyword_object(heap, syms, key) {
        return Ok(false);
    }
    if is_guard_key(heap, syms, key) {
        ask(heap, said, GuardItem::FormHolds(value))?;
        return Ok(true);
    }
    if !is_stobjs_key(heap, syms, key) {
        return Ok(true);
    }
    match stobjs_of(alloc, heap, value)? {
        None => Ok(false),
        Some(names) => {
            name_stobjs(heap, said, names)?;
            Ok(true)
        }
    }
}

/// Keys of XARGS with their values. False where they are wrong.
#[tactic(auto, using(crate::proofs::KeyLemmas::xargs_more, crate::proofs::KeyLemmas::xargs_wrong, crate::proofs::KeyLemmas::xargs_odd, crate::proofs::KeyLemmas::xargs_end))]
pub fn xargs(
    alloc: Global,
    heap: &Heap,
    syms: &Symbols,
    said: &mut Declared,
    list: Word,
) -> Result<bool, AllocError>
    requires list { Lies heap.now list }
    requires said { declared_reach said.old ≤ length heap.now }
    ensures is { IfOk result (λ b. after_said (seen_declared heap.now said.old) (xargs_declared syms.now.symbols (items_along (object_of heap.now list))) ≡ (if b then Some (seen_declared heap.now said.new) else None)) }
    ensures reach { OnOk result (declared_reach said.new ≤ length heap.now) }
{
    let mut at = list;
    'pairs: while let Seen::Pair(key, rest) = heap.look(at) {
        match heap.look(rest) {
            Seen::Pair(value, next) => {
                if !keyed(alloc, heap, syms, said, key, value)? {
                    return Ok(false);
                }
                at = next;
            }
            Seen::Symbol(_) => return Ok(false),
            Seen::Integer(_) => return Ok(false),
            Seen::Text(_) => return Ok(false),
        }
    }
    Ok(true)
}
