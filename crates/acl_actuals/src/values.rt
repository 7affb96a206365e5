//! The values of all formals.

ghost use Rattle.std.specs.Prelude.{◌≡◌, ◌≤◌, length, Some, None, IfOk, IfSome};
ghost use Rattle.model_terms.specs.Faults.{formal_names};
ghost use Rattle.model_expansion.specs.Expansion.{last_taken, keys_taken, macro_values};
ghost use Rattle.acl_heap.specs.Objects.{Lies, object_of};
ghost use Rattle.acl_terms.specs.Signatures.{seen_name};
ghost use Rattle.acl_terms.specs.Definitions.{seen_formals, formals_reach, seen_optionals, optionals_reach};
ghost use Rattle.acl_actuals.specs.Values.{words_at, words_reach, IsList, items_at, optionals_at, defaults_reach, Puts, SeenValues};

use crate::keys::{key_pairs, keys_fit, push_keys};
use crate::taking::{push, take_optional, take_required};
use acl_base::{SymId, Word};
use acl_heap::{Heap, Seen};
use acl_syms::Symbols;
use acl_terms::{MacroFormals, OptionalFormal};
use sqlite_items::Items;
use std::alloc::{AllocError, Global};

/// Puts the values of the formals with keys, where the keys fit.
#[tactic(auto, using(crate::proofs::LastLemmas::keys_odd, crate::proofs::LastLemmas::keys_bad, crate::proofs::LastLemmas::keys_good))]
fn take_keys(
    alloc: Global,
    heap: &Heap,
    syms: &Symbols,
    formals: &[OptionalFormal],
    list: Word,
    values: &mut Items<Word>,
) -> Result<bool, AllocError>
    requires lies { Lies heap.now list }
    requires list { IsList heap.now list }
    requires defaults { defaults_reach formals.now ≤ length heap.now }
    requires values { words_reach values.old ≤ length heap.now }
    ensures reach { IfOk result (λ _. words_reach values.new ≤ length heap.now) }
    ensures puts { IfOk result (λ fits. Puts heap.now values.old values.new fits (keys_taken syms.now.symbols (optionals_at heap.now formals.now) (items_at heap.now list))) }
{
    match key_pairs(alloc, heap, list)? {
        None => Ok(false),
        Some(pairs) => {
            if !keys_fit(heap, syms, formals, pairs.as_slice()) {
                return Ok(false);
            }
            push_keys(heap, syms, formals, pairs.as_slice(), values)?;
            Ok(true)
        }
    }
}

/// Whether no actual is left.
#[tactic(auto, using(crate::proofs::LastLemmas::nothing_left, crate::proofs::LastLemmas::something_left))]
fn is_end(heap: &Heap, _syms: &Symbols, _values: &Items<Word>, list: Word) -> bool
    requires lies { Lies heap.now list }
    requires list { IsList heap.now list }
    ensures { Puts heap.now _values.now _values.now result (last_taken _syms.now.symbols None None (items_at heap.now list)) }
{
    match heap.look(list) {
        Seen::Pair(_, _) => false,
        Seen::Symbol(_) => true,
        Seen::Integer(_) => true,
        Seen::Text(_) => true,
    }
}

/// Puts all actuals that are left as the value of the formal for the rest.
#[tactic(auto, using(crate::proofs::LastLemmas::all_rest))]
fn take_rest(
    heap: &Heap,
    _syms: &Symbols,
    _name: SymId,
    list: Word,
    values: &mut Items<Word>,
) -> Result<bool, AllocError>
    requires lies { Lies heap.now list }
    requires list { IsList heap.now list }
    requires values { words_reach values.old ≤ length heap.now }
    ensures reach { IfOk result (λ _. words_reach values.new ≤ length heap.now) }
    ensures puts { IfOk result (λ fits. Puts heap.now values.old values.new fits (last_taken _syms.now.symbols (Some _name.0) None (items_at heap.now list))) }
{
    push(heap, values, list)?;
    Ok(true)
}

/// Puts them, and then the values of the formals with keys.
#[tactic(auto, using(crate::proofs::LastLemmas::rest_puts))]
fn take_both(
    alloc: Global,
    heap: &Heap,
    syms: &Symbols,
    _name: SymId,
    keys: &[OptionalFormal],
    list: Word,
    values: &mut Items<Word>,
) -> Result<bool, AllocError>
    requires lies { Lies heap.now list }
    requires list { IsList heap.now list }
    requires defaults { defaults_reach keys.now ≤ length heap.now }
    requires values { words_reach values.old ≤ length heap.now }
    ensures reach { IfOk result (λ _. words_reach values.new ≤ length heap.now) }
    ensures puts { IfOk result (λ fits. Puts heap.now values.old values.new fits (last_taken syms.now.symbols (Some _name.0) (Some (optionals_at heap.now keys.now)) (items_at heap.now list))) }
{
    push(heap, values, list)?;
    let fits = take_keys(alloc, heap, syms, keys, list, values)?;
    Ok(fits)
}

/// Puts the value of the formal for the rest, and those of the formals with keys. Whether the actuals that are left fit.
fn take_last(
    alloc: Global,
    heap: &Heap,
    syms: &Symbols,
    formals: &MacroFormals,
    list: Word,
    values: &mut Items<Word>,
) -> Result<bool, AllocError>
    requires lies { Lies heap.now list }
    requires list { IsList heap.now list }
    requires defaults { optionals_reach formals.now.keys ≤ length heap.now }
    requires values { words_reach values.old ≤ length heap.now }
    ensures reach { IfOk result (λ _. words_reach values.new ≤ length heap.now) }
    ensures puts { IfOk result (λ fits. Puts heap.now values.old values.new fits (last_taken syms.now.symbols (seen_name formals.now.rest) (seen_optionals heap.now formals.now.keys) (items_at heap.now list))) }
{
    match &formals.keys {
        None => match formals.rest {
            None => Ok(is_end(heap, syms, values, list)),
            Some(name) => {
                let fits = take_rest(heap, syms, name, list, values)?;
                Ok(fits)
            }
        },
        Some(keys) => match formals.rest {
            None => {
                let fits = take_keys(alloc, heap, syms, keys.as_slice(), list, values)?;
                Ok(fits)
            }
            Some(name) => {
                let fits = take_both(alloc, heap, syms, name, keys.as_slice(), list, values)?;
                Ok(fits)
            }
        },
    }
}

/// A value of each formal of a macro, in their order, from a true list of actuals. None where the actuals do not fit.
#[tactic(auto, using(crate::proofs::LastLemmas::macro_few, crate::proofs::LastLemmas::macro_none, crate::proofs::LastLemmas::macro_all, crate::proofs::CountLemmas::count))]
pub fn macro_values(
    alloc: Global,
    heap: &Heap,
    syms: &Symbols,
    formals: &MacroFormals,
    list: Word,
) -> Result<Option<Items<Word>>, AllocError>
    requires lies { Lies heap.now list }
    requires list { IsList heap.now list }
    requires formals { formals_reach formals.now ≤ length heap.now }
    ensures values { IfOk result (λ r. SeenValues heap.now r (macro_values syms.now.symbols (seen_formals heap.now formals.now) (items_at heap.now list))) }
    ensures count { IfOk result (λ r. IfSome r (λ ws. length ws ≡ length (formal_names (seen_formals heap.now formals.now)))) }
{
    let mut values = Items::new(alloc);
    match take_required(heap, formals.required.as_slice(), list, &mut values)? {
        None => Ok(None),
        Some(left) => {
            let left = take_optional(heap, formals.optional.as_slice(), left, &mut values)?;
            if !take_last(alloc, heap, syms, formals, left, &mut values)? {
                return Ok(None);
            }
            Ok(Some(values))
        }
    }
}
