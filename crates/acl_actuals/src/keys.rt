//! Keys with their values.

ghost use Rattle.std.specs.Prelude.{◌≡◌, ◌≤◌, ◌++◌, ◌&&◌, ◌∷◌, [], length, max, nat_le, option_map, IfOk, OnOk};
ghost use Rattle.std.specs.List.{list_all};
ghost use Rattle.model_objects.specs.Object.{Object};
ghost use Rattle.model_terms.specs.Worlds as worlds;
ghost use Rattle.model_expansion.specs.Expansion.{key_pairs, names_formal, is_known_key, key_count, keys_fit, actual_of_key, all_key_values};
ghost use Rattle.acl_heap.specs.Objects.{object_of, Lies, reach};
ghost use Rattle.acl_terms.specs.Definitions.{seen_optional};
ghost use Rattle.acl_layers.specs.Lists.{option_reach};
ghost use Rattle.acl_actuals.specs.Values.{words_at, words_reach, IsList, items_at, optionals_at, defaults_reach, pair_at, pairs_at, pairs_reach, all_known, all_once, SeenPairs};

use crate::taking::push_optional;
use acl_base::Word;
use acl_heap::{Heap, Seen};
use acl_layers::{is_key, symbol_name};
use acl_syms::Symbols;
use acl_terms::OptionalFormal;
use sqlite_items::Items;
use std::alloc::{AllocError, Global};

#[tactic(auto, using(crate::proofs::KeyLemmas::pair_pushed, crate::proofs::KeyLemmas::reach_pushed))]
fn push_pair(
    _heap: &Heap,
    pairs: &mut Items<(Word, Word)>,
    pair: (Word, Word),
) -> Result<(), AllocError>
    ensures at { OnOk result (pairs_at _heap.now pairs.new ≡ pairs_at _heap.now pairs.old ++ pair_at _heap.now pair ∷ []) }
    ensures reach { OnOk result (pairs_reach pairs.new ≡ max (pairs_reach pairs.old) (max (reach pair.0) (reach pair.1))) }
{
    pairs.push(pair)?;
    Ok(())
}

/// Keys with their values. None where a key has none.
#[tactic(auto, using(crate::proofs::KeyLemmas::pairs_more, crate::proofs::KeyLemmas::pairs_odd, crate::proofs::KeyLemmas::pairs_end, crate::proofs::KeyLemmas::start))]
pub fn key_pairs(
    alloc: Global,
    heap: &Heap,
    list: Word,
) -> Result<Option<Items<(Word, Word)>>, AllocError>
    requires lies { Lies heap.now list }
    requires list { IsList heap.now list }
    ensures { IfOk result (λ r. SeenPairs heap.now r (key_pairs (items_at heap.now list))) }
{
    let mut pairs = Items::new(alloc);
    let mut at = list;
    'pairs: while let Seen::Pair(key, rest) = heap.look(at) {
        match heap.look(rest) {
            Seen::Pair(value, next) => {
                push_pair(heap, &mut pairs, (key, value))?;
                at = next;
            }
            Seen::Symbol(_) => return Ok(None),
            Seen::Integer(_) => return Ok(None),
            Seen::Text(_) => return Ok(None),
        }
    }
    Ok(Some(pairs))
}

/// Whether it is the keyword of a formal.
fn names_formal(heap: &Heap, syms: &Symbols, key: Word, formal: &OptionalFormal) -> bool
    requires { Lies heap.now key }
    ensures { result ≡ names_formal syms.now.symbols (object_of heap.now key) (seen_optional heap.now formal.now) }
{
    is_key(heap, syms, symbol_name(syms, formal.name), key)
}

#[tactic(auto, using(crate::proofs::KeyLemmas::known_step, crate::proofs::KeyLemmas::known_end))]
fn is_known(heap: &Heap, syms: &Symbols, formals: &[OptionalFormal], key: Word) -> bool
    requires { Lies heap.now key }
    ensures { result ≡ is_known_key syms.now.symbols (optionals_at heap.now formals.now) (object_of heap.now key) }
{
    let mut rest = formals;
    'formals: while let Some((formal, others)) = rest.split_first() {
        if names_formal(heap, syms, key, formal) {
            return true;
        }
        rest = others;
    }
    false
}

#[tactic(auto, using(crate::proofs::KeyLemmas::all_known_step, crate::proofs::KeyLemmas::all_known_end))]
fn are_known(
    heap: &Heap,
    syms: &Symbols,
    formals: &[OptionalFormal],
    pairs: &[(Word, Word)],
) -> bool
    requires { pairs_reach pairs.now ≤ length heap.now }
    ensures { result ≡ all_known syms.now.symbols (optionals_at heap.now formals.now) (pairs_at heap.now pairs.now) }
{
    let mut rest = pairs;
    'pairs: while let Some((pair, others)) = rest.split_first() {
        if !is_known(heap, syms, formals, pair.0) {
            return false;
        }
        rest = others;
    }
    true
}

/// Whether a formal has at most one key.
#[tactic(auto, using(crate::proofs::KeyLemmas::count_other, crate::proofs::KeyLemmas::count_first, crate::proofs::KeyLemmas::count_second, crate::proofs::KeyLemmas::count_end))]
fn stands_once(heap: &Heap, syms: &Symbols, formal: &OptionalFormal, pairs: &[(Word, Word)]) -> bool
    requires { pairs_reach pairs.now ≤ length heap.now }
    ensures { result ≡ nat_le (key_count syms.now.symbols (seen_optional heap.now formal.now) (pairs_at heap.now pairs.now)) 1 }
{
    let mut found: u32 = 0;
    let mut rest = pairs;
    'pairs: while let Some((pair, others)) = rest.split_first() {
        if names_formal(heap, syms, pair.0, formal) {
            if found == 1 {
                return false;
            }
            found = 1;
        }
        rest = others;
    }
    true
}

#[tactic(auto, using(crate::proofs::KeyLemmas::all_once_step, crate::proofs::KeyLemmas::all_once_end))]
fn stand_once(
    heap: &Heap,
    syms: &Symbols,
    formals: &[OptionalFormal],
    pairs: &[(Word, Word)],
) -> bool
    requires { pairs_reach pairs.now ≤ length heap.now }
    ensures { result ≡ all_once syms.now.symbols (optionals_at heap.now formals.now) (pairs_at heap.now pairs.now) }
{
    let mut rest = formals;
    'formals: while let Some((formal, others)) = rest.split_first() {
        if !stands_once(heap, syms, formal, pairs) {
            return false;
        }
        rest = others;
    }
    true
}

/// Whether each key is that of a formal, and no formal has two.
pub fn keys_fit(
    heap: &Heap,
    syms: &Symbols,
    formals: &[OptionalFormal],
    pairs: &[(Word, Word)],
) -> bool
    requires { pairs_reach pairs.now ≤ length heap.now }
    ensures { result ≡ keys_fit syms.now.symbols (optionals_at heap.now formals.now) (pairs_at heap.now pairs.now) }
{
    if !are_known(heap, syms, formals, pairs) {
        return false;
    }
    stand_once(heap, syms, formals, pairs)
}

/// The value of a formal's key.
#[tactic(auto, using(crate::proofs::KeyLemmas::actual_step, crate::proofs::KeyLemmas::actual_found, crate::proofs::KeyLemmas::actual_end))]
fn actual_of_key(
    heap: &Heap,
    syms: &Symbols,
    pairs: &[(Word, Word)],
    formal: &OptionalFormal,
) -> Option<Word>
    requires { pairs_reach pairs.now ≤ length heap.now }
    ensures is { option_map (object_of heap.now) result ≡ actual_of_key syms.now.symbols (pairs_at heap.now pairs.now) (seen_optional heap.now formal.now) }
    ensures reach { option_reach result ≤ length heap.now }
{
    let mut rest = pairs;
    'pairs: while let Some((pair, others)) = rest.split_first() {
        if names_formal(heap, syms, pair.0, formal) {
            return Some(pair.1);
        }
        rest = others;
    }
    None
}

/// Puts the values of the formals with keys.
#[tactic(auto, using(crate::proofs::KeyLemmas::values_step, crate::proofs::KeyLemmas::values_end))]
pub fn push_keys(
    heap: &Heap,
    syms: &Symbols,
    formals: &[OptionalFormal],
    pairs: &[(Word, Word)],
    values: &mut Items<Word>,
) -> Result<(), AllocError>
    requires pairs { pairs_reach pairs.now ≤ length heap.now }
    requires defaults { defaults_reach formals.now ≤ length heap.now }
    requires values { words_reach values.old ≤ length heap.now }
    ensures reach { OnOk result (words_reach values.new ≤ length heap.now) }
    ensures at { OnOk result (words_at heap.now values.new ≡ words_at heap.now values.old ++ all_key_values syms.now.symbols (optionals_at heap.now formals.now) (pairs_at heap.now pairs.now)) }
{
    let mut rest = formals;
    'formals: while let Some((formal, others)) = rest.split_first() {
        let actual = actual_of_key(heap, syms, pairs, formal);
        push_optional(heap, formal, actual, values)?;
        rest = others;
    }
    Ok(())
}
