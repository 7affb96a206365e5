//! What binding forms bind: variables, the forms of their values, and the body behind declarations.

ghost use Rattle.std.specs.Prelude.{◌≡◌, ◌≤◌, [], ◌∷◌, ◌++◌, length, max, IfOk, OnOk};
ghost use Rattle.model_expansion.specs.Forms.{has_head, are_different};
ghost use Rattle.model_expansion.specs.Layers.{binding, bindings, variables, body_of, bound_names, bound_forms};
ghost use Rattle.model_terms.specs.Classes.{has};
ghost use Rattle.acl_heap.specs.Objects.{object_of, Lies, reach};
ghost use Rattle.acl_terms.specs.Forms.{numbers};
ghost use Rattle.acl_layers.specs.Lists.{seen_left, LeftLies, SeenWord, seen_binding, SeenBinding, SeenBindings, SeenSymbols, seen_bindings, bindings_reach};
ghost use Rattle.acl_layers.specs.Layers.{StandsParts};

use crate::layer::{Left, Part};
use crate::lists::{elements, is_end, is_symbol, take, two};
use crate::making::push_form;
use crate::names::variable_name;
use crate::words;
use acl_base::{SymId, Word};
use acl_heap::{Heap, Seen};
use acl_syms::Symbols;
use sqlite_items::Items;
use std::alloc::{AllocError, Global};

/// The variable and the form of a binding.
#[tactic(auto, using(crate::proofs::BindingLemmas::no_list, crate::proofs::BindingLemmas::not_two, crate::proofs::BindingLemmas::is_two))]
pub fn binding(heap: &Heap, syms: &Symbols, x: Word) -> Option<(SymId, Word)>
    requires { Lies heap.now x }
    ensures { SeenBinding heap.now result (binding syms.now.symbols (object_of heap.now x)) }
{
    let left = elements(heap, x)?;
    let (name, form) = two(heap, left)?;
    let name = variable_name(heap, syms, name)?;
    Some((name, form))
}

#[tactic(auto, using(crate::proofs::BindingLemmas::binding_pushed, crate::proofs::BindingLemmas::reach_pushed))]
fn push_binding(
    _heap: &Heap,
    all: &mut Items<(SymId, Word)>,
    b: (SymId, Word),
) -> Result<(), AllocError>
    ensures at { OnOk result (seen_bindings _heap.now all.new ≡ seen_bindings _heap.now all.old ++ seen_binding _heap.now b ∷ []) }
    ensures reach { OnOk result (bindings_reach all.new ≡ max (bindings_reach all.old) (reach b.1)) }
{
    all.push(b)?;
    Ok(())
}

/// The bindings of a list. None where it is no true list of bindings.
#[tactic(auto, using(crate::proofs::EachLemmas::step_some, crate::proofs::EachLemmas::step_none, crate::proofs::EachLemmas::start, crate::proofs::EachLemmas::end_nil, crate::proofs::EachLemmas::end_symbol, crate::proofs::EachLemmas::end_integer, crate::proofs::EachLemmas::end_text))]
pub fn bindings(
    alloc: Global,
    heap: &Heap,
    syms: &Symbols,
    list: Word,
) -> Result<Option<Items<(SymId, Word)>>, AllocError>
    requires { Lies heap.now list }
    ensures { IfOk result (λ r. SeenBindings heap.now r (bindings syms.now.symbols (object_of heap.now list))) }
{
    let mut found = Items::new(alloc);
    let mut rest = list;
    'items: loop {
        match heap.look(rest) {
            Seen::Pair(first, next) => {
                match binding(heap, syms, first) {
                    Some(b) => push_binding(heap, &mut found, b)?,
                    None => return Ok(None),
                }
                rest = next;
            }
            Seen::Symbol(s) => return if s.0 == words::NIL {
                Ok(Some(found))
            } else {
                Ok(None)
            },
            Seen::Integer(_) => return Ok(None),
            Seen::Text(_) => return Ok(None),
        }
    }
}

/// The variables of a list. None where it is no true list of variables.
#[tactic(auto, using(crate::proofs::EachLemmas::step_some, crate::proofs::EachLemmas::step_none, crate::proofs::EachLemmas::start, crate::proofs::EachLemmas::end_nil, crate::proofs::EachLemmas::end_symbol, crate::proofs::EachLemmas::end_integer, crate::proofs::EachLemmas::end_text, crate::proofs::BindingLemmas::numbers_push))]
pub fn variables(
    alloc: Global,
    heap: &Heap,
    syms: &Symbols,
    list: Word,
) -> Result<Option<Items<SymId>>, AllocError>
    requires { Lies heap.now list }
    ensures { IfOk result (λ r. SeenSymbols r (variables syms.now.symbols (object_of heap.now list))) }
{
    let mut found = Items::new(alloc);
    let mut rest = list;
    'items: loop {
        match heap.look(rest) {
            Seen::Pair(first, next) => {
                match variable_name(heap, syms, first) {
                    Some(name) => found.push(name)?,
                    None => return Ok(None),
                }
                rest = next;
            }
            Seen::Symbol(s) => return if s.0 == words::NIL {
                Ok(Some(found))
            } else {
                Ok(None)
            },
            Seen::Integer(_) => return Ok(None),
            Seen::Text(_) => return Ok(None),
        }
    }
}

/// Whether it is a list with this head.
pub fn has_head(heap: &Heap, x: Word, number: u32) -> bool
    requires { Lies heap.now x }
    ensures { result ≡ has_head number (object_of heap.now x) }
{
    match heap.look(x) {
        Seen::Pair(first, _) => is_symbol(heap, first, number),
        Seen::Integer(_) => false,
        Seen::Symbol(_) => false,
        Seen::Text(_) => false,
    }
}

/// The body behind declarations.
#[tactic(auto, using(crate::proofs::BindingLemmas::body_last, crate::proofs::BindingLemmas::body_none, crate::proofs::BindingLemmas::body_declared, crate::proofs::BindingLemmas::body_other))]
pub fn body_of(heap: &Heap, _syms: &Symbols, left: Left) -> Option<Word>
    requires { LeftLies heap.now left }
    ensures { SeenWord heap.now result (body_of _syms.now.symbols (seen_left heap.now left)) }
{
    let mut at = left;
    'forms: loop {
        match take(heap, at) {
            None => return None,
            Some((first, rest)) => {
                if is_end(heap, rest) {
                    return Some(first);
                }
                if !has_head(heap, first, words::DECLARE) {
                    return None;
                }
                at = rest;
            }
        }
    }
}

#[tactic(auto, using(crate::proofs::BindingLemmas::has_step, crate::proofs::BindingLemmas::has_end))]
fn is_among(names: &[SymId], x: SymId) -> bool
    ensures { result ≡ has (numbers names.now) x.0 }
{
    for name in names {
        if x.0 == name.0 {
            return true;
        }
    }
    false
}

/// Whether no name stands twice. The cost is quadratic in the names.
#[tactic(auto, using(crate::proofs::BindingLemmas::different_step, crate::proofs::BindingLemmas::different_end))]
pub fn are_different(names: &[SymId]) -> bool
    ensures { result ≡ are_different (numbers names.now) }
{
    for (i, name) in names.iter().enumerate() {
        if is_among(&names[i + 1..], *name) {
            return false;
        }
    }
    true
}

/// The names that are bound.
#[tactic(auto, using(crate::proofs::BindingLemmas::names_step, crate::proofs::BindingLemmas::names_end, crate::proofs::BindingLemmas::numbers_push))]
pub fn bound_names(
    alloc: Global,
    _heap: &Heap,
    bindings: &[(SymId, Word)],
) -> Result<Items<SymId>, AllocError>
    ensures { IfOk result (λ names. numbers names ≡ bound_names [] (seen_bindings _heap.now bindings.now)) }
{
    let mut names = Items::new(alloc);
    for binding in bindings {
        names.push(binding.0)?;
    }
    Ok(names)
}

/// The forms that are bound, as parts.
#[tactic(auto, using(crate::proofs::BindingLemmas::forms_step, crate::proofs::BindingLemmas::forms_end, crate::proofs::BindingLemmas::form_lies))]
pub fn bound_forms(
    alloc: Global,
    heap: &Heap,
    bindings: &[(SymId, Word)],
) -> Result<Items<Part>, AllocError>
    requires { bindings_reach bindings.now ≤ length heap.now }
    ensures { IfOk result (λ ps. StandsParts heap.now ps (bound_forms [] (seen_bindings heap.now bindings.now))) }
{
    let mut parts = Items::new(alloc);
    for binding in bindings {
        push_form(heap, &mut parts, binding.1)?;
    }
    Ok(parts)
}
