//! Formals of a macro by their names.

ghost use Rattle.std.specs.Prelude.{◌≡◌, ◌≤◌, ◌++◌, ◌∷◌, [], length, map, max, IfOk, OnOk, option_map};
ghost use Rattle.model_expansion.specs.Forms.{symbol_or_nil};
ghost use Rattle.model_events.specs.Macros.{optional_formal, macro_formals};
ghost use Rattle.acl_heap.specs.Objects.{reach};
ghost use Rattle.acl_terms.specs.Forms.{numbers};
ghost use Rattle.acl_terms.specs.Signatures.{seen_name};
ghost use Rattle.acl_terms.specs.Definitions as definitions;
ghost use Rattle.acl_layers.specs.Lists.{option_reach};
ghost use Rattle.acl_declare.specs.Said.{words_at, words_reach};
ghost use Rattle.acl_macros.specs.Written.{seen_word, seen_optional, optional_reach, seen_optionals, optionals_reach, seen_keys, keys_reach, seen_formals, formals_reach};
ghost use Rattle.acl_macros.specs.Drafts.{named_formals, defaults_reach};

use crate::written::{WrittenFormals, WrittenOptional};
use acl_base::{SymId, Word};
use acl_drafts::symbol_or_nil;
use acl_heap::Heap;
use acl_terms::{MacroFormals, OptionalFormal};
use sqlite_items::Items;
use std::alloc::{AllocError, Global};

/// The symbols that words are.
#[tactic(auto, using(crate::proofs::NamingLemmas::names_more, crate::proofs::NamingLemmas::names_end, acl_layers::proofs::BindingLemmas::numbers_push, crate::proofs::ObjectLemmas::word_lies, crate::proofs::ObjectLemmas::words_lie))]
fn names_of(alloc: Global, heap: &Heap, words: &[Word]) -> Result<Items<SymId>, AllocError>
    requires { words_reach words.now ≤ length heap.now }
    ensures { IfOk result (λ xs. numbers xs ≡ map symbol_or_nil (words_at heap.now words.now)) }
{
    let mut names = Items::new(alloc);
    let mut rest = words;
    'words: while let Some((word, others)) = rest.split_first() {
        names.push(symbol_or_nil(heap, *word))?;
        rest = others;
    }
    Ok(names)
}

/// The symbol that a word is, where there is one.
#[tactic(auto, using(crate::proofs::NamingLemmas::named_there))]
fn name_of(heap: &Heap, word: Option<Word>) -> Option<SymId>
    requires { option_reach word ≤ length heap.now }
    ensures { option_map symbol_or_nil (seen_word heap.now word) ≡ seen_name result }
{
    match word {
        Some(word) => Some(symbol_or_nil(heap, word)),
        None => None,
    }
}

#[tactic(auto, using(crate::proofs::NamingLemmas::formal_is))]
fn optional_formal(heap: &Heap, formal: &WrittenOptional) -> OptionalFormal
    requires { optional_reach formal.now ≤ length heap.now }
    ensures is { definitions.seen_optional heap.now result ≡ optional_formal (seen_optional heap.now formal.now) }
    ensures reach { reach result.default ≤ length heap.now }
{
    OptionalFormal {
        name: symbol_or_nil(heap, formal.name),
        default: formal.default,
        supplied: name_of(heap, formal.supplied),
    }
}

#[tactic(auto, using(crate::proofs::NamingLemmas::formal_pushed, crate::proofs::NamingLemmas::defaults_pushed))]
fn push_formal(
    _heap: &Heap,
    all: &mut Items<OptionalFormal>,
    formal: OptionalFormal,
) -> Result<(), AllocError>
    ensures at { OnOk result (named_formals _heap.now all.new ≡ named_formals _heap.now all.old ++ definitions.seen_optional _heap.now formal ∷ []) }
    ensures reach { OnOk result (defaults_reach all.new ≡ max (defaults_reach all.old) (reach formal.default)) }
{
    all.push(formal)?;
    Ok(())
}

/// Formals that may be left out, by their names.
#[tactic(auto, using(crate::proofs::NamingLemmas::formals_more, crate::proofs::NamingLemmas::formals_end, crate::proofs::NamingLemmas::formal_lies, crate::proofs::NamingLemmas::formals_lie))]
fn optional_formals(
    alloc: Global,
    heap: &Heap,
    formals: &[WrittenOptional],
) -> Result<Items<OptionalFormal>, AllocError>
    requires { optionals_reach formals.now ≤ length heap.now }
    ensures is { IfOk result (λ fs. named_formals heap.now fs ≡ map optional_formal (seen_optionals heap.now formals.now)) }
    ensures reach { IfOk result (λ fs. defaults_reach fs ≤ length heap.now) }
{
    let mut named = Items::new(alloc);
    let mut rest = formals;
    'formals: while let Some((formal, others)) = rest.split_first() {
        let one = optional_formal(heap, formal);
        push_formal(heap, &mut named, one)?;
        rest = others;
    }
    Ok(named)
}

/// Those behind the mark of keys, where it stands.
#[tactic(auto, using(crate::proofs::NamingLemmas::keys_named))]
fn key_formals(
    alloc: Global,
    heap: &Heap,
    keys: &Option<Items<WrittenOptional>>,
) -> Result<Option<Items<OptionalFormal>>, AllocError>
    requires { keys_reach keys.now ≤ length heap.now }
    ensures is { IfOk result (λ fs. definitions.seen_optionals heap.now fs ≡ option_map (map optional_formal) (seen_keys heap.now keys.now)) }
    ensures reach { IfOk result (λ fs. definitions.optionals_reach fs ≤ length heap.now) }
{
    match keys {
        None => Ok(None),
        Some(keys) => {
            let named = optional_formals(alloc, heap, keys.as_slice())?;
            Ok(Some(named))
        }
    }
}

/// Formals by their names.
#[tactic(auto, using(crate::proofs::NamingLemmas::all_named, crate::proofs::NamingLemmas::all_lie))]
pub fn macro_formals(
    alloc: Global,
    heap: &Heap,
    formals: &WrittenFormals,
) -> Result<MacroFormals, AllocError>
    requires { formals_reach formals.now ≤ length heap.now }
    ensures is { IfOk result (λ fs. macro_formals (seen_formals heap.now formals.now) ≡ definitions.seen_formals heap.now fs) }
    ensures reach { IfOk result (λ fs. definitions.formals_reach fs ≤ length heap.now) }
{
    let required = names_of(alloc, heap, formals.required.as_slice())?;
    let optional = optional_formals(alloc, heap, formals.optional.as_slice())?;
    let rest = name_of(heap, formals.rest);
    let keys = key_formals(alloc, heap, &formals.keys)?;
    Ok(MacroFormals {
        required,
        optional,
        rest,
        keys,
    })
}
