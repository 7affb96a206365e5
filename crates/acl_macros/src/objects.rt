//! All formals of a macro in the order of text, and what is wrong with them.

ghost use Rattle.std.specs.Prelude.{◌≡◌, ◌≤◌, ◌++◌, ◌∷◌, [], length, IfOk, OnOk, option_map, unwrap_or};
ghost use Rattle.std.specs.Option.{option_to_list};
ghost use Rattle.model_expansion.specs.Faults.{BadName};
ghost use Rattle.model_stobjs.specs.Answers.{first_given};
ghost use Rattle.model_events.specs.Declarations.{bad_formal, formals_of, formals_fault};
ghost use Rattle.model_events.specs.Macros.{optional_objects, formal_objects};
ghost use Rattle.acl_heap.specs.Objects.{object_of};
ghost use Rattle.acl_terms.specs.Forms.{numbers};
ghost use Rattle.acl_layers.specs.Lists.{option_reach};
ghost use Rattle.acl_declare.specs.Said.{words_at, words_reach};
ghost use Rattle.acl_declare.specs.Formals.{SeenFault};
ghost use Rattle.acl_macros.specs.Written.{seen_word, seen_optionals, optionals_reach, seen_keys, keys_reach, seen_formals, formals_reach};

use crate::sections::push_word;
use crate::written::{WrittenFormals, WrittenOptional};
use acl_base::{SymId, Word};
use acl_declare::{FormalFault, repeated, symbol};
use acl_heap::Heap;
use acl_layers::variable_name;
use acl_syms::Symbols;
use sqlite_items::Items;
use std::alloc::{AllocError, Global};

fn push_option(heap: &Heap, all: &mut Items<Word>, word: Option<Word>) -> Result<(), AllocError>
    requires all { words_reach all.old ≤ length heap.now }
    requires word { option_reach word ≤ length heap.now }
    ensures at { OnOk result (words_at heap.now all.new ≡ words_at heap.now all.old ++ option_to_list (seen_word heap.now word)) }
    ensures reach { OnOk result (words_reach all.new ≤ length heap.now) }
{
    match word {
        Some(word) => push_word(heap, all, word)?,
        None => {}
    }
    Ok(())
}

fn push_formal(
    heap: &Heap,
    all: &mut Items<Word>,
    formal: &WrittenOptional,
) -> Result<(), AllocError>
    requires all { words_reach all.old ≤ length heap.now }
    requires formal { optionals_reach (formal.now ∷ []) ≤ length heap.now }
    ensures at { OnOk result (words_at heap.now all.new ≡ words_at heap.now all.old ++ optional_objects (seen_optionals heap.now (formal.now ∷ []))) }
    ensures reach { OnOk result (words_reach all.new ≤ length heap.now) }
{
    push_word(heap, all, formal.name)?;
    push_option(heap, all, formal.supplied)?;
    Ok(())
}

/// Puts the names of formals that may be left out last, each with the formal that says whether it was there.
#[tactic(auto, using(crate::proofs::ObjectLemmas::optionals_more, crate::proofs::ObjectLemmas::optionals_end, crate::proofs::ObjectLemmas::optional_lies, crate::proofs::ObjectLemmas::optionals_lie))]
fn push_formals(
    heap: &Heap,
    all: &mut Items<Word>,
    formals: &[WrittenOptional],
) -> Result<(), AllocError>
    requires all { words_reach all.old ≤ length heap.now }
    requires formals { optionals_reach formals.now ≤ length heap.now }
    ensures at { OnOk result (words_at heap.now all.new ≡ words_at heap.now all.old ++ optional_objects (seen_optionals heap.now formals.now)) }
    ensures reach { OnOk result (words_reach all.new ≤ length heap.now) }
{
    let mut rest = formals;
    'formals: while let Some((formal, others)) = rest.split_first() {
        push_formal(heap, all, formal)?;
        rest = others;
    }
    Ok(())
}

fn push_keys(
    heap: &Heap,
    all: &mut Items<Word>,
    keys: &Option<Items<WrittenOptional>>,
) -> Result<(), AllocError>
    requires all { words_reach all.old ≤ length heap.now }
    requires keys { keys_reach keys.now ≤ length heap.now }
    ensures at { OnOk result (words_at heap.now all.new ≡ words_at heap.now all.old ++ optional_objects (unwrap_or (seen_keys heap.now keys.now) [])) }
    ensures reach { OnOk result (words_reach all.new ≤ length heap.now) }
{
    match keys {
        Some(keys) => push_formals(heap, all, keys.as_slice())?,
        None => {}
    }
    Ok(())
}

/// All formals, in the order of text.
#[tactic(auto, using(crate::proofs::ObjectLemmas::all_objects))]
pub fn formal_words(
    alloc: Global,
    heap: &Heap,
    formals: &WrittenFormals,
) -> Result<Items<Word>, AllocError>
    requires { formals_reach formals.now ≤ length heap.now }
    ensures at { IfOk result (λ ws. words_at heap.now ws ≡ formal_objects (seen_formals heap.now formals.now)) }
    ensures reach { IfOk result (λ ws. words_reach ws ≤ length heap.now) }
{
    let mut all = Items::from_slice(alloc, formals.required.as_slice())?;
    push_formals(heap, &mut all, formals.optional.as_slice())?;
    push_option(heap, &mut all, formals.rest)?;
    push_keys(heap, &mut all, &formals.keys)?;
    Ok(all)
}

/// The first that may be no formal.
#[tactic(auto, using(crate::proofs::ObjectLemmas::bad_more, crate::proofs::ObjectLemmas::bad_found, crate::proofs::ObjectLemmas::bad_end, crate::proofs::ObjectLemmas::word_lies, crate::proofs::ObjectLemmas::words_lie))]
fn bad_formal(heap: &Heap, syms: &Symbols, words: &[Word]) -> Option<Word>
    requires { words_reach words.now ≤ length heap.now }
    ensures is { first_given (bad_formal syms.now.symbols) (words_at heap.now words.now) ≡ option_map (λ x. BadName (object_of heap.now x)) result }
    ensures lies { option_reach result ≤ length heap.now }
{
    let mut rest = words;
    'words: while let Some((word, others)) = rest.split_first() {
        if variable_name(heap, syms, *word).is_none() {
            return Some(*word);
        }
        rest = others;
    }
    None
}

/// The symbols among formals.
#[tactic(auto, using(crate::proofs::ObjectLemmas::symbols_more, crate::proofs::ObjectLemmas::symbols_other, crate::proofs::ObjectLemmas::symbols_end, crate::proofs::ObjectLemmas::word_lies, crate::proofs::ObjectLemmas::words_lie, acl_layers::proofs::BindingLemmas::numbers_push))]
pub fn symbols_among(
    alloc: Global,
    heap: &Heap,
    _syms: &Symbols,
    words: &[Word],
) -> Result<Items<SymId>, AllocError>
    requires { words_reach words.now ≤ length heap.now }
    ensures { IfOk result (λ xs. numbers xs ≡ formals_of _syms.now.symbols (words_at heap.now words.now)) }
{
    let mut names = Items::new(alloc);
    let mut rest = words;
    'words: while let Some((word, others)) = rest.split_first() {
        match symbol(heap, *word) {
            Some(name) => names.push(name)?,
            None => {}
        }
        rest = others;
    }
    Ok(names)
}

/// A formal that may be none, or else the earliest that comes again.
#[tactic(auto, using(acl_declare::proofs::FormalLemmas::fault_bad, acl_declare::proofs::FormalLemmas::fault_repeated, acl_declare::proofs::FormalLemmas::fault_none))]
pub fn formals_fault(
    alloc: Global,
    heap: &Heap,
    syms: &Symbols,
    words: &[Word],
) -> Result<Option<FormalFault>, AllocError>
    requires { words_reach words.now ≤ length heap.now }
    ensures { IfOk result (λ f. SeenFault heap.now f (formals_fault syms.now.symbols (words_at heap.now words.now))) }
{
    match bad_formal(heap, syms, words) {
        Some(x) => Ok(Some(FormalFault::BadName(x))),
        None => {
            let names = symbols_among(alloc, heap, syms, words)?;
            match repeated(alloc, names.as_slice())? {
                Some(name) => Ok(Some(FormalFault::DuplicateFormal(name))),
                None => Ok(None),
            }
        }
    }
}
