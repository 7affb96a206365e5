//! An engine for macros whose body is a variable or a small constant.

ghost use Rattle.std.specs.Prelude.{◌≡◌, ℕ, ◌≤◌, [], length, Some, IfOk, IfSome};
ghost use Rattle.model_symbols.specs.Symbols.{Table};
ghost use Rattle.model_prims.specs.Kinds.{by_number};
ghost use Rattle.model_terms.specs.Faults.{formal_names};
ghost use Rattle.model_eval.specs.Outcomes.{Stobjs, Plain};
ghost use Rattle.model_eval.specs.Variables.{variable_in, bound, plain};
ghost use Rattle.acl_forms.specs.Forms.{AreWhole, IsWhole};
ghost use Rattle.acl_heap.specs.Objects.{Objects, object_of};
ghost use Rattle.acl_terms.specs.Definitions.{seen_formals};
ghost use Rattle.acl_terms.specs.Forms.{numbers};
ghost use Rattle.acl_engine.specs.Outcomes.{seen_body, words_at, all_shown, shown_words};
ghost use Rattle.acl_expand_rows.specs.Leaves.{leaf_value, Given};

use acl_base::{Limits, SymId, Word};
use acl_check::formal_names;
use acl_engine::{Engine, Outcome};
use acl_heap::Heap;
use acl_syms::Symbols;
use acl_terms::{Core, Macro, Shown, Stop};
use acl_worlds::World;
use std::alloc::{AllocError, Global};

/// Evaluates a body that is a formal, a symbol or an integer of 64 bits; another body is refused as for want of memory.
#[derive(Drop)]
pub struct LeafEngine {
    alloc: Global,
}

impl LeafEngine {
    pub fn new(alloc: Global) -> LeafEngine {
        LeafEngine { alloc }
    }
}

/// The value of a variable among names, each with a value.
fn value_of(
    heap: &Heap,
    syms: &Symbols,
    names: &[SymId],
    actuals: &[Word],
    x: SymId,
) -> Option<Word>
    ensures is { IfSome result (λ w. variable_in by_number (bound (numbers names.now) (plain (words_at heap.now actuals.now)) []) x.0 ≡ Plain (object_of heap.now w)) }
    ensures whole { AreWhole syms.now heap.now actuals.now → IfSome result (IsWhole syms.now heap.now) }
{
    match names.split_first() {
        None => None,
        Some((name, others)) => match actuals.split_first() {
            None => None,
            Some((word, words)) => {
                if x.0 == name.0 {
                    Some(*word)
                } else {
                    value_of(heap, syms, others, words, x)
                }
            }
        },
    }
}

/// A constant that has no cells, and whose symbol is known.
fn constant(syms: &Symbols, _heap: &Heap, word: Word) -> Option<Word>
    ensures is { IfSome result (λ w. w ≡ word) }
    ensures whole { IfSome result (IsWhole syms.now _heap.now) }
{
    match word {
        Word::Small(n) => Some(Word::Small(n)),
        Word::Sym(s) => {
            if s.0 < syms.count() {
                Some(Word::Sym(s))
            } else {
                None
            }
        }
        Word::Big(_) => None,
        Word::Str(_) => None,
        Word::Cons(_) => None,
    }
}

/// The value of a macro's body that is a variable or a small constant.
fn body_value(
    alloc: Global,
    heap: &Heap,
    syms: &Symbols,
    definition: &Macro,
    actuals: &[Word],
) -> Option<Word>
    requires whole { AreWhole syms.now heap.now actuals.now }
    ensures is { IfSome result (λ w. leaf_value (seen_body heap.now definition.now) (bound (formal_names (seen_formals heap.now definition.now.formals)) (plain (words_at heap.now actuals.now)) []) ≡ Some (Plain (object_of heap.now w))) }
    ensures whole { IfSome result (IsWhole syms.now heap.now) }
{
    match &definition.body {
        Core::Const(word) => constant(syms, heap, *word),
        Core::Var(x) => match formal_names(alloc, heap, &definition.formals) {
            Err(_) => None,
            Ok(names) => value_of(heap, syms, names.as_slice(), actuals, *x),
        },
        Core::If(_, _, _) => None,
        Core::Let(_, _) => None,
        Core::Mv(_) => None,
        Core::MvLet(_, _, _) => None,
        Core::StobjLet { .. } => None,
        Core::WithLocal { .. } => None,
        Core::MustBeEqual(_, _) => None,
        Core::Call(_, _) => None,
    }
}

/// An evaluation that gave a value and made no call.
fn gives(alloc: Global, word: Word, used: u64) -> Result<Outcome, AllocError>
    ensures { IfOk result (λ o. Given o word used) }
{
    let mut values = Vec::new(alloc);
    values.push(Shown::Value(word))?;
    Ok(Outcome {
        stop: None,
        values,
        calls: used,
        outer: 0,
        inside: None,
        cut: 1,
    })
}

/// An evaluation that was not made.
fn refuses(alloc: Global, used: u64) -> Outcome
    ensures stop { result.stop ≡ Some Stop.Memory }
    ensures calls { result.calls ≡ used }
    ensures outer { result.outer ≡ 0 }
{
    Outcome {
        stop: Some(Stop::Memory),
        values: Vec::new(alloc),
        calls: used,
        outer: 0,
        inside: None,
        cut: 1,
    }
}

impl Engine for LeafEngine {
    ghost live = { λ s. [] };

    ghost fits = { λ s h w t. Unit {0} };

    #[tactic(auto, using(crate::proofs::LeafLemmas::gives_value, crate::proofs::LeafLemmas::value_whole, crate::proofs::LeafLemmas::refused, crate::proofs::LeafLemmas::refused_whole))]
    fn apply(
        &mut self,
        _world: &World,
        heap: &mut Heap,
        syms: &mut Symbols,
        definition: &Macro,
        actuals: &[Word],
        used: u64,
        _limits: Limits,
    ) -> Outcome {
        match body_value(self.alloc, heap, syms, definition, actuals) {
            None => refuses(self.alloc, used),
            Some(word) => match gives(self.alloc, word, used) {
                Ok(outcome) => outcome,
                Err(_) => refuses(self.alloc, used),
            },
        }
    }

    ghost stays_fit = { λ s h h' w t t' e g u. u };
}
