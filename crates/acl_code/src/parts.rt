//! Terms as they are put into a table.

ghost use Rattle.std.specs.Prelude.{◌≡◌, ◌<◌, ℕ, ◌∷◌, ◌++◌, [], map, length, IfOk, OnOk};
ghost use Rattle.acl_code.specs.Tables.{tree_over, forest, tree_at, trees_in, StandsOver, EndBelow, AllIn, Grown, TermLies, TermsLie};
ghost use Rattle.acl_code.specs.Constants.{TermIsKnown, ConstantsAreKnown};

use crate::table::Terms;
use crate::term::{Parts, Term};
use acl_base::TermId;
use acl_heap::Heap;
use std::alloc::AllocError;

/// Puts a term last.
#[tactic(auto, using(crate::proofs::TableLemmas::tree_pushed, crate::proofs::TableLemmas::grown_push, crate::proofs::TableLemmas::grown_none, crate::proofs::TableLemmas::last_within, crate::proofs::TableLemmas::lies_put, crate::proofs::TableLemmas::lies_none, crate::proofs::ConstantLemmas::known_put, crate::proofs::ConstantLemmas::known_same))]
pub fn put(terms: &mut Terms, _heap: &Heap, term: Term) -> Result<TermId, AllocError>
    requires over { StandsOver (length terms.old) term }
    requires word { TermLies _heap.now term }
    requires words { TermsLie _heap.now terms.old }
    ensures within { IfOk result (λ t. t.0 < length terms.new) }
    ensures is { IfOk result (λ t. tree_at _heap.now terms.new t ≡ tree_over _heap.now (forest _heap.now terms.old) term) }
    ensures grows { Grown terms.old terms.new }
    ensures words { TermsLie _heap.now terms.new }
    ensures known { (n : ℕ) → TermIsKnown n _heap.now term → ConstantsAreKnown n _heap.now terms.old → ConstantsAreKnown n _heap.now terms.new }
{
    let t = terms.add(term)?;
    Ok(t)
}

/// What stands for a part: a variable or a constant itself, and the number of any other.
#[tactic(auto, using(crate::proofs::TableLemmas::slot_there, crate::proofs::TableLemmas::const_there, crate::proofs::TableLemmas::const_lies, crate::proofs::ConstantLemmas::const_known))]
fn part_of(terms: &Terms, _heap: &Heap, t: TermId) -> Term
    requires within { t.0 < length terms.now }
    requires words { TermsLie _heap.now terms.now }
    ensures is { tree_over _heap.now (forest _heap.now terms.now) result ≡ tree_at _heap.now terms.now t }
    ensures over { StandsOver (length terms.now) result }
    ensures word { TermLies _heap.now result }
    ensures known { (n : ℕ) → ConstantsAreKnown n _heap.now terms.now → TermIsKnown n _heap.now result }
{
    match terms.term(t) {
        Term::Slot(slot) => Term::Slot(*slot),
        Term::Const(word) => Term::Const(*word),
        Term::Part(_) => Term::Part(t),
        Term::If { .. } => Term::Part(t),
        Term::Let { .. } => Term::Part(t),
        Term::Mv { .. } => Term::Part(t),
        Term::MvLet { .. } => Term::Part(t),
        Term::StobjLet { .. } => Term::Part(t),
        Term::WithLocal { .. } => Term::Part(t),
        Term::MustBeEqual(_) => Term::Part(t),
        Term::Call { .. } => Term::Part(t),
    }
}

#[tactic(auto, using(crate::proofs::TableLemmas::forest_put, crate::proofs::TableLemmas::grown_push, crate::proofs::TableLemmas::grown_none, crate::proofs::TableLemmas::lies_put, crate::proofs::TableLemmas::lies_none, crate::proofs::ConstantLemmas::known_put, crate::proofs::ConstantLemmas::known_same))]
fn put_part(terms: &mut Terms, heap: &Heap, t: TermId) -> Result<(), AllocError>
    requires within { t.0 < length terms.old }
    requires words { TermsLie heap.now terms.old }
    ensures is { OnOk result (forest heap.now terms.new ≡ forest heap.now terms.old ++ tree_at heap.now terms.old t ∷ []) }
    ensures grows { Grown terms.old terms.new }
    ensures words { TermsLie heap.now terms.new }
    ensures known { (n : ℕ) → ConstantsAreKnown n heap.now terms.old → ConstantsAreKnown n heap.now terms.new }
{
    let part = part_of(terms, heap, t);
    terms.add(part)?;
    Ok(())
}

/// Puts what stands for these parts last, one after another.
pub fn put_parts(terms: &mut Terms, heap: &Heap, parts: &[TermId]) -> Result<Parts, AllocError>
    requires within { AllIn terms.old parts.now }
    requires words { TermsLie heap.now terms.old }
    ensures are { IfOk result (λ p. trees_in (forest heap.now terms.new) p ≡ map (tree_at heap.now terms.old) parts.now) }
    ensures end { IfOk result (λ p. EndBelow (length terms.new) p) }
    ensures grows { Grown terms.old terms.new }
    ensures words { TermsLie heap.now terms.new }
    ensures known { (n : ℕ) → ConstantsAreKnown n heap.now terms.old → ConstantsAreKnown n heap.now terms.new }
{
    let first = TermId(terms.len());
    for part in parts {
        put_part(terms, heap, *part)?;
    }
    Ok(Parts {
        first,
        count: parts.len() as u64,
    })
}
