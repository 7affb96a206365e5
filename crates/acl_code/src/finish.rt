//! What is left to do at a form once its parts are built.

ghost use Rattle.std.specs.Prelude.{◌≡◌, ◌<◌, ◌≤◌, ℕ, map, length, Some, IfOk, option_map};
ghost use Rattle.acl_heap.specs.Objects.{object_of, reach};
ghost use Rattle.model_slots.specs.Trees as trees;
ghost use Rattle.model_slots.specs.Resolved.{both, all_three};
ghost use Rattle.acl_code.specs.Tables.{Within, AllWithin, seen_operand, operand_reach, seen_term, seen_parts, seen_child, Grown, TermsLie, ChildrenLie};
ghost use Rattle.acl_code.specs.Constants.{WordIsKnown, OperandIsKnown, ChildrenAreKnown, ConstantsAreKnown};

use crate::parts::{put, put_parts};
use crate::table::Terms;
use crate::term::{Child, Operand, Term};
use acl_base::{FnId, SymId, TermId, Word};
use acl_heap::Heap;
use sqlite_items::Items;
use std::alloc::AllocError;

pub fn finish_var(
    terms: &mut Terms,
    heap: &Heap,
    variable: Operand,
) -> Result<Option<TermId>, AllocError>
    requires word { operand_reach variable ≤ length heap.now }
    requires words { TermsLie heap.now terms.old }
    ensures within { IfOk result (λ r. Within terms.new r) }
    ensures is { IfOk result (λ r. seen_term heap.now terms.new r ≡ Some (trees.Leaf (seen_operand heap.now variable))) }
    ensures grows { Grown terms.old terms.new }
    ensures words { TermsLie heap.now terms.new }
    ensures known { (n : ℕ) → OperandIsKnown n heap.now variable → ConstantsAreKnown n heap.now terms.old → ConstantsAreKnown n heap.now terms.new }
{
    match variable {
        Operand::Slot(slot) => {
            let t = put(terms, heap, Term::Slot(slot))?;
            Ok(Some(t))
        }
        Operand::Const(word) => {
            let t = put(terms, heap, Term::Const(word))?;
            Ok(Some(t))
        }
    }
}

pub fn finish_const(
    terms: &mut Terms,
    heap: &Heap,
    word: Word,
) -> Result<Option<TermId>, AllocError>
    requires word { reach word ≤ length heap.now }
    requires words { TermsLie heap.now terms.old }
    ensures within { IfOk result (λ r. Within terms.new r) }
    ensures is { IfOk result (λ r. seen_term heap.now terms.new r ≡ Some (trees.Leaf (trees.Const (object_of heap.now word)))) }
    ensures grows { Grown terms.old terms.new }
    ensures words { TermsLie heap.now terms.new }
    ensures known { (n : ℕ) → WordIsKnown n heap.now word → ConstantsAreKnown n heap.now terms.old → ConstantsAreKnown n heap.now terms.new }
{
    let t = put(terms, heap, Term::Const(word))?;
    Ok(Some(t))
}

pub fn finish_if(
    terms: &mut Terms,
    heap: &Heap,
    at: u64,
    test: Option<TermId>,
    then: Option<TermId>,
    other: Option<TermId>,
) -> Result<Option<TermId>, AllocError>
    requires words { TermsLie heap.now terms.old }
    requires test { Within terms.old test }
    requires then { Within terms.old then }
    requires other { Within terms.old other }
    ensures within { IfOk result (λ r. Within terms.new r) }
    ensures is { IfOk result (λ r. seen_term heap.now terms.new r ≡ all_three (trees.If at) (seen_term heap.now terms.old test) (seen_term heap.now terms.old then) (seen_term heap.now terms.old other)) }
    ensures grows { Grown terms.old terms.new }
    ensures words { TermsLie heap.now terms.new }
    ensures known { (n : ℕ) → ConstantsAreKnown n heap.now terms.old → ConstantsAreKnown n heap.now terms.new }
{
    match test {
        None => Ok(None),
        Some(test) => match then {
            None => Ok(None),
            Some(then) => match other {
                None => Ok(None),
                Some(other) => {
                    let term = Term::If {
                        at,
                        test,
                        then,
                        other,
                    };
                    let t = put(terms, heap, term)?;
                    Ok(Some(t))
                }
            },
        },
    }
}

pub fn finish_let(
    terms: &mut Terms,
    heap: &Heap,
    at: u64,
    bound: Option<Items<TermId>>,
    body: Option<TermId>,
) -> Result<Option<TermId>, AllocError>
    requires words { TermsLie heap.now terms.old }
    requires bound { AllWithin terms.old bound }
    requires body { Within terms.old body }
    ensures within { IfOk result (λ r. Within terms.new r) }
    ensures is { IfOk result (λ r. seen_term heap.now terms.new r ≡ both (trees.Let at) (seen_parts heap.now terms.old bound) (seen_term heap.now terms.old body)) }
    ensures grows { Grown terms.old terms.new }
    ensures words { TermsLie heap.now terms.new }
    ensures known { (n : ℕ) → ConstantsAreKnown n heap.now terms.old → ConstantsAreKnown n heap.now terms.new }
{
    match bound {
        None => Ok(None),
        Some(bound) => match body {
            None => Ok(None),
            Some(body) => {
                let bound = put_parts(terms, heap, bound.as_slice())?;
                let t = put(terms, heap, Term::Let { at, bound, body })?;
                Ok(Some(t))
            }
        },
    }
}

pub fn finish_mv(
    terms: &mut Terms,
    heap: &Heap,
    at: u64,
    parts: Option<Items<TermId>>,
) -> Result<Option<TermId>, AllocError>
    requires words { TermsLie heap.now terms.old }
    requires parts { AllWithin terms.old parts }
    ensures within { IfOk result (λ r. Within terms.new r) }
    ensures is { IfOk result (λ r. seen_term heap.now terms.new r ≡ option_map (trees.Mv at) (seen_parts heap.now terms.old parts)) }
    ensures grows { Grown terms.old terms.new }
    ensures words { TermsLie heap.now terms.new }
    ensures known { (n : ℕ) → ConstantsAreKnown n heap.now terms.old → ConstantsAreKnown n heap.now terms.new }
{
    match parts {
        None => Ok(None),
        Some(parts) => {
            let parts = put_parts(terms, heap, parts.as_slice())?;
            let t = put(terms, heap, Term::Mv { at, parts })?;
            Ok(Some(t))
        }
    }
}

pub fn finish_mv_let(
    terms: &mut Terms,
    heap: &Heap,
    at: u64,
    bound: Option<TermId>,
    body: Option<TermId>,
) -> Result<Option<TermId>, AllocError>
    requires words { TermsLie heap.now terms.old }
    requires bound { Within terms.old bound }
    requires body { Within terms.old body }
    ensures within { IfOk result (λ r. Within terms.new r) }
    ensures is { IfOk result (λ r. seen_term heap.now terms.new r ≡ both (trees.MvLet at) (seen_term heap.now terms.old bound) (seen_term heap.now terms.old body)) }
    ensures grows { Grown terms.old terms.new }
    ensures words { TermsLie heap.now terms.new }
    ensures known { (n : ℕ) → ConstantsAreKnown n heap.now terms.old → ConstantsAreKnown n heap.now terms.new }
{
    match bound {
        None => Ok(None),
        Some(bound) => match body {
            None => Ok(None),
            Some(body) => {
                let t = put(terms, heap, Term::MvLet { at, bound, body })?;
                Ok(Some(t))
            }
        },
    }
}

pub fn finish_stobj_let(
    terms: &mut Terms,
    heap: &Heap,
    at: u64,
    children: Option<Items<Child>>,
    producer: Option<TermId>,
    consumer: Option<TermId>,
) -> Result<Option<TermId>, AllocError>
    requires children { ChildrenLie heap.now children }
    requires words { TermsLie heap.now terms.old }
    requires producer { Within terms.old producer }
    requires consumer { Within terms.old consumer }
    ensures within { IfOk result (λ r. Within terms.new r) }
    ensures is { IfOk result (λ r. seen_term heap.now terms.new r ≡ all_three (trees.StobjLet at) (option_map (map (seen_child heap.now)) children) (seen_term heap.now terms.old producer) (seen_term heap.now terms.old consumer)) }
    ensures grows { Grown terms.old terms.new }
    ensures words { TermsLie heap.now terms.new }
    ensures known { (n : ℕ) → ChildrenAreKnown n heap.now children → ConstantsAreKnown n heap.now terms.old → ConstantsAreKnown n heap.now terms.new }
{
    match children {
        None => Ok(None),
        Some(children) => match producer {
            None => Ok(None),
            Some(producer) => match consumer {
                None => Ok(None),
                Some(consumer) => {
                    let term = Term::StobjLet {
                        at,
                        children,
                        producer,
                        consumer,
                    };
                    let t = put(terms, heap, term)?;
                    Ok(Some(t))
                }
            },
        },
    }
}

pub fn finish_with_local(
    terms: &mut Terms,
    heap: &Heap,
    at: u64,
    stobj: SymId,
    producer: Option<TermId>,
    body: Option<TermId>,
) -> Result<Option<TermId>, AllocError>
    requires words { TermsLie heap.now terms.old }
    requires producer { Within terms.old producer }
    requires body { Within terms.old body }
    ensures within { IfOk result (λ r. Within terms.new r) }
    ensures is { IfOk result (λ r. seen_term heap.now terms.new r ≡ both (trees.WithLocal at stobj.0) (seen_term heap.now terms.old producer) (seen_term heap.now terms.old body)) }
    ensures grows { Grown terms.old terms.new }
    ensures words { TermsLie heap.now terms.new }
    ensures known { (n : ℕ) → ConstantsAreKnown n heap.now terms.old → ConstantsAreKnown n heap.now terms.new }
{
    match producer {
        None => Ok(None),
        Some(producer) => match body {
            None => Ok(None),
            Some(body) => {
                let term = Term::WithLocal {
                    at,
                    stobj,
                    producer,
                    body,
                };
                let t = put(terms, heap, term)?;
                Ok(Some(t))
            }
        },
    }
}

pub fn finish_must_be_equal(
    terms: &mut Terms,
    heap: &Heap,
    logic: Option<TermId>,
) -> Result<Option<TermId>, AllocError>
    requires words { TermsLie heap.now terms.old }
    requires logic { Within terms.old logic }
    ensures within { IfOk result (λ r. Within terms.new r) }
    ensures is { IfOk result (λ r. seen_term heap.now terms.new r ≡ option_map trees.MustBeEqual (seen_term heap.now terms.old logic)) }
    ensures grows { Grown terms.old terms.new }
    ensures words { TermsLie heap.now terms.new }
    ensures known { (n : ℕ) → ConstantsAreKnown n heap.now terms.old → ConstantsAreKnown n heap.now terms.new }
{
    match logic {
        None => Ok(None),
        Some(logic) => {
            let t = put(terms, heap, Term::MustBeEqual(logic))?;
            Ok(Some(t))
        }
    }
}

pub fn finish_call(
    terms: &mut Terms,
    heap: &Heap,
    at: u64,
    function: Option<FnId>,
    actuals: Option<Items<TermId>>,
) -> Result<Option<TermId>, AllocError>
    requires words { TermsLie heap.now terms.old }
    requires actuals { AllWithin terms.old actuals }
    ensures within { IfOk result (λ r. Within terms.new r) }
    ensures is { IfOk result (λ r. seen_term heap.now terms.new r ≡ both (trees.Call at) (option_map (λ (f : FnId). f.0) function) (seen_parts heap.now terms.old actuals)) }
    ensures grows { Grown terms.old terms.new }
    ensures words { TermsLie heap.now terms.new }
    ensures known { (n : ℕ) → ConstantsAreKnown n heap.now terms.old → ConstantsAreKnown n heap.now terms.new }
{
    match function {
        None => Ok(None),
        Some(function) => match actuals {
            None => Ok(None),
            Some(actuals) => {
                let actuals = put_parts(terms, heap, actuals.as_slice())?;
                let term = Term::Call {
                    at,
                    function,
                    actuals,
                };
                let t = put(terms, heap, term)?;
                Ok(Some(t))
            }
        },
    }
}
