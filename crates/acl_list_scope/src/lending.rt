//! Children that are lent, and put back.

ghost use Rattle.std.specs.Prelude.{◌≡◌, ◌<◌, length, drop, IfOk, OnOk, OnErr, Some, slice_get, option_map};
ghost use Rattle.model_lists.specs.Lists as model;
ghost use Rattle.model_eval.specs.Variables.{list_of};
ghost use Rattle.model_eval.specs.Lending as lending;
ghost use Rattle.acl_heap.specs.Objects.{object_of};
ghost use Rattle.acl_forms.specs.Forms.{AreWhole};
ghost use Rattle.acl_keep.specs.Seen.{seen_loan, seen_loans, index_words, loan_words};
ghost use Rattle.acl_lists.specs.Tables.{Grown};
ghost use Rattle.acl_lists.specs.Pairs.{Within};
ghost use Rattle.acl_list_parts.specs.Parts.{list_given, IndexLies};
ghost use Rattle.acl_list_scope.specs.Scopes.{scope, named, AreWithin};

use crate::binding::Binding;
use crate::scope::{list_of, write};
use acl_base::{SymId, Word};
use acl_heap::Heap;
use acl_keep::Loan;
use acl_list_parts::{child_in, is_index, item, put_child, size};
use acl_lists::{ListId, Lists};
use acl_syms::Symbols;
use std::alloc::{AllocError, Global};

fn loan_at(loans: &[Loan], at: usize) -> Loan
    requires { at < length loans.now }
    ensures { slice_get loans.now at ≡ Some result }
{
    loans[at]
}

/// An index that is whole lies in the heap.
#[tactic(auto, using(crate::proofs::LendLemmas::index_lies))]
pub(crate) fn index_in(heap: &Heap, _syms: &Symbols, index: Option<Word>)
    requires { AreWhole _syms.now heap.now (index_words index) }
    ensures { IndexLies heap.now index }
{
    let _ = heap;
}

/// Whether a field of a parent has a child of this index.
#[tactic(auto, using(crate::proofs::LendLemmas::reached_always, crate::proofs::LendLemmas::reached_index, crate::proofs::LendLemmas::one_index))]
pub(crate) fn has_child(
    lists: &Lists,
    bindings: &[Binding],
    heap: &Heap,
    parent: SymId,
    field: u32,
    index: Option<Word>,
) -> bool
    requires within { AreWithin lists.now bindings.now }
    requires index { IndexLies heap.now index }
    ensures { result ≡ lending.is_reached (option_map (object_of heap.now) index) (model.item field (list_of (scope lists.now bindings.now) parent.0)) }
{
    match index {
        None => true,
        Some(w) => {
            let whole = list_of(bindings, parent);
            let part = item(lists, whole, field as u64);
            let count = size(lists, part);
            is_index(heap, w, count)
        }
    }
}

/// The binding of a child that is lent.
#[tactic(auto, using(crate::proofs::LendLemmas::child_named))]
fn binding_of(lists: &Lists, bindings: &[Binding], heap: &Heap, loan: Loan) -> Binding
    requires within { AreWithin lists.now bindings.now }
    requires index { IndexLies heap.now loan.index }
    ensures within { Within lists.now result.list }
    ensures is { named lists.now result ≡ (loan.child.0, lending.child_in (option_map (object_of heap.now) loan.index) (model.item loan.field (list_of (scope lists.now bindings.now) loan.parent.0))) }
{
    let parent = list_of(bindings, loan.parent);
    let field = item(lists, parent, loan.field as u64);
    let list = child_in(lists, heap, field, loan.index);
    Binding {
        variable: loan.child,
        list,
    }
}

/// The bindings of children that are lent, the first as the innermost.
#[tactic(auto, using(crate::proofs::LendLemmas::lent_start))]
pub(crate) fn all_lent(
    alloc: Global,
    lists: &Lists,
    bindings: &[Binding],
    heap: &Heap,
    syms: &Symbols,
    loans: &[Loan],
) -> Result<Vec<Binding>, AllocError>
    requires within { AreWithin lists.now bindings.now }
    requires whole { AreWhole syms.now heap.now (loan_words loans.now) }
    ensures is { IfOk result (λ made. scope lists.now made.items ≡ lending.lent (seen_loans heap.now loans.now) (scope lists.now bindings.now)) }
    ensures within { IfOk result (λ made. AreWithin lists.now made.items) }
{
    let count = loans.len();
    let mut made = Vec::new(alloc);
    for done in 0..count {
        let loan = loan_at(loans, count - 1 - done);
        index_in(heap, syms, loan.index);
        let binding = binding_of(lists, bindings, heap, loan);
        made.push(binding)?;
    }
    Ok(made)
}

/// The list that a variable has, in the table.
fn known_list(lists: &Lists, bindings: &[Binding], variable: SymId) -> Option<ListId>
    ensures within { Within lists.now result }
    ensures is { AreWithin lists.now bindings.now → list_given lists.now result ≡ list_of (scope lists.now bindings.now) variable.0 }
{
    match list_of(bindings, variable) {
        Some(n) => { if n.0 < lists.len() { Some(n) } else { None } }
        None => None,
    }
}

/// Puts a child into its parent. What is refused may have added cells to the table.
#[tactic(auto, using(crate::proofs::LendLemmas::child_put, crate::proofs::LendLemmas::put_within))]
pub(crate) fn put(
    alloc: Global,
    lists: &mut Lists,
    bindings: &mut Vec<Binding>,
    heap: &Heap,
    syms: &Symbols,
    loan: Loan,
) -> Result<(), AllocError>
    requires { AreWhole syms.now heap.now (index_words loan.index) }
    ensures is { OnOk result (AreWithin lists.old bindings.old.items → scope lists.new bindings.new.items ≡ lending.put_into_parent (seen_loan heap.now loan) (scope lists.old bindings.old.items)) }
    ensures within { OnOk result (AreWithin lists.old bindings.old.items → AreWithin lists.new bindings.new.items) }
    ensures grows { Grown lists.old lists.new }
    ensures err { OnErr result (bindings.new.items ≡ bindings.old.items) }
{
    index_in(heap, syms, loan.index);
    let child = known_list(lists, bindings.as_slice(), loan.child);
    let parent = known_list(lists, bindings.as_slice(), loan.parent);
    let new = put_child(alloc, lists, heap, parent, loan.field, loan.index, child)?;
    write(bindings, loan.parent, new);
    Ok(())
}
