//! Whether one element of an array of children is bound twice.

ghost use Rattle.std.specs.Prelude.{◌≡◌, ◌&&◌, ◌||◌, ◌++◌, map, nat_eq, IfOk, OnOk, option_map};
ghost use Rattle.std.specs.List.{list_any};
ghost use Rattle.model_prims.specs.Kinds.{by_number};
ghost use Rattle.model_eval.specs.Keeping as keepings;
ghost use Rattle.model_eval.specs.Lending.{same_index, are_twins};
ghost use Rattle.acl_heap.specs.Objects.{object_of};
ghost use Rattle.acl_forms.specs.Forms.{AreWhole};
ghost use Rattle.acl_keep.specs.Seen.{seen_loan, seen_loans, index_words, loan_words};
ghost use Rattle.acl_object_turns.specs.Children.{loans_in, children_in, index_cells, all_indices};

use acl_base::Word;
use acl_heap::Heap;
use acl_keep::Loan;
use acl_machine::{Borrowed, Values};
use acl_syms::Symbols;
use acl_terms::Shown;
use std::alloc::{AllocError, Global};

/// Whether two indices are the same object; without an index they are not.
#[tactic(auto, using(crate::proofs::TwinLemmas::same_by))]
fn same_indices(
    heap: &Heap,
    _syms: &Symbols,
    i: Option<Word>,
    j: Option<Word>,
) -> Result<bool, AllocError>
    requires left { AreWhole _syms.now heap.now (index_words i) }
    requires right { AreWhole _syms.now heap.now (index_words j) }
    ensures { IfOk result (λ b. b ≡ same_index by_number (option_map (object_of heap.now) i) (option_map (object_of heap.now) j)) }
{
    match i {
        None => Ok(false),
        Some(x) => match j {
            None => Ok(false),
            Some(y) => {
                let same = heap.equal(x, y)?;
                Ok(same)
            }
        },
    }
}

/// Whether two loans are of one element.
fn is_twin(heap: &Heap, syms: &Symbols, loan: Loan, other: Loan) -> Result<bool, AllocError>
    requires left { AreWhole syms.now heap.now (index_words loan.index) }
    requires right { AreWhole syms.now heap.now (index_words other.index) }
    ensures { IfOk result (λ b. b ≡ (nat_eq loan.field other.field && same_index by_number (option_map (object_of heap.now) loan.index) (option_map (object_of heap.now) other.index))) }
{
    let same = same_indices(heap, syms, loan.index, other.index)?;
    let field = loan.field == other.field;
    Ok(field & same)
}

/// Whether one of these is of the element of a loan.
#[tactic(auto, using(crate::proofs::TwinLemmas::twin_first, crate::proofs::TwinLemmas::twin_later, crate::proofs::TwinLemmas::twin_none, crate::proofs::TwinLemmas::first_whole, crate::proofs::TwinLemmas::later_whole))]
fn has_twin(heap: &Heap, syms: &Symbols, loan: Loan, others: &[Loan]) -> Result<bool, AllocError>
    requires left { AreWhole syms.now heap.now (index_words loan.index) }
    requires right { AreWhole syms.now heap.now (loan_words others.now) }
    ensures { IfOk result (λ b. b ≡ list_any (λ (m : keepings.Loan _). nat_eq loan.field m.field && same_index by_number (option_map (object_of heap.now) loan.index) m.index) (seen_loans heap.now others.now)) }
{
    let mut rest = others;
    'others: while let Some((other, later)) = rest.split_first() {
        if is_twin(heap, syms, loan, *other)? {
            return Ok(true);
        }
        rest = later;
    }
    Ok(false)
}

/// Whether two of these are of one element.
#[tactic(auto, using(crate::proofs::TwinLemmas::twins_first, crate::proofs::TwinLemmas::twins_later, crate::proofs::TwinLemmas::twins_none, crate::proofs::TwinLemmas::first_whole, crate::proofs::TwinLemmas::later_whole))]
pub fn are_twins(heap: &Heap, syms: &Symbols, loans: &[Loan]) -> Result<bool, AllocError>
    requires { AreWhole syms.now heap.now (loan_words loans.now) }
    ensures { IfOk result (λ b. b ≡ are_twins by_number (seen_loans heap.now loans.now)) }
{
    let mut rest = loans;
    'loans: while let Some((loan, later)) = rest.split_first() {
        if has_twin(heap, syms, *loan, later)? {
            return Ok(true);
        }
        rest = later;
    }
    Ok(false)
}

/// The loans among those that are borrowed.
#[tactic(auto, using(crate::proofs::TwinLemmas::loans_start, crate::proofs::TwinLemmas::loans_step, crate::proofs::TwinLemmas::loans_end))]
pub fn loans_of(alloc: Global, borrowed: &[Borrowed]) -> Result<Vec<Loan>, AllocError>
    ensures { IfOk result (λ loans. loans.items ≡ loans_in borrowed.now) }
{
    let mut loans = Vec::new(alloc);
    for one in borrowed {
        loans.push(one.loan)?;
    }
    Ok(loans)
}

/// The children, as objects.
#[tactic(auto, using(crate::proofs::TwinLemmas::children_start, crate::proofs::TwinLemmas::children_step, crate::proofs::TwinLemmas::children_end))]
pub fn children_of(alloc: Global, loans: &[Loan]) -> Result<Vec<Shown>, AllocError>
    ensures { IfOk result (λ children. children.items ≡ children_in loans.now) }
{
    let mut children = Vec::new(alloc);
    for loan in loans {
        children.push(Shown::Object(loan.child))?;
    }
    Ok(children)
}

fn add_index(values: &mut Values, index: Option<Word>) -> Result<(), AllocError>
    ensures { OnOk result (values.new ≡ values.old ++ index_cells index) }
{
    match index {
        Some(word) => {
            values.push(Shown::Value(word))?;
            Ok(())
        }
        None => Ok(()),
    }
}

/// The indices in arrays, in order, and no other values.
#[tactic(auto, using(crate::proofs::TwinLemmas::indices_step, crate::proofs::TwinLemmas::indices_end))]
pub fn write_indices(values: &mut Values, loans: &[Loan]) -> Result<(), AllocError>
    ensures { OnOk result (values.new ≡ all_indices loans.now) }
{
    values.clear();
    let mut rest = loans;
    'loans: while let Some((loan, later)) = rest.split_first() {
        add_index(values, loan.index)?;
        rest = later;
    }
    Ok(())
}
