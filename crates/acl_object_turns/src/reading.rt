//! What is read of a `STOBJ-LET`: its children, its ends, and the loan of a child.

ghost use Rattle.std.specs.Prelude.{◌≡◌, ◌+◌, [], ◌∷◌, drop, length, slice_get, option_map, IfSome, MatchOption};
ghost use Rattle.acl_code.specs.Tables.{seen_child, tree_at};
ghost use Rattle.acl_machine.specs.Constants.{IndexIsWhole, ConstantsAreWhole};
ghost use Rattle.acl_machine.specs.Views.{children_of, producer_of, consumer_of};
ghost use Rattle.acl_object_turns.specs.Children.{operand_cell, index_word, field_at, name_at, loan_from};

use acl_base::{FnId, SymId, TermId, Word};
use acl_code::{Child, Operand, Term, Terms};
use acl_heap::Heap;
use acl_keep::Loan;
use acl_machine::{Values, whole};
use acl_syms::Symbols;
use acl_terms::{Definition, Shown};
use acl_worlds::World;
use sqlite_items::Items;

/// The child of a number, where there is one.
fn nth(children: &Items<Child>, n: u64) -> Option<Child>
    ensures { result ≡ slice_get children.now n }
{
    match children.get(n as usize) {
        Some(child) => Some(*child),
        None => None,
    }
}

/// The child of a `STOBJ-LET` behind so many, where there is one.
#[tactic(auto, using(crate::proofs::ReadingLemmas::child_there, crate::proofs::ReadingLemmas::child_whole, crate::proofs::ReadingLemmas::no_more, crate::proofs::ReadingLemmas::none_there, crate::proofs::ReadingLemmas::none_past, acl_machine::proofs::TermLemmas::own_part))]
pub fn child_behind(
    terms: &Terms,
    heap: &Heap,
    _syms: &Symbols,
    t: TermId,
    bound: u64,
) -> Option<Child>
    requires { ConstantsAreWhole _syms.now heap.now terms.now }
    ensures is { MatchOption result (drop bound (children_of (tree_at heap.now terms.now t)) ≡ []) (λ c. drop bound (children_of (tree_at heap.now terms.now t)) ≡ seen_child heap.now c ∷ drop (bound + 1) (children_of (tree_at heap.now terms.now t))) }
    ensures whole { IfSome result (λ c. IndexIsWhole _syms.now heap.now c.index) }
{
    let own = whole(terms, heap, t);
    terms.is_table();
    if own.0 >= terms.len() {
        return None;
    }
    match terms.term(own) {
        Term::Slot(_) => None,
        Term::Const(_) => None,
        Term::Part(_) => unreachable!(),
        Term::If { .. } => None,
        Term::Let { .. } => None,
        Term::Mv { .. } => None,
        Term::MvLet { .. } => None,
        Term::StobjLet { children, .. } => nth(children, bound),
        Term::WithLocal { .. } => None,
        Term::MustBeEqual(_) => None,
        Term::Call { .. } => None,
    }
}

/// The producer and the consumer of a `STOBJ-LET`.
#[derive(Clone, Copy)]
pub struct Ends {
    pub producer: TermId,
    pub consumer: TermId,
}

/// No terms: numbers past the end of the table.
fn no_ends(terms: &Terms) -> Ends
    ensures producer { result.producer.0 ≡ length terms.now }
    ensures consumer { result.consumer.0 ≡ length terms.now }
{
    let past = TermId(terms.len());
    Ends {
        producer: past,
        consumer: past,
    }
}

/// The producer and the consumer of a `STOBJ-LET`.
#[tactic(auto, using(crate::proofs::ReadingLemmas::producer_there, crate::proofs::ReadingLemmas::consumer_there, crate::proofs::ReadingLemmas::no_producer, crate::proofs::ReadingLemmas::no_consumer, crate::proofs::ReadingLemmas::past_producer, crate::proofs::ReadingLemmas::past_consumer, acl_machine::proofs::TermLemmas::own_part))]
pub fn read_ends(terms: &Terms, heap: &Heap, t: TermId) -> Ends
    ensures producer { tree_at heap.now terms.now result.producer ≡ producer_of (tree_at heap.now terms.now t) }
    ensures consumer { tree_at heap.now terms.now result.consumer ≡ consumer_of (tree_at heap.now terms.now t) }
{
    let own = whole(terms, heap, t);
    terms.is_table();
    if own.0 >= terms.len() {
        return no_ends(terms);
    }
    match terms.term(own) {
        Term::Slot(_) => no_ends(terms),
        Term::Const(_) => no_ends(terms),
        Term::Part(_) => unreachable!(),
        Term::If { .. } => no_ends(terms),
        Term::Let { .. } => no_ends(terms),
        Term::Mv { .. } => no_ends(terms),
        Term::MvLet { .. } => no_ends(terms),
        Term::StobjLet {
            producer,
            consumer,
            ..
        } => Ends {
            producer: *producer,
            consumer: *consumer,
        },
        Term::WithLocal { .. } => no_ends(terms),
        Term::MustBeEqual(_) => no_ends(terms),
        Term::Call { .. } => no_ends(terms),
    }
}

/// The field of which a function is one.
#[tactic(auto, using(crate::proofs::ReadingLemmas::field_by))]
fn field_of(world: &World, f: FnId) -> u32
    ensures { result ≡ field_at (slice_get world.now.definitions f.0) }
{
    if f.0 >= world.mark().definitions {
        return 0;
    }
    match world.at(f) {
        Definition::Primitive { .. } => 0,
        Definition::Function(_) => 0,
        Definition::Macro(_) => 0,
        Definition::Constant { .. } => 0,
        Definition::Object { .. } => 0,
        Definition::Generated(function) => function.field.unwrap_or(0),
        Definition::Abstract(_) => 0,
        Definition::OfAbstract(_) => 0,
        Definition::Named { .. } => 0,
        Definition::Signed { .. } => 0,
    }
}

/// The name of a function.
pub fn name_of(world: &World, f: FnId) -> SymId
    ensures { result.0 ≡ name_at (slice_get world.now.definitions f.0) }
{
    if f.0 >= world.mark().definitions {
        return SymId(0);
    }
    world.at(f).name()
}

/// The value of a variable or a constant, in a window.
pub fn value_of(values: &Values, base: u64, operand: Operand) -> Shown
    ensures { result ≡ operand_cell values.now base operand }
{
    match operand {
        Operand::Slot(slot) => values.get_in(base, slot),
        Operand::Const(word) => Shown::Value(word),
    }
}

/// The word of a value; an object counts as `NIL`.
fn word_of(value: Shown) -> Word
    ensures { result ≡ index_word value }
{
    match value {
        Shown::Value(word) => word,
        Shown::Object(_) => Word::Sym(SymId(1)),
    }
}

fn index_of(values: &Values, base: u64, index: Option<Operand>) -> Option<Word>
    ensures { result ≡ option_map (λ o. index_word (operand_cell values.now base o)) index }
{
    match index {
        Some(operand) => Some(word_of(value_of(values, base, operand))),
        None => None,
    }
}

/// The loan of a child from this parent.
pub fn loan_of(world: &World, values: &Values, base: u64, parent: SymId, child: Child) -> Loan
    ensures { result ≡ loan_from world.now.definitions values.now base parent child }
{
    Loan {
        child: child.name,
        parent,
        field: field_of(world, child.accessor),
        index: index_of(values, base, child.index),
    }
}
