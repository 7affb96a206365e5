//! Rows of evaluation: what checked evaluation gives, computed, beside what was worked out by hand.
#![tactic(auto)]

ghost use Rattle.model_eval_rows.specs.Books.{AreRight};
ghost use Rattle.model_eval_rows.specs.Counting.{counting_rows};
ghost use Rattle.model_eval_rows.specs.StackMachine.{machine_rows};
ghost use Rattle.model_eval_rows.specs.Nested.{export_rows, family_rows, counted_rows};
ghost use Rattle.model_eval_rows.specs.Undone.{undone_rows, SymbolsAreUndone};
ghost use Rattle.model_eval_rows.specs.Types.{TypesAreRight, type_rows};
ghost use Rattle.model_eval_rows.specs.ShownLists.{ShownAreRight, shown_rows};
ghost use Rattle.model_eval_rows.specs.Several.{child_rows, congruent_rows};
ghost use Rattle.model_eval_rows.specs.Abstract.{abstract_rows};
ghost use Rattle.model_eval_rows.specs.Fields.{array_rows, hash_rows};
ghost use Rattle.model_eval_rows.specs.Words.{AreNamed};

/// Calls and limits, guards, several values, and a local stobj.
#[tactic(auto, using(crate::proofs::Computed::counting))]
pub fn counting()
    ensures { AreRight counting_rows }
{}

/// Arrays: indices, types, and lengths that go up and down.
#[tactic(auto, using(crate::proofs::Computed::arrays))]
pub fn arrays()
    ensures { AreRight array_rows }
{}

/// Hash fields: shadowed keys too.
#[tactic(auto, using(crate::proofs::Computed::hash_fields))]
pub fn hash_fields()
    ensures { AreRight hash_rows }
{}

/// Children that are bound: stops at each step, and where their lists then are.
#[tactic(auto, using(crate::proofs::Computed::children))]
pub fn children()
    ensures { AreRight child_rows }
{}

/// Functions called on congruent stobjs.
#[tactic(auto, using(crate::proofs::Computed::congruent))]
pub fn congruent_objects()
    ensures { AreRight congruent_rows }
{}

/// Exports of an abstract stobj: what is counted, and what is inside.
#[tactic(auto, using(crate::proofs::Computed::abstract_stobjs))]
pub fn abstract_stobjs()
    ensures { AreRight abstract_rows }
{}

/// Types as they are written, and what meets them.
#[tactic(auto, using(crate::proofs::Computed::types))]
pub fn types()
    ensures { TypesAreRight type_rows }
{}

/// What is printed for a stobj, and the cells that it holds.
#[tactic(auto, using(crate::proofs::Computed::shown_lists))]
pub fn shown_lists()
    ensures { ShownAreRight shown_rows }
{}

/// The programs of a small stack machine.
#[tactic(auto, using(crate::proofs::Computed::stack_machine))]
pub fn stack_machine()
    ensures { AreRight machine_rows }
{}

/// Exports in guards and in exec functions of others.
#[tactic(auto, using(crate::proofs::Computed::exports_in_exports))]
pub fn exports_in_exports()
    ensures { AreRight export_rows }
{}

/// Children of children.
#[tactic(auto, using(crate::proofs::Computed::children_of_children))]
pub fn children_of_children()
    ensures { AreRight family_rows }
{}

/// Guards of guards, bounds, and some thousand calls.
#[tactic(auto, using(crate::proofs::Computed::many_calls))]
pub fn many_calls()
    ensures { AreRight counted_rows }
{}

/// Exports that stop: where the stop came from, and that their stobj is as it was.
#[tactic(auto, using(crate::proofs::Computed::undone))]
pub fn undone_exports()
    ensures { AreRight undone_rows }
{}

/// An export that stops as there is no room for one more symbol.
#[tactic(auto, using(crate::proofs::Computed::symbols_undone))]
pub fn exports_undone_without_room_for_symbols()
    ensures { SymbolsAreUndone }
{}

/// The primitives that rows call have the numbers of their names.
#[tactic(auto, using(crate::proofs::Computed::words))]
pub fn words_are_named()
    ensures { AreNamed }
{}
