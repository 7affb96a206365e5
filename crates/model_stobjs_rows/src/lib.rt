//! Books of stobjs and abstract stobjs, each computed from the definitions: shapes, names, refusals in their order. Written by
//! tools/rows.py from the files in rows/.
#![tactic(auto)]

ghost use Rattle.model_stobjs_rows.specs.Rows.{AbstractOutputs, AbstractRefusals, ChildrenRules, Congruence, DefaultNames, ListsAtStops, NestedOnceTooDeep, StobjFunctions, StobjRefusals, StobjShapes, ChildAtAStop, ChildBoundTwice, ChildrenOfOneArray, CongruentParents, CongruentStobjs, HashField, ListAtAStop, LocalStobj, Resizing};

/// The row `abstract_outputs`.
#[tactic(auto, using(crate::proofs::RowAbstractOutputs::is_computed))]
pub fn abstract_outputs()
    ensures { AbstractOutputs }
{}

/// The row `abstract_refusals`.
#[tactic(auto, using(crate::proofs::RowAbstractRefusals::is_computed))]
pub fn abstract_refusals()
    ensures { AbstractRefusals }
{}

/// The row `children_rules`.
#[tactic(auto, using(crate::proofs::RowChildrenRules::is_computed))]
pub fn children_rules()
    ensures { ChildrenRules }
{}

/// The row `congruence`.
#[tactic(auto, using(crate::proofs::RowCongruence::is_computed))]
pub fn congruence()
    ensures { Congruence }
{}

/// The row `default_names`.
#[tactic(auto, using(crate::proofs::RowDefaultNames::is_computed))]
pub fn default_names()
    ensures { DefaultNames }
{}

/// The row `lists_at_stops`.
#[tactic(auto, using(crate::proofs::RowListsAtStops::is_computed))]
pub fn lists_at_stops()
    ensures { ListsAtStops }
{}

/// The row `nested_once_too_deep`.
#[tactic(auto, using(crate::proofs::RowNestedOnceTooDeep::is_computed))]
pub fn nested_once_too_deep()
    ensures { NestedOnceTooDeep }
{}

/// The row `stobj_functions`.
#[tactic(auto, using(crate::proofs::RowStobjFunctions::is_computed))]
pub fn stobj_functions()
    ensures { StobjFunctions }
{}

/// The row `stobj_refusals`.
#[tactic(auto, using(crate::proofs::RowStobjRefusals::is_computed))]
pub fn stobj_refusals()
    ensures { StobjRefusals }
{}

/// The row `stobj_shapes`.
#[tactic(auto, using(crate::proofs::RowStobjShapes::is_computed))]
pub fn stobj_shapes()
    ensures { StobjShapes }
{}

/// The row `child_at_a_stop`.
#[tactic(auto, using(crate::proofs::RowChildAtAStop::is_computed))]
pub fn child_at_a_stop()
    ensures { ChildAtAStop }
{}

/// The row `child_bound_twice`.
#[tactic(auto, using(crate::proofs::RowChildBoundTwice::is_computed))]
pub fn child_bound_twice()
    ensures { ChildBoundTwice }
{}

/// The row `children_of_one_array`.
#[tactic(auto, using(crate::proofs::RowChildrenOfOneArray::is_computed))]
pub fn children_of_one_array()
    ensures { ChildrenOfOneArray }
{}

/// The row `congruent_parents`.
#[tactic(auto, using(crate::proofs::RowCongruentParents::is_computed))]
pub fn congruent_parents()
    ensures { CongruentParents }
{}

/// The row `congruent_stobjs`.
#[tactic(auto, using(crate::proofs::RowCongruentStobjs::is_computed))]
pub fn congruent_stobjs()
    ensures { CongruentStobjs }
{}

/// The row `hash_field`.
#[tactic(auto, using(crate::proofs::RowHashField::is_computed))]
pub fn hash_field()
    ensures { HashField }
{}

/// The row `list_at_a_stop`.
#[tactic(auto, using(crate::proofs::RowListAtAStop::is_computed))]
pub fn list_at_a_stop()
    ensures { ListAtAStop }
{}

/// The row `local_stobj`.
#[tactic(auto, using(crate::proofs::RowLocalStobj::is_computed))]
pub fn local_stobj()
    ensures { LocalStobj }
{}

/// The row `resizing`.
#[tactic(auto, using(crate::proofs::RowResizing::is_computed))]
pub fn resizing()
    ensures { Resizing }
{}
