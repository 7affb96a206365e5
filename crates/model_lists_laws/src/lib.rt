//! Laws of lists, types and layouts.
#![tactic(auto)]

ghost use Rattle.model_lists_laws.specs.Laws.{IsLogical, IsListed, IsNormal, IsRecognized, AreTypeWords};
ghost use Rattle.std.specs.Prelude.{ℕ};
ghost use Rattle.std.specs.Ordering.{nat_cmp};
ghost use Rattle.model_lists.specs.Normal.{name_cmp};
ghost use Rattle.model_lists_laws.specs.LiveListLaws.{NewStobjsStand, Orders, ListsAreReadAlike, WritesKeepFields};
ghost use Rattle.model_lists_laws.specs.Canonical.{CanonicalLists};
ghost use Rattle.model_lists_laws.specs.Kinds.{KindsAreOfTypes, KindRows};
ghost use Rattle.model_symbols.specs.Symbols.{QualifiedName};
ghost use Rattle.model_prims.specs.Kinds.{by_name, by_number};

/// What is done to a list is done to the ordinary object that it is in the logic.
#[tactic(auto, using(crate::proofs::LogicalLemmas::is_logical))]
pub fn lists_are_logical()
    ensures numbered { IsLogical by_number }
    ensures named { IsLogical by_name }
{}

/// What is printed of the shape of a list is the ordinary object that the list is.
#[tactic(auto, using(crate::proofs::LogicalLemmas::is_listed))]
pub fn shapes_print_lists()
    ensures numbered { IsListed by_number }
    ensures named { IsListed by_name }
{}

/// A new stobj meets its recognizer.
#[tactic(auto, using(crate::proofs::LogicalLemmas::is_recognized))]
pub fn new_stobjs_are_recognized()
    ensures { IsRecognized }
{}

/// The words that types are written with have the numbers that they are taken to have.
#[tactic(auto, using(crate::proofs::LogicalLemmas::are_type_words))]
pub fn type_words_are_named()
    ensures { AreTypeWords }
{}

/// The normal list of a normal list is itself, and has the same value at each key.
#[tactic(auto, using(crate::proofs::NormalLemmas::is_normal))]
pub fn normal_lists_are_normal()
    ensures { IsNormal }
{}

/// A new stobj has the fields of its layout, and stands for its own list.
#[tactic(auto, using(crate::proofs::StandingLemmas::new_stobjs_stand))]
pub fn new_stobjs_stand_for_their_lists()
    ensures numbered { NewStobjsStand ℕ }
    ensures named { NewStobjsStand QualifiedName }
{}

/// The numbers of symbols order stobjs, and so do their names: stobjs are the same where they compare as equal.
#[tactic(auto, using(crate::proofs::AlikeLemmas::names_ordered, crate::proofs::AlikeLemmas::numbers_ordered))]
pub fn symbols_order_objects()
    ensures named { Orders by_name name_cmp }
    ensures numbered { Orders by_number nat_cmp }
{}

/// What reading and writing give depends only on what the list stands for.
#[tactic(auto, using(crate::proofs::AlikeLemmas::named_alike, crate::proofs::AlikeLemmas::numbered_alike))]
pub fn alike_lists_are_read_alike()
    ensures named { ListsAreReadAlike by_name name_cmp }
    ensures numbered { ListsAreReadAlike by_number nat_cmp }
{}

/// What is written has the fields of the layout.
#[tactic(auto, using(crate::proofs::KeptFields::writes_keep_fields))]
pub fn writes_keep_the_fields()
    ensures named { WritesKeepFields by_name }
    ensures numbered { WritesKeepFields by_number }
{}

/// The canonical list is the normal list of the order of numbers, and says as much as that of the order of names.
#[tactic(auto, using(crate::proofs::CanonicalLemmas::canonical_lists))]
pub fn canonical_lists_stand()
    ensures { CanonicalLists }
{}

/// The kind of a type keeps each object that meets it, and no smaller one does.
#[tactic(auto, using(crate::proofs::KindLemmas::kinds_are_of_types))]
pub fn types_have_kinds()
    ensures { KindsAreOfTypes }
{}

/// Kinds of types as they are written.
#[tactic(auto, using(crate::proofs::KindLemmas::kind_rows))]
pub fn written_types_have_kinds()
    ensures { KindRows }
{}
