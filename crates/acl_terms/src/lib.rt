//! The types that the crates above forms share: core forms, signatures and scopes, descriptors of objects, definitions.
//! Contracts see each of them as the object of the definitions that it stands for in a heap.
#![tactic(auto)]

ghost use Rattle.acl_terms.specs.Laws.{IsKept, AreSeen};

mod definition;
mod fault;
mod form;
mod outcome;
mod scope;
mod signature;
mod stobj;

pub use definition::{
    AbstractFunction, Definition, Function, GeneratedFunction, Macro, MacroFormals, OptionalFormal,
};
pub use fault::{AbsFault, DefFault, ExpandFault, Place, ThreadFault};
pub use form::Core;
pub use model_terms::{AbstractRole, Mode, Role, Rule};
pub use outcome::{Shown, Stop};
pub use scope::Scope;
pub use signature::{Entry, Out, Signature};
pub use stobj::{AbsDescriptor, AbsFunction, Descriptor, FieldDescriptor, Shape};

/// As a heap grows, what forms and definitions stand for is kept.
#[tactic(auto, using(crate::proofs::LawLemmas::is_kept))]
pub fn growth_keeps_definitions()
    ensures { IsKept }
{}

/// Each variant of a form stands for the core form of its kind, and a definition has one name in every heap.
#[tactic(auto, using(crate::proofs::LawLemmas::are_seen))]
pub fn variants_are_seen()
    ensures { AreSeen }
{}
