//! Core forms.

use acl_base::{SymId, Word};
use sqlite_items::{Boxed, Items};

/// A core form: what expansion leaves of a form. The parts of a variant stand in the order of their places.
#[derive(Debug, Drop)]
pub enum Core {
    /// The variable of this name.
    Var(SymId),
    Const(Word),
    /// Test, and the two branches.
    If(Boxed<Core>, Boxed<Core>, Boxed<Core>),
    /// Names with what is bound to each, and the body.
    Let(Items<(SymId, Core)>, Boxed<Core>),
    Mv(Items<Core>),
    /// Names, the form that gives their values, and the body.
    MvLet(Items<SymId>, Boxed<Core>, Boxed<Core>),
    StobjLet {
        /// The children, each with the call of its accessor.
        bindings: Items<(SymId, Core)>,
        /// The names that the producer gives.
        vars: Items<SymId>,
        producer: Boxed<Core>,
        consumer: Boxed<Core>,
    },
    WithLocal {
        /// The object that is made.
        stobj: SymId,
        /// The names that the producer gives.
        names: Items<SymId>,
        producer: Boxed<Core>,
        body: Boxed<Core>,
    },
    /// The logic's part, and the one that would be run.
    MustBeEqual(Boxed<Core>, Boxed<Core>),
    /// A function and its actuals.
    Call(SymId, Items<Core>),
}
