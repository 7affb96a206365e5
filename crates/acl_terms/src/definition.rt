//! Definitions.

ghost use Rattle.std.specs.Prelude.{◌≡◌};
ghost use Rattle.acl_terms.specs.Definitions.{name_in};

use crate::form::Core;
use crate::signature::Signature;
use crate::stobj::{AbsDescriptor, Descriptor};
use acl_base::{LayoutId, SymId, TermId, Word};
use model_terms::{AbstractRole, Role};
use sqlite_items::Items;

/// A formal that may be left out.
#[derive(Clone, Copy, Debug)]
pub struct OptionalFormal {
    pub name: SymId,
    /// What it is where it was left out.
    pub default: Word,
    /// The formal that says whether it was there.
    pub supplied: Option<SymId>,
}

/// The formals of a macro.
#[derive(Debug, Drop)]
pub struct MacroFormals {
    pub required: Items<SymId>,
    pub optional: Items<OptionalFormal>,
    pub rest: Option<SymId>,
    /// Those behind `&key`, where it stands, also with none behind it.
    pub keys: Option<Items<OptionalFormal>>,
}

/// A function that was written.
#[derive(Debug, Drop)]
pub struct Function {
    pub name: SymId,
    pub formals: Items<SymId>,
    pub signature: Signature,
    pub guard: Core,
    pub body: Core,
    /// The term of the guard.
    pub guard_term: TermId,
    /// The term of the body.
    pub body_term: TermId,
    pub executable: bool,
}

/// A macro.
#[derive(Debug, Drop)]
pub struct Macro {
    pub name: SymId,
    pub formals: MacroFormals,
    pub body: Core,
    /// The term of the body.
    pub body_term: TermId,
}

/// A function that a concrete object comes with.
#[derive(Debug, Drop)]
pub struct GeneratedFunction {
    pub name: SymId,
    pub stobj: SymId,
    /// The number of its field, where it is a function of one.
    pub field: Option<u32>,
    pub role: Role,
    pub signature: Signature,
}

/// A function of an abstract object.
#[derive(Debug, Drop)]
pub struct AbstractFunction {
    pub name: SymId,
    pub stobj: SymId,
    pub role: AbstractRole,
    pub formals: Items<SymId>,
    pub signature: Signature,
    pub guard: Core,
    /// The term of the guard.
    pub guard_term: TermId,
    pub logic: SymId,
    pub exec: SymId,
}

/// A definition of a world.
#[derive(Debug, Drop)]
pub enum Definition {
    Primitive {
        name: SymId,
        /// Its row in the table of primitives.
        row: u8,
        arity: u8,
    },
    Function(Function),
    Macro(Macro),
    Constant {
        name: SymId,
        value: Word,
    },
    /// A concrete object.
    Object {
        descriptor: Descriptor,
        layout: LayoutId,
        /// The first object of its congruence class.
        class: SymId,
    },
    Generated(GeneratedFunction),
    Abstract(AbsDescriptor),
    OfAbstract(AbstractFunction),
    /// A function that is being admitted.
    Named {
        name: SymId,
        formals: Items<SymId>,
    },
    /// The same once its signature is known.
    Signed {
        name: SymId,
        formals: Items<SymId>,
        signature: Signature,
        executable: bool,
    },
}

impl Definition {
    /// The name that it defines.
    pub fn name(&self) -> SymId
        ensures { result.0 ≡ name_in self.now }
    {
        match self {
            Definition::Primitive { name, .. } => *name,
            Definition::Function(function) => function.name,
            Definition::Macro(definition) => definition.name,
            Definition::Constant { name, .. } => *name,
            Definition::Object { descriptor, .. } => descriptor.name,
            Definition::Generated(function) => function.name,
            Definition::Abstract(descriptor) => descriptor.name,
            Definition::OfAbstract(function) => function.name,
            Definition::Named { name, .. } => *name,
            Definition::Signed { name, .. } => *name,
        }
    }
}
