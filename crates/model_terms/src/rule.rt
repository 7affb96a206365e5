//! The rules of single-threaded use.

/// A rule. Where several fail at one place, the smallest is named.
#[derive(Clone, Copy, Debug, PartialEq, Eq)]
pub enum Rule {
    /// An actual in a stobj position is the variable of a stobj in scope, congruent to the formal's stobj.
    S1,
    /// No variable stands in two stobj positions of one call.
    S2,
    /// The variable of a stobj does not stand where one ordinary output is expected.
    S3,
    /// A `LET` that binds a stobj's name binds nothing else.
    S4,
    /// The term bound to a stobj's name gives exactly that stobj.
    S5,
    /// Each stobj that a `LET` or `MV-LET` binds is among the expected outputs.
    S6,
    /// Both branches of an `IF`, and both parts of `MUST-BE-EQUAL`, have equal outputs.
    S7,
    /// The outputs of a call, a constant and a variable are those expected.
    S8,
    /// An `MV` gives the expected outputs, each stobj once; the bound term of an `MV-LET` gives what its names say.
    S9,
    /// The formals that name stobjs are those declared under `:stobjs`.
    S10,
    /// A variable is in scope.
    S11,
    /// No child accessor, child updater or creator is called.
    S12,
    /// The conditions on `STOBJ-LET`.
    S13,
    /// The conditions on `WITH-LOCAL-STOBJ`.
    S14,
    /// No stobj's name is a formal of a macro or stands in a macro's body or a constant.
    S15,
    /// No function that is not executable is called; in one neither `STOBJ-LET` nor `WITH-LOCAL-STOBJ` stands.
    S16,
}

/// Which rules are tested.
#[derive(Clone, Copy, Debug, PartialEq, Eq)]
pub enum Mode {
    /// Expressions, guards and bodies of functions that run.
    Executable,
    /// Guards and bodies of functions that do not run: S11 and the second half of S16 alone.
    Logic,
    /// Bodies of macros and constants, where S15 speaks.
    Macro,
}
