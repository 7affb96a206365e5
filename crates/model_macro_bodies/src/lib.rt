//! The bodies of macros, as a machine over trees runs them: what they end with, and what they leave.
#![tactic(auto)]

ghost use Rattle.model_macro_bodies.specs.Laws.{BodiesAreExecutable, MacroBodiesEnd, PlainFormsCount};

use model_window_laws::accepted_forms_end;

/// A form that is accepted as the body of a macro is accepted as that of a function that runs.
#[tactic(auto, using(crate::proofs::ExecutableLemmas::bodies_are_executable))]
pub fn bodies_are_executable()
    ensures { BodiesAreExecutable }
{}

/// A machine that is begun on the tree of a macro's body ends with what checked evaluation of the body gives, and with nothing else.
#[tactic(auto, using(crate::proofs::BodyLemmas::bodies_end))]
pub fn macro_bodies_end()
    ensures { MacroBodiesEnd }
{
    accepted_forms_end();
}

/// Without stobjs in scope an evaluation leaves none, and counts no more calls than the limit.
#[tactic(auto, using(crate::proofs::CountLemmas::plain_forms_count))]
pub fn plain_forms_count()
    ensures { PlainFormsCount }
{}
