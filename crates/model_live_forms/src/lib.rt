//! Forms over live stobjs, as a machine over trees runs them: what they end with.
#![tactic(auto)]

ghost use Rattle.model_live_forms.specs.Laws.{LiveFormsEnd};

use model_window_laws::accepted_forms_end;

/// A machine that is begun on the tree of an accepted form over live stobjs ends with what checked evaluation of the form gives, and
/// with nothing else.
#[tactic(auto, using(crate::proofs::EndLemmas::live_forms))]
pub fn live_forms_end()
    ensures { LiveFormsEnd }
{
    accepted_forms_end();
}
