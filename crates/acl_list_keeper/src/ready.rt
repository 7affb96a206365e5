//! What a call that was prepared will do.

ghost use Rattle.std.specs.Prelude.{◌≡◌, ℕ, List};
ghost use Rattle.model_eval.specs.Outcomes.{Stobjs};
ghost use Rattle.acl_list_scope.specs.Kept.{Keeps};
ghost use Rattle.acl_list_keeper.specs.Readiness.{ready_of, changed, ChangeWithin};

use acl_base::SymId;
use acl_keep::Effect;
use acl_list_calls::Done;
use acl_list_scope::ScopedLists;
use acl_lists::ListId;
use acl_terms::Shown;

/// A variable that will have another list.
#[derive(Clone, Copy, Debug)]
pub struct Change {
    pub variable: SymId,
    pub list: Option<ListId>,
}

/// The answer of a call, and what it changes.
#[derive(Clone, Copy, Debug)]
pub struct Ready {
    pub effect: Effect,
    pub change: Option<Change>,
}

fn answering(effect: Effect) -> Ready
    ensures { result ≡ record { effect = effect; change = None } }
{
    Ready {
        effect,
        change: None,
    }
}

/// What comes of a call is answered, with its object under this variable; without one nothing is written.
pub(crate) fn ready_of(done: Done, variable: Option<SymId>) -> Ready
    ensures { result ≡ ready_of done variable }
{
    match done {
        Done::Refuses => answering(Effect::Refuses),
        Done::Reads(w) => answering(Effect::Gives(Shown::Value(w))),
        Done::ReadsBoth(value, bound) => {
            answering(Effect::GivesBoth(Shown::Value(value), Shown::Value(bound)))
        }
        Done::Writes(list) => match variable {
            None => answering(Effect::Refuses),
            Some(variable) => Ready {
                effect: Effect::Gives(Shown::Object(variable)),
                change: Some(Change { variable, list }),
            },
        },
    }
}

/// Gives a variable the list that was made for it.
#[tactic(auto, using(crate::proofs::ReadyLemmas::none_changed, crate::proofs::ReadyLemmas::one_changed))]
pub(crate) fn apply(scoped: &mut ScopedLists, change: Option<Change>)
    ensures { (k : Stobjs ℕ) (ls : List (Stobjs ℕ)) → Keeps scoped.old k ls → ChangeWithin scoped.old.lists change → Keeps scoped.new (changed scoped.old.lists change k) ls }
{
    match change {
        Some(change) => scoped.write(change.variable, change.list),
        None => {}
    }
}
