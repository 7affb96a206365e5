//! Laws of the symbols in what stobjs hold.
#![tactic(auto)]

ghost use Rattle.model_known.specs.Laws.{EffectsKnow, ListsKeepingKnows, WorldsKnow, MoreAreKnown};

/// What a generated function reads or writes has the symbols of its arguments, of its stobj's list and of its initial values.
pub fn effects_know_their_symbols()
    ensures { EffectsKnow }
{}

/// Stobjs that are kept as lists have the symbols that they had, whatever is done with them.
pub fn kept_lists_know_their_symbols()
    ensures { ListsKeepingKnows }
{}

/// New lists have the symbols of what the fields of the world's stobjs begin as.
pub fn worlds_know_their_symbols()
    ensures { WorldsKnow }
{}

/// What has symbols below a number has symbols below each greater one.
pub fn more_symbols_are_known()
    ensures { MoreAreKnown }
{}
