//! `Undo`: what a part of a journal does to the state that it was taken from.
ghost use Rattle.std.specs.Prelude.{◌≡◌};

/// A part of an old state, which can be put back or forgotten.
///
/// Neither takes memory, and neither fails where the part fits the state.
pub trait Undo<S> {
    /// Whether the part may be put back into the state, or forgotten there.
    ghost fits: { Self → S → Type 0 };

    /// The state with the part put back.
    ghost undone: { Self → S → S };

    /// The state without the part.
    ghost forgotten: { Self → S → S };

    /// The two states stand for the same.
    ghost stands_for_same: { S → S → Type 0 };

    /// Puts the part back.
    fn undo(self, state: &mut S)
        requires { fits self state.old }
        ensures { state.new ≡ undone self state.old };

    /// Gives the part up. What the state stands for stays.
    fn forget(self, state: &mut S)
        requires { fits self state.old }
        ensures { state.new ≡ forgotten self state.old };

    /// A state stands for what it stands for.
    ghost same_as_itself: { (s : S) → stands_for_same s s };

    /// What the first stands for is what the third does.
    ghost same_in_turn: { (s t u : S) → stands_for_same s t → stands_for_same t u → stands_for_same s u };

    /// To forget a part leaves what the state stands for.
    ghost forgotten_stands: { (part : Self) (s : S) → fits part s → stands_for_same s (forgotten part s) };
}
