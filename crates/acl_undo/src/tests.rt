ghost use Rattle.std.specs.Prelude.{◌≡◌, ◌<◌, ⊤, slice_set};
ghost use Rattle.std.proofs.Common.{refl, ◌∙◌};

use crate::{Journal, Undo};
use std::alloc::{AllocError, Global};
use std::process::Abort;
use std::test::*;

/// A place of the counters, with the number that it held.
#[derive(Drop)]
struct Slot {
    place: usize,
    number: u64,
}

#[derive(Drop)]
struct Counters {
    numbers: [u64; 4],
}

impl Undo<Counters> for Slot {
    ghost fits = { λ slot _. slot.place < 4 };

    ghost undone = { λ slot s. record { numbers = slice_set s.numbers slot.place slot.number } };

    ghost forgotten = { λ _ s. s };

    ghost stands_for_same = { λ s t. s ≡ t };

    fn undo(self, state: &mut Counters) {
        state.numbers[self.place] = self.number;
    }

    fn forget(self, _state: &mut Counters) {}

    ghost same_as_itself = { λ s. refl };

    ghost same_in_turn = { λ s t u e f. e ∙ f };

    ghost forgotten_stands = { λ slot s fit. refl };
}

/// A value that was overwritten.
#[derive(Drop)]
struct Old<T> {
    value: T,
}

impl<T: Copy> Undo<T> for Old<T> {
    ghost fits = { λ _ _. ⊤ };

    ghost undone = { λ old _. old.value };

    ghost forgotten = { λ _ s. s };

    ghost stands_for_same = { λ s t. s ≡ t };

    fn undo(self, state: &mut T) {
        *state = self.value;
    }

    fn forget(self, _state: &mut T) {}

    ghost same_as_itself = { λ s. refl };

    ghost same_in_turn = { λ s t u e f. e ∙ f };

    ghost forgotten_stands = { λ old s fit. refl };
}

#[test]
fn rolls_twenty_notes_back(rt: HostRuntime) -> Result<(), Fail> {
    let mut counters = Counters {
        numbers: [1, 2, 3, 4],
    };
    let mut journal = Journal::new(rt.alloc());
    journal.open();
    for turn in 0..20usize {
        let place = turn % 4;
        let number = counters.numbers[place];
        if journal.note(Slot { place, number }).is_err() {
            return Err(AllocError.into());
        }
        counters.numbers[place] = 100 + turn as u64;
    }
    assert_eq!(rt; counters.numbers, [116, 117, 118, 119]);
    journal.roll_back(&mut counters);
    assert_eq!(rt; counters.numbers, [1, 2, 3, 4]);
    Ok(())
}

fn closes_and_rolls_back<T: Copy + PartialEq>(
    rt: &impl Abort,
    alloc: Global,
    old: T,
    new: T,
) -> Result<(), AllocError> {
    let mut value = old;
    let mut journal = Journal::new(alloc);
    journal.open();
    if journal.note(Old { value }).is_err() {
        return Err(AllocError);
    }
    value = new;
    journal.close(&mut value);
    assert!(rt; value == new);
    journal.open();
    if journal.note(Old { value }).is_err() {
        return Err(AllocError);
    }
    value = old;
    journal.roll_back(&mut value);
    assert!(rt; value == new);
    Ok(())
}

#[test]
fn keeps_what_it_closes_over(rt: HostRuntime) -> Result<(), Fail> {
    closes_and_rolls_back(&rt, rt.alloc(), 7u8, 8)?;
    closes_and_rolls_back(&rt, rt.alloc(), -7i64, 8)?;
    closes_and_rolls_back(&rt, rt.alloc(), (1u64, 2u64), (2, 1))?;
    Ok(())
}
