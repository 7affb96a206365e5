//! What is done with several children at once.

ghost use Rattle.std.specs.Prelude.{◌≡◌, ℕ, List, OnOk, OnErr};
ghost use Rattle.model_eval.specs.Keeping as keepings;
ghost use Rattle.acl_heap.specs.Objects.{Objects};
ghost use Rattle.acl_worlds.specs.Contents.{Content};
ghost use Rattle.acl_forms.specs.Forms.{AreWhole};
ghost use Rattle.acl_keep.specs.Seen.{seen_loans, loan_words};
ghost use Rattle.acl_keep.specs.Calls.{SomeArePut};

use crate::effect::Loan;
use crate::keeper::Keeper;
use acl_heap::Heap;
use acl_syms::Symbols;
use std::alloc::AllocError;

/// Puts children into their parents, one after the other. Where memory is refused, the first of them are there, and no other.
pub fn put_all<K: Keeper>(
    keeper: &mut K,
    heap: &Heap,
    syms: &Symbols,
    loans: &[Loan],
) -> Result<(), AllocError>
    requires whole { AreWhole syms.now heap.now (loan_words loans.now) }
    ensures ok { OnOk result ((k : K.Kept) (ls : List K.Left) → K.Keeps keeper.old k ls → K.Keeps keeper.new (keepings.put_all K.keeping (seen_loans heap.now loans.now) k) ls) }
    ensures err { OnErr result (SomeArePut K.keeping (K.Keeps keeper.old) (K.Keeps keeper.new) (seen_loans heap.now loans.now)) }
    ensures sound { (h : Objects) (w : Content) (n : ℕ) → K.IsSound keeper.old h w n → K.IsSound keeper.new h w n }
{
    for loan in loans {
        keeper.put(heap, syms, *loan)?;
    }
    Ok(())
}
