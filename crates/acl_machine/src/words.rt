//! The words of actuals.

ghost use Rattle.std.specs.Prelude.{◌≡◌, ◌++◌, IfOk, OnOk};
ghost use Rattle.model_eval.specs.Variables.{ordinary};
ghost use Rattle.acl_forms.specs.Forms.{AreWhole};
ghost use Rattle.acl_prims.specs.Made.{objects_of};
ghost use Rattle.acl_keep.specs.Seen.{all_seen};
ghost use Rattle.acl_machine.specs.Cells.{cells_from, word_in, AreWholeCells};

use crate::values::Values;
use acl_base::Word;
use acl_heap::Heap;
use acl_syms::Symbols;
use acl_terms::Shown;
use std::alloc::{AllocError, Global};

/// One more word, where the value is an ordinary one.
fn add_word(words: &mut Vec<Word>, value: Shown) -> Result<(), AllocError>
    ensures { OnOk result (words.new.items ≡ words.old.items ++ word_in value) }
{
    match value {
        Shown::Value(word) => {
            words.push(word)?;
            Ok(())
        }
        Shown::Object(_) => Ok(()),
    }
}

/// The words among so many values from a number on, in order.
#[tactic(auto, using(crate::proofs::WordLemmas::collects_start, crate::proofs::WordLemmas::collects_step, crate::proofs::WordLemmas::collects_end, crate::proofs::WordLemmas::collects_whole))]
pub fn words(
    alloc: Global,
    values: &Values,
    first: u64,
    count: u64,
    _heap: &Heap,
    _syms: &Symbols,
) -> Result<Vec<Word>, AllocError>
    requires { AreWholeCells _syms.now _heap.now values.now }
    ensures are { IfOk result (λ ws. objects_of _heap.now ws.items ≡ ordinary (all_seen _heap.now (cells_from values.now first count))) }
    ensures whole { IfOk result (λ ws. AreWhole _syms.now _heap.now ws.items) }
{
    let mut words = Vec::new(alloc);
    for k in 0..count {
        match first.checked_add(k) {
            Some(at) => add_word(&mut words, values.get(at))?,
            None => return Err(AllocError),
        }
    }
    Ok(words)
}
