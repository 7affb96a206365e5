//! The rows of THE.

ghost use Rattle.std.specs.Prelude.{◌≡◌, IfOk};
ghost use Rattle.model_expansion.specs.Layers as layers;
ghost use Rattle.model_expansion.specs.Layers.{made_of};
ghost use Rattle.acl_layers.specs.Lists.{seen_left, LeftLies};
ghost use Rattle.acl_layers.specs.Layers.{StandsMade};

use crate::layer::{Left, Made, Part, Ready};
use crate::lists::{one, two};
use crate::making::{HIDDEN, call_three, hidden_let};
use crate::rows::Row;
use crate::words::{self, NIL_WORD};
use acl_base::SymId;
use acl_heap::Heap;
use acl_syms::Symbols;
use acl_types::is_type;
use std::alloc::{AllocError, Global};

#[tactic(auto, using(crate::proofs::RowLemmas::the_none))]
pub fn the(
    alloc: Global,
    heap: &Heap,
    _syms: &Symbols,
    left: Left,
) -> Result<Option<Made>, AllocError>
    requires { LeftLies heap.now left }
    ensures { IfOk result (λ m. StandsMade heap.now m (made_of _syms.now.symbols layers.The (seen_left heap.now left))) }
{
    match two(heap, left) {
        None => Ok(None),
        Some((written, form)) => {
            if !is_type(heap, written) {
                return Ok(None);
            }
            let test = Left {
                list: NIL_WORD,
                last: Some(written),
            };
            Ok(Some(hidden_let(alloc, form, Part::Rest(Row::Checked, test))?))
        }
    }
}

/// The check of a THE whose value is bound.
#[tactic(auto, using(crate::proofs::RowLemmas::checked_none, crate::proofs::TypedLemmas::checked_bad, crate::proofs::TypedLemmas::checked_is))]
pub fn checked(
    alloc: Global,
    heap: &Heap,
    _syms: &Symbols,
    left: Left,
) -> Result<Option<Made>, AllocError>
    requires { LeftLies heap.now left }
    ensures { IfOk result (λ m. StandsMade heap.now m (made_of _syms.now.symbols layers.Checked (seen_left heap.now left))) }
{
    match one(heap, left) {
        None => Ok(None),
        Some(written) => {
            if !is_type(heap, written) {
                return Ok(None);
            }
            let test = Part::Ready(Ready::TypeTest(written));
            let spec = Part::Ready(Ready::Constant(written));
            Ok(Some(call_three(alloc, SymId(words::THE_CHECK), test, spec, HIDDEN)?))
        }
    }
}
