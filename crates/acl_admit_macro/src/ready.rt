//! Whether a macro is small enough to be checked and to be made into a term.

ghost use Rattle.std.specs.Prelude.{◌≡◌, IfOk};
ghost use Rattle.acl_terms.specs.Definitions.{seen_formals};
ghost use Rattle.acl_terms.specs.Forms.{seen_core};
ghost use Rattle.acl_admit_macro.specs.Ready.{is_ready};

use acl_check::formal_names;
use acl_heap::Heap;
use acl_narrow::is_narrow;
use acl_terms::{Core, MacroFormals};
use std::alloc::{AllocError, Global};

/// How many places a list has at most.
const MOST: usize = 4_294_967_296;

/// How deep a form is at most.
const DEEPEST: u32 = 2_048;

/// Whether a macro has at most 2^32 formals, its body is at most 2,048 deep, and no list in it has more than 2^32 places.
#[tactic(auto, using(crate::proofs::ReadyLemmas::ready_is))]
pub fn is_ready(
    alloc: Global,
    heap: &Heap,
    formals: &MacroFormals,
    body: &Core,
) -> Result<bool, AllocError>
    ensures { IfOk result (λ b. b ≡ is_ready (seen_formals heap.now formals.now) (seen_core heap.now body.now)) }
{
    let names = formal_names(alloc, heap, formals)?;
    let few = names.len() <= MOST;
    let narrow = is_narrow(heap, body, DEEPEST);
    Ok(few & narrow)
}
