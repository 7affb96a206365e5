//! The term of a form that has a tree.

ghost use Rattle.std.specs.Prelude.{◌≡◌, ◌<◌, ℕ, length, true, Some, is_some, IfOk, OnErr};
ghost use Rattle.acl_terms.specs.Forms.{numbers, seen_core};
ghost use Rattle.acl_worlds.specs.Contents.{seen_world};
ghost use Rattle.acl_code.specs.Constants.{ConstantsAreKnown, FormIsKnown};
ghost use Rattle.acl_code.specs.Sizes as code;
ghost use Rattle.acl_code.specs.Tables.{Grown, TermsLie, IsBuilt};
ghost use Rattle.acl_translate.specs.Functions.{formal_tree};

use acl_base::{SymId, TermId};
use acl_code::{Terms, build};
use acl_heap::Heap;
use acl_terms::Core;
use acl_worlds::World;
use std::alloc::{AllocError, Global};

/// The term of a form that has a tree under these names. A refused one leaves the table as it was.
#[tactic(auto, using(crate::proofs::FunctionLemmas::term_missing, crate::proofs::FunctionLemmas::term_built))]
pub fn build_tree(
    alloc: Global,
    terms: &mut Terms,
    world: &World,
    heap: &Heap,
    names: &[SymId],
    core: &Core,
) -> Result<TermId, AllocError>
    requires words { TermsLie heap.now terms.old }
    requires fits { code.Fits heap.now (length names.now) core.now }
    requires tree { is_some (formal_tree (seen_world heap.now world.now) (numbers names.now) (seen_core heap.now core.now)) ≡ true }
    ensures built { IfOk result (λ t. IsBuilt heap.now terms.new (Some t) (formal_tree (seen_world heap.now world.now) (numbers names.now) (seen_core heap.now core.now))) }
    ensures err { OnErr result (terms.new ≡ terms.old) }
    ensures grows { Grown terms.old terms.new }
    ensures words { TermsLie heap.now terms.new }
    ensures known { (n : ℕ) → 1 < n → FormIsKnown n (seen_core heap.now core.now) → ConstantsAreKnown n heap.now terms.old → ConstantsAreKnown n heap.now terms.new }
{
    match build(alloc, terms, world, heap, names, core) {
        Ok(built) => match built {
            Some(term) => Ok(term),
            None => unreachable!(),
        },
        Err(e) => Err(e),
    }
}
