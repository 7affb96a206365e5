//! The congruence class of a new stobj.

ghost use Rattle.std.specs.Prelude.{◌≡◌};
ghost use Rattle.model_stobjs.specs.Entries.{class_for};
ghost use Rattle.acl_terms.specs.Definitions.{seen_descriptor};
ghost use Rattle.acl_worlds.specs.Contents.{seen_world};

use acl_base::SymId;
use acl_heap::Heap;
use acl_outputs::class_of;
use acl_terms::Descriptor;
use acl_worlds::World;

/// The first stobj of its congruence class.
#[tactic(auto, using(crate::proofs::ClassLemmas::of_its_own, crate::proofs::ClassLemmas::of_another, crate::proofs::ClassLemmas::of_none))]
pub(crate) fn class_for(world: &World, heap: &Heap, descriptor: &Descriptor) -> SymId
    ensures { result.0 ≡ class_for (seen_world heap.now world.now) (seen_descriptor heap.now descriptor.now) }
{
    match descriptor.congruent_to {
        None => descriptor.name,
        Some(old) => match class_of(world, heap, old) {
            None => old,
            Some(first) => first,
        },
    }
}
