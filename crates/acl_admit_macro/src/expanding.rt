//! A macro is read, and its body expanded.

ghost use Rattle.std.specs.Prelude.{◌≡◌, ◌≤◌, length, IfOk, IfErr};
ghost use Rattle.model_objects.specs.Named.{Knows};
ghost use Rattle.model_expansion_parts.specs.Known.{KnowsForm, KnowsSupplies};
ghost use Rattle.acl_base.specs.Limits.{AreLimits};
ghost use Rattle.acl_heap.specs.Objects.{object_of, Lies};
ghost use Rattle.acl_forms.specs.Forms.{Grown};
ghost use Rattle.acl_terms.specs.Definitions.{seen_formals};
ghost use Rattle.acl_terms.specs.Forms.{seen_core};
ghost use Rattle.acl_worlds.specs.Contents.{seen_world, WorldLies};
ghost use Rattle.acl_expand.specs.Looks.{setting_at};
ghost use Rattle.acl_expand.specs.Progresses.{seen_progress, IsWithin};
ghost use Rattle.acl_admit_macro.specs.Admitted.{Refuses, Expands};
ghost use Rattle.acl_admit_macro.specs.Faults.{Told};
ghost use Rattle.acl_admit_macro.specs.Entered.{expanded_reach};

use crate::expanded::ExpandedMacro;
use crate::fault::{MacroFault, of_draft, of_refused};
use acl_base::{Limits, Word};
use acl_engine::Engine;
use acl_expand::Progress;
use acl_growing::expand;
use acl_heap::Heap;
use acl_macros::{MacroDraft, read_macro};
use acl_syms::Symbols;
use acl_worlds::World;
use std::alloc::Global;

/// The macro that stands behind the head `DEFMACRO`, its body expanded in the world as it stands, or the first refusal of either.
#[tactic(auto, using(acl_forms::specs::Growth::growing, crate::proofs::ReadLemmas::draft_told, crate::proofs::AdmitLemmas::lies_still))]
pub fn expand_macro<E: Engine>(
    alloc: Global,
    world: &World,
    heap: &mut Heap,
    syms: &mut Symbols,
    engine: &mut E,
    limits: Limits,
    progress: &mut Progress,
    form: Word,
) -> Result<ExpandedMacro, MacroFault>
    requires form { Lies heap.old form }
    requires known { Knows (length syms.old.symbols) (object_of heap.old form) }
    requires fits { E.fits engine.old heap.old world.now syms.old }
    requires world { WorldLies heap.old world.now }
    requires supplies { KnowsSupplies (length syms.old.symbols) (seen_world heap.old world.now) }
    requires limits { AreLimits limits.steps limits.depth }
    requires counts { IsWithin progress.old limits.steps }
    ensures grows { Grown syms.old syms.new heap.old heap.new }
    ensures packages { syms.new.packages ≡ syms.old.packages }
    ensures live { E.live engine.new ≡ E.live engine.old }
    ensures fits { E.fits engine.new heap.new world.now syms.new }
    ensures counts { IsWithin progress.new limits.steps }
    ensures known { IfOk result (λ m. KnowsForm (length syms.new.symbols) (seen_core heap.new m.body)) }
    ensures lies { IfOk result (λ m. expanded_reach m ≤ length heap.new) }
    ensures ok { IfOk result (λ m. Expands (setting_at heap.old world.now syms.old limits.steps limits.depth) (object_of heap.old form) (seen_progress syms.old.symbols progress.old) (seen_progress syms.new.symbols progress.new) m.name.0 (seen_formals heap.new m.formals) (seen_core heap.new m.body)) }
    ensures err { IfErr result (Told heap.new (Refuses (setting_at heap.old world.now syms.old limits.steps limits.depth) (object_of heap.old form) (seen_progress syms.old.symbols progress.old) (seen_progress syms.new.symbols progress.new))) }
{
    match read_macro(alloc, heap, syms, world, form) {
        Err(fault) => Err(of_draft(fault)),
        Ok(draft) => {
            let MacroDraft {
                name,
                formals,
                body,
            } = draft;
            match expand(alloc, world, heap, syms, engine, limits, progress, body) {
                Err(refused) => Err(of_refused(refused)),
                Ok(body) => Ok(ExpandedMacro {
                    name,
                    formals,
                    body,
                }),
            }
        }
    }
}
