//! The event whole: its form is read, its body expanded, and the macro enters the world, or world and table stay as they were.

ghost use Rattle.std.specs.Prelude.{◌≡◌, ◌≤◌, length, IfOk, IfErr, OnErr};
ghost use Rattle.model_objects.specs.Named.{Knows};
ghost use Rattle.model_expansion_forms.specs.Rows.{HasRowFunctions};
ghost use Rattle.model_expansion_parts.specs.Known.{KnowsSupplies};
ghost use Rattle.acl_base.specs.Limits.{AreLimits};
ghost use Rattle.acl_heap.specs.Objects.{object_of, Lies};
ghost use Rattle.acl_forms.specs.Forms.{Grown};
ghost use Rattle.acl_worlds.specs.Contents.{seen_world, WorldLies};
ghost use Rattle.acl_code.specs.Constants.{ConstantsAreKnown};
ghost use Rattle.acl_code.specs.Tables.{TermsLie};
ghost use Rattle.acl_code.specs.Tables as tables;
ghost use Rattle.acl_expand.specs.Looks.{setting_at};
ghost use Rattle.acl_expand.specs.Progresses.{seen_progress, IsWithin};
ghost use Rattle.acl_admit_macro.specs.Admitted.{Admits, Refuses};
ghost use Rattle.acl_admit_macro.specs.Faults.{Told};
ghost use Rattle.acl_admit_macro.specs.Entered.{HasEntered};

use crate::entering::enter_macro;
use crate::expanding::expand_macro;
use crate::fault::{MacroFault, of_thread};
use acl_base::{Limits, SymId, Word};
use acl_code::Terms;
use acl_engine::Engine;
use acl_expand::Progress;
use acl_heap::Heap;
use acl_syms::Symbols;
use acl_worlds::World;
use std::alloc::Global;

/// Defines the macro of what stands behind the head `DEFMACRO`, and answers its name. The world has the macro behind what it had,
/// and the table the term of its body.
pub fn admit_macro<E: Engine>(
    alloc: Global,
    world: &mut World,
    terms: &mut Terms,
    heap: &mut Heap,
    syms: &mut Symbols,
    engine: &mut E,
    limits: Limits,
    progress: &mut Progress,
    form: Word,
) -> Result<SymId, MacroFault>
    requires form { Lies heap.old form }
    requires known { Knows (length syms.old.symbols) (object_of heap.old form) }
    requires fits { E.fits engine.old heap.old world.old syms.old }
    requires world { WorldLies heap.old world.old }
    requires words { TermsLie heap.old terms.old }
    requires supplies { KnowsSupplies (length syms.old.symbols) (seen_world heap.old world.old) }
    requires rows { HasRowFunctions (seen_world heap.old world.old) }
    requires limits { AreLimits limits.steps limits.depth }
    requires counts { IsWithin progress.old limits.steps }
    ensures ok { IfOk result (λ name. Admits (setting_at heap.old world.old syms.old limits.steps limits.depth) (object_of heap.old form) (seen_progress syms.old.symbols progress.old) (seen_progress syms.new.symbols progress.new) (seen_world heap.new world.new) name.0) }
    ensures enters { IfOk result (λ name. HasEntered heap.new world.old world.new terms.new (setting_at heap.old world.old syms.old limits.steps limits.depth) (object_of heap.old form) (seen_progress syms.old.symbols progress.old) (seen_progress syms.new.symbols progress.new) name.0) }
    ensures err { IfErr result (Told heap.new (Refuses (setting_at heap.old world.old syms.old limits.steps limits.depth) (object_of heap.old form) (seen_progress syms.old.symbols progress.old) (seen_progress syms.new.symbols progress.new))) }
    ensures unchanged { OnErr result (world.new ≡ world.old) }
    ensures table { OnErr result (terms.new ≡ terms.old) }
    ensures grows { Grown syms.old syms.new heap.old heap.new }
    ensures packages { syms.new.packages ≡ syms.old.packages }
    ensures live { E.live engine.new ≡ E.live engine.old }
    ensures fits { E.fits engine.new heap.new world.old syms.new }
    ensures counts { IsWithin progress.new limits.steps }
    ensures world { WorldLies heap.new world.new }
    ensures supplies { KnowsSupplies (length syms.new.symbols) (seen_world heap.new world.new) }
    ensures rows { HasRowFunctions (seen_world heap.new world.new) }
    ensures more { tables.Grown terms.old terms.new }
    ensures words { TermsLie heap.new terms.new }
    ensures constants { ConstantsAreKnown (length syms.old.symbols) heap.old terms.old → ConstantsAreKnown (length syms.new.symbols) heap.new terms.new }
{
    match expand_macro(alloc, world, heap, syms, engine, limits, progress, form) {
        Err(fault) => Err(fault),
        Ok(expanded) => {
            let name = expanded.name;
            match enter_macro(alloc, world, terms, heap, expanded) {
                Err(fault) => Err(of_thread(fault)),
                Ok(_term) => Ok(name),
            }
        }
    }
}
