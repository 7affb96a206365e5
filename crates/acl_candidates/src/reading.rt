//! From the drafts of functions to what admission asks.

ghost use Rattle.std.specs.Prelude.{◌≡◌, ◌≤◌, [], None, length, IfOk, IfErr};
ghost use Rattle.std.specs.List.{All};
ghost use Rattle.acl_base.specs.Limits.{AreLimits};
ghost use Rattle.model_expansion_forms.specs.Rows.{HasRowFunctions};
ghost use Rattle.model_expansion_parts.specs.Known.{KnowsSupplies};
ghost use Rattle.model_stobjs.specs.Heads.{name_in_use};
ghost use Rattle.model_events.specs.Functions as functions;
ghost use Rattle.model_standing.specs.Laws.{MembersStand, HaveShapedGuards};
ghost use Rattle.model_drafts.specs.Laws.{KnowsDrafts};
ghost use Rattle.acl_forms.specs.Forms.{Grown};
ghost use Rattle.acl_worlds.specs.Contents.{seen_world, WorldLies};
ghost use Rattle.acl_drafts.specs.Drafts.{seen_drafts, drafts_reach};
ghost use Rattle.acl_translate.specs.Functions.{MemberIsKnown};
ghost use Rattle.acl_cliques.specs.Worlds as cliques;
ghost use Rattle.acl_expand.specs.Refusals.{IsTold};
ghost use Rattle.acl_expand.specs.Progresses.{seen_progress, IsWithin};
ghost use Rattle.acl_candidates.specs.Names.{with_named, names_of};
ghost use Rattle.acl_candidates.specs.Ends.{seen_all, named_setting, EndsCandidates};

use crate::candidates::Candidates;
use crate::expanding::expand_drafts;
use crate::naming::enter_names;
use acl_base::Limits;
use acl_drafts::Draft;
use acl_engine::Engine;
use acl_expand::{Progress, Refused};
use acl_heap::Heap;
use acl_syms::Symbols;
use acl_worlds::World;
use std::alloc::Global;

/// Functions with their guards and bodies as core forms, as they are expanded where all of them stand in the world by their
/// names; or the first fault. In every case the world ends as it was.
#[tactic(auto, using(acl_forms::specs::Growth::growing, acl_expand::proofs::KnownLemmas::memory_told, crate::proofs::NameLemmas::named_lies, crate::proofs::ReadLemmas::named_supplies, acl_cliques::proofs::WorldLemmas::cut_within, acl_cliques::proofs::WorldLemmas::cut_layouts, acl_cliques::proofs::WorldLemmas::cut_back))]
pub fn read_functions<E: Engine>(
    alloc: Global,
    world: &mut World,
    heap: &mut Heap,
    syms: &mut Symbols,
    engine: &mut E,
    limits: Limits,
    progress: &mut Progress,
    drafts: &[Draft],
) -> Result<Candidates, Refused>
    requires fits { E.fits engine.old heap.old (with_named world.old drafts.now) syms.old }
    requires world { WorldLies heap.old world.old }
    requires drafts { drafts_reach drafts.now ≤ length heap.old }
    requires fresh { name_in_use (seen_world heap.old world.old) (names_of drafts.now) ≡ None }
    requires supplies { KnowsSupplies (length syms.old.symbols) (seen_world heap.old world.old) }
    requires known { KnowsDrafts (length syms.old.symbols) (seen_drafts heap.old drafts.now) }
    requires rows { HasRowFunctions (seen_world heap.old world.old) }
    requires shaped { HaveShapedGuards (seen_drafts heap.old drafts.now) }
    requires limits { AreLimits limits.steps limits.depth }
    requires counts { IsWithin progress.old limits.steps }
    ensures grows { Grown syms.old syms.new heap.old heap.new }
    ensures packages { syms.new.packages ≡ syms.old.packages }
    ensures live { E.live engine.new ≡ E.live engine.old }
    ensures fits { E.fits engine.new heap.new (with_named world.old drafts.now) syms.new }
    ensures counts { IsWithin progress.new limits.steps }
    ensures world { world.new ≡ world.old }
    ensures same { IfOk result (λ c. length c.executable.items ≡ length c.members.items) }
    ensures known { IfOk result (λ c. All (MemberIsKnown (length syms.new.symbols) heap.new) c.members.items) }
    ensures fresh { IfOk result (λ c. name_in_use (seen_world heap.new world.new) (cliques.names_of c.members.items) ≡ None) }
    ensures stand { IfOk result (λ c. MembersStand (cliques.named_world (seen_world heap.new world.new) (seen_all heap.new c)) (functions.members (seen_all heap.new c))) }
    ensures told { IfErr result IsTold }
    ensures ends { EndsCandidates heap.new (seen_progress syms.new.symbols progress.new) result (functions.all_expanded (named_setting heap.old world.old drafts.now syms.old limits.steps limits.depth) (seen_drafts heap.old drafts.now) [] (seen_progress syms.old.symbols progress.old)) }
{
    let mark = world.mark();
    enter_names(alloc, world, heap, drafts)?;
    let found = expand_drafts(alloc, world, heap, syms, engine, limits, progress, drafts);
    world.cut_to(mark);
    found
}
