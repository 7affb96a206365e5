//! The guards and the bodies of functions.

ghost use Rattle.std.specs.Prelude.{◌≡◌, ◌≤◌, [], length, IfOk, IfErr};
ghost use Rattle.std.specs.List.{All};
ghost use Rattle.acl_base.specs.Limits.{AreLimits};
ghost use Rattle.model_expansion_parts.specs.Known.{KnowsSupplies};
ghost use Rattle.model_events.specs.Functions as functions;
ghost use Rattle.model_drafts.specs.Laws.{KnowsDraft, KnowsDrafts};
ghost use Rattle.acl_forms.specs.Forms.{Grown};
ghost use Rattle.acl_worlds.specs.Contents.{seen_world, WorldLies};
ghost use Rattle.acl_drafts.specs.Drafts.{seen_draft, draft_reach, seen_drafts, drafts_reach};
ghost use Rattle.acl_translate.specs.Functions.{MemberIsKnown};
ghost use Rattle.acl_expand.specs.Looks.{setting_at};
ghost use Rattle.acl_expand.specs.Refusals.{IsTold};
ghost use Rattle.acl_expand.specs.Progresses.{seen_progress, IsWithin};
ghost use Rattle.acl_candidates.specs.Names.{member_with};
ghost use Rattle.acl_candidates.specs.Ends.{EndsMember, EndsCandidates};

use crate::candidates::{Candidates, add, none};
use acl_base::Limits;
use acl_check::Member;
use acl_drafts::Draft;
use acl_engine::Engine;
use acl_expand::{Progress, Refused};
use acl_growing::expand;
use acl_guards::expand_guard;
use acl_heap::Heap;
use acl_syms::Symbols;
use acl_terms::Core;
use acl_worlds::World;
use sqlite_items::Items;
use std::alloc::{AllocError, Global};

/// A function with its guard and its body.
fn member_with(alloc: Global, draft: &Draft, guard: Core, body: Core) -> Result<Member, AllocError>
    ensures { IfOk result (λ m. m ≡ member_with draft.now guard body) }
{
    let formals = Items::from_slice(alloc, draft.formals.as_slice())?;
    let stobjs = Items::from_slice(alloc, draft.declared.stobjs.as_slice())?;
    Ok(Member {
        name: draft.name,
        formals,
        stobjs,
        guard,
        body,
    })
}

/// A function with its guard and then its body as core forms; or the first fault of these.
#[tactic(auto, using(acl_forms::specs::Growth::growing, acl_expand::proofs::KnownLemmas::memory_told, acl_expand::proofs::KnownLemmas::supplies_there))]
pub fn expand_draft<E: Engine>(
    alloc: Global,
    world: &World,
    heap: &mut Heap,
    syms: &mut Symbols,
    engine: &mut E,
    limits: Limits,
    progress: &mut Progress,
    draft: &Draft,
) -> Result<Member, Refused>
    requires fits { E.fits engine.old heap.old world.now syms.old }
    requires world { WorldLies heap.old world.now }
    requires draft { draft_reach draft.now ≤ length heap.old }
    requires supplies { KnowsSupplies (length syms.old.symbols) (seen_world heap.old world.now) }
    requires known { KnowsDraft (length syms.old.symbols) (seen_draft heap.old draft.now) }
    requires limits { AreLimits limits.steps limits.depth }
    requires counts { IsWithin progress.old limits.steps }
    ensures grows { Grown syms.old syms.new heap.old heap.new }
    ensures packages { syms.new.packages ≡ syms.old.packages }
    ensures live { E.live engine.new ≡ E.live engine.old }
    ensures fits { E.fits engine.new heap.new world.now syms.new }
    ensures counts { IsWithin progress.new limits.steps }
    ensures known { IfOk result (MemberIsKnown (length syms.new.symbols) heap.new) }
    ensures told { IfErr result IsTold }
    ensures ends { EndsMember heap.new (seen_progress syms.new.symbols progress.new) draft.now.executable result (functions.candidate_expanded (setting_at heap.old world.now syms.old limits.steps limits.depth) (seen_draft heap.old draft.now) (seen_progress syms.old.symbols progress.old)) }
{
    let guards = draft.declared.guards.as_slice();
    match expand_guard(alloc, world, heap, syms, engine, limits, progress, guards) {
        Err(refused) => Err(refused),
        Ok(guard) => {
            match expand(
                alloc, world, heap, syms, engine, limits, progress, draft.body,
            ) {
                Err(refused) => Err(refused),
                Ok(body) => {
                    let member = member_with(alloc, draft, guard, body)?;
                    Ok(member)
                }
            }
        }
    }
}

/// Functions with their guards and bodies as core forms, one after another; or the first fault.
#[tactic(auto, using(acl_forms::specs::Growth::growing, acl_expand::proofs::KnownLemmas::memory_told))]
pub fn expand_drafts<E: Engine>(
    alloc: Global,
    world: &World,
    heap: &mut Heap,
    syms: &mut Symbols,
    engine: &mut E,
    limits: Limits,
    progress: &mut Progress,
    drafts: &[Draft],
) -> Result<Candidates, Refused>
    requires fits { E.fits engine.old heap.old world.now syms.old }
    requires world { WorldLies heap.old world.now }
    requires drafts { drafts_reach drafts.now ≤ length heap.old }
    requires supplies { KnowsSupplies (length syms.old.symbols) (seen_world heap.old world.now) }
    requires known { KnowsDrafts (length syms.old.symbols) (seen_drafts heap.old drafts.now) }
    requires limits { AreLimits limits.steps limits.depth }
    requires counts { IsWithin progress.old limits.steps }
    ensures grows { Grown syms.old syms.new heap.old heap.new }
    ensures packages { syms.new.packages ≡ syms.old.packages }
    ensures live { E.live engine.new ≡ E.live engine.old }
    ensures fits { E.fits engine.new heap.new world.now syms.new }
    ensures counts { IsWithin progress.new limits.steps }
    ensures same { IfOk result (λ c. length c.executable.items ≡ length c.members.items) }
    ensures known { IfOk result (λ c. All (MemberIsKnown (length syms.new.symbols) heap.new) c.members.items) }
    ensures told { IfErr result IsTold }
    ensures ends { EndsCandidates heap.new (seen_progress syms.new.symbols progress.new) result (functions.all_expanded (setting_at heap.old world.now syms.old limits.steps limits.depth) (seen_drafts heap.old drafts.now) [] (seen_progress syms.old.symbols progress.old)) }
{
    let mut done = none(alloc);
    let mut rest = drafts;
    'drafts: while let Some((draft, others)) = rest.split_first() {
        match expand_draft(alloc, world, heap, syms, engine, limits, progress, draft) {
            Err(refused) => return Err(refused),
            Ok(member) => add(&mut done, member, draft.executable)?,
        }
        rest = others;
    }
    Ok(done)
}
