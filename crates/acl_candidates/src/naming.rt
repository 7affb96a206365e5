//! Functions in a world by their names alone.

ghost use Rattle.std.specs.Prelude.{◌≡◌, ◌∷◌, ◌++◌, [], None, map, IfOk, OnOk, OnErr};
ghost use Rattle.model_events.specs.Functions.{with_names};
ghost use Rattle.model_stobjs.specs.Heads.{name_in_use};
ghost use Rattle.acl_worlds.specs.Contents.{seen_world};
ghost use Rattle.acl_drafts.specs.Drafts.{seen_drafts};
ghost use Rattle.acl_candidates.specs.Names.{named, with_named, names_of};

use acl_definitions::add_all;
use acl_drafts::Draft;
use acl_heap::Heap;
use acl_terms::Definition;
use acl_worlds::World;
use sqlite_items::Items;
use std::alloc::{AllocError, Global};

/// A function as it stands by its name.
fn named(alloc: Global, draft: &Draft) -> Result<Definition, AllocError>
    ensures { IfOk result (λ d. d ≡ named draft.now) }
{
    let formals = Items::from_slice(alloc, draft.formals.as_slice())?;
    Ok(Definition::Named {
        name: draft.name,
        formals,
    })
}

/// Puts a definition last.
fn add_entry(entries: &mut Vec<Definition>, entry: Definition) -> Result<(), AllocError>
    ensures { OnOk result (entries.new.items ≡ entries.old.items ++ entry ∷ []) }
{
    entries.push(entry)?;
    Ok(())
}

/// Functions as they stand by their names, in their order.
#[tactic(auto, using(crate::proofs::NameLemmas::entries_more, crate::proofs::NameLemmas::entries_end))]
fn named_entries(alloc: Global, drafts: &[Draft]) -> Result<Vec<Definition>, AllocError>
    ensures { IfOk result (λ ds. ds.items ≡ map named drafts.now) }
{
    let mut entries = Vec::new(alloc);
    let mut rest = drafts;
    'drafts: while let Some((draft, others)) = rest.split_first() {
        let entry = named(alloc, draft)?;
        add_entry(&mut entries, entry)?;
        rest = others;
    }
    Ok(entries)
}

/// Functions enter the world by their names, all or none.
#[tactic(auto, using(crate::proofs::NameLemmas::entries_distinct, crate::proofs::NameLemmas::entries_fit, crate::proofs::NameLemmas::entered_is, crate::proofs::NameLemmas::entered_seen))]
pub fn enter_names(
    alloc: Global,
    world: &mut World,
    _heap: &Heap,
    drafts: &[Draft],
) -> Result<(), AllocError>
    requires fresh { name_in_use (seen_world _heap.now world.old) (names_of drafts.now) ≡ None }
    ensures is { OnOk result (world.new ≡ with_named world.old drafts.now) }
    ensures seen { OnOk result (seen_world _heap.now world.new ≡ with_names (seen_world _heap.now world.old) (seen_drafts _heap.now drafts.now)) }
    ensures err { OnErr result (world.new ≡ world.old) }
{
    world.is_world();
    let entries = named_entries(alloc, drafts)?;
    add_all(world, entries)?;
    Ok(())
}
