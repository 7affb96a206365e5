//! Names that are in use.

ghost use Rattle.std.specs.Prelude.{◌≡◌, ℕ, List, ◌∷◌, nat_eq, option_map, true, IfOk, OnOk};
ghost use Rattle.indexmap.specs.IndexSet.{contains, Updates};
ghost use Rattle.model_terms.specs.Classes.{has};
ghost use Rattle.model_expansion.specs.Faults.{NameInUse};
ghost use Rattle.model_stobjs.specs.Heads.{is_skipped, is_unsupported, is_head, is_reserved, is_in_use, name_in_use};
ghost use Rattle.acl_terms.specs.Forms.{numbers};
ghost use Rattle.acl_worlds.specs.Contents.{seen_world};
ghost use Rattle.acl_stobj.specs.Uses.{HasNames};

use acl_base::SymId;
use acl_heap::Heap;
use acl_layers::{core_row, macro_row};
use acl_worlds::World;
use indexmap::IndexSet;
use std::alloc::{AllocError, Global};

/// The heads of events.
const EVENT_HEADS: [u32; 10] = [101, 159, 158, 100, 99, 160, 161, 162, 163, 164];

const PROGN: u32 = 102;

/// `DEFTHM`, the first of the heads that are skipped.
const FIRST_SKIPPED: u32 = 167;

const LAST_SKIPPED: u32 = 185;

const INCLUDE_BOOK: u32 = 186;

const CW: u32 = 194;

#[tactic(auto, using(crate::proofs::UseLemmas::head_there, crate::proofs::UseLemmas::head_other, crate::proofs::UseLemmas::head_end))]
fn is_among(heads: &[u32], s: u32) -> bool
    ensures { result ≡ has heads.now s }
{
    let mut rest = heads;
    'heads: while let Some((head, others)) = rest.split_first() {
        if s == *head {
            return true;
        }
        rest = others;
    }
    false
}

fn is_skipped(s: u32) -> bool
    ensures { result ≡ is_skipped s }
{
    FIRST_SKIPPED <= s && s <= LAST_SKIPPED
}

fn is_unsupported(s: u32) -> bool
    ensures { result ≡ is_unsupported s }
{
    s == PROGN || (INCLUDE_BOOK <= s && s <= CW)
}

/// Whether it is the head of an event, or of a form that is skipped or not supported.
fn is_head(s: u32) -> bool
    ensures { result ≡ is_head s }
{
    if is_among(&EVENT_HEADS, s) {
        return true;
    }
    if is_skipped(s) {
        return true;
    }
    is_unsupported(s)
}

/// Whether it is the head of an event, a core form or a built-in macro.
fn is_reserved(s: SymId) -> bool
    ensures { result ≡ is_reserved s.0 }
{
    if is_head(s.0) {
        return true;
    }
    if core_row(s).is_some() {
        return true;
    }
    macro_row(s).is_some()
}

fn is_later(later: &IndexSet<u32>, s: u32) -> bool
    ensures { result ≡ contains nat_eq later.now s }
{
    later.contains(&s)
}

fn enter(later: &mut IndexSet<u32>, s: u32) -> Result<(), AllocError>
    ensures { OnOk result (Updates nat_eq later.old later.new s true) }
{
    later.insert_full(s)?;
    Ok(())
}

/// Whether a name is in use, or comes again.
#[tactic(auto, using(crate::proofs::UseLemmas::defined, crate::proofs::UseLemmas::reserved, crate::proofs::UseLemmas::comes_again))]
fn is_in_use(world: &World, heap: &Heap, later: &IndexSet<u32>, s: SymId) -> bool
    ensures { (others : List ℕ) → HasNames later.now others → result ≡ is_in_use (seen_world heap.now world.now) others s.0 }
{
    if world.look(s, heap).is_some() {
        return true;
    }
    if is_reserved(s) {
        return true;
    }
    is_later(later, s.0)
}

/// The name itself where it is in use, else the one that was found behind it.
#[tactic(auto, using(crate::proofs::UseLemmas::this_used, crate::proofs::UseLemmas::this_unused))]
fn this_or_later(
    world: &World,
    heap: &Heap,
    later: &IndexSet<u32>,
    s: SymId,
    found: Option<SymId>,
) -> Option<SymId>
    ensures { (others : List ℕ) → HasNames later.now others → name_in_use (seen_world heap.now world.now) others ≡ option_map (λ s. NameInUse s.0) found → name_in_use (seen_world heap.now world.now) (s.0 ∷ others) ≡ option_map (λ s. NameInUse s.0) result }
{
    if is_in_use(world, heap, later, s) {
        Some(s)
    } else {
        found
    }
}

/// The first name that is in use, or that comes again. They are looked at from the last on.
#[tactic(auto, using(crate::proofs::UseLemmas::looks, crate::proofs::UseLemmas::looked, crate::proofs::UseLemmas::all_looked))]
pub fn first_in_use(
    alloc: Global,
    world: &World,
    heap: &Heap,
    names: &[SymId],
) -> Result<Option<SymId>, AllocError>
    ensures { IfOk result (λ r. name_in_use (seen_world heap.now world.now) (numbers names.now) ≡ option_map (λ s. NameInUse s.0) r) }
{
    let mut later = IndexSet::new(alloc);
    let mut found = None;
    let mut rest = names;
    'names: while let Some((name, before)) = rest.split_last() {
        found = this_or_later(world, heap, &later, *name, found);
        enter(&mut later, name.0)?;
        rest = before;
    }
    Ok(found)
}
