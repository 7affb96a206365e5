//! Which names are in use.

ghost use Rattle.std.specs.Prelude.{◌≡◌, ◌+◌, not, is_some, drop, length, IfOk, option_map};
ghost use Rattle.model_terms.specs.Worlds as worlds;
ghost use Rattle.model_terms.specs.Classes.{has};
ghost use Rattle.model_expansion.specs.Faults.{NameInUse};
ghost use Rattle.model_stobjs.specs.Heads.{event_heads, is_skipped, is_unsupported, is_head, is_reserved, name_in_use};
ghost use Rattle.acl_names.specs.Places.{last_place};
ghost use Rattle.acl_terms.specs.Forms.{numbers};
ghost use Rattle.acl_worlds.specs.Contents.{seen_world};
ghost use Rattle.acl_declare.specs.Places.{is_at};

use crate::table::table_of;
use crate::words;
use acl_base::SymId;
use acl_heap::Heap;
use acl_layers::{core_row, macro_row};
use acl_names::Names;
use acl_worlds::World;
use std::alloc::{AllocError, Global};

fn is_event_head(s: SymId) -> bool
    ensures { result ≡ has event_heads s.0 }
{
    match s.0 {
        words::IN_PACKAGE => true,
        words::DEFPKG => true,
        words::DEFCONST => true,
        words::DEFMACRO => true,
        words::DEFUN => true,
        words::DEFUND => true,
        words::DEFUN_NX => true,
        words::MUTUAL_RECURSION => true,
        words::DEFSTOBJ => true,
        words::DEFABSSTOBJ => true,
        _ => false,
    }
}

fn is_skipped(s: SymId) -> bool
    ensures { result ≡ is_skipped s.0 }
{
    words::DEFTHM <= s.0 && s.0 <= words::LAST_SKIPPED
}

fn is_unsupported(s: SymId) -> bool
    ensures { result ≡ is_unsupported s.0 }
{
    if s.0 == words::PROGN {
        return true;
    }
    words::INCLUDE_BOOK <= s.0 && s.0 <= words::CW
}

fn is_head(s: SymId) -> bool
    ensures { result ≡ is_head s.0 }
{
    if is_event_head(s) {
        return true;
    }
    if is_skipped(s) {
        return true;
    }
    is_unsupported(s)
}

/// Whether it is a head, a core form or a built-in macro.
#[tactic(auto, using(crate::proofs::NameLemmas::row_there, crate::proofs::NameLemmas::reserved_head, crate::proofs::NameLemmas::reserved_core, crate::proofs::NameLemmas::reserved_macro))]
fn is_reserved(s: SymId) -> bool
    ensures { result ≡ is_reserved s.0 }
{
    if is_head(s) {
        return true;
    }
    if core_row(s).is_some() {
        return true;
    }
    macro_row(s).is_some()
}

/// Whether a definition has this name.
#[tactic(auto, using(crate::proofs::NameLemmas::defined, crate::proofs::NameLemmas::undefined))]
fn is_defined(heap: &Heap, world: &World, s: SymId) -> bool
    ensures { result ≡ is_some (worlds.definition (seen_world heap.now world.now) s.0) }
{
    match world.look(s, heap) {
        Some(_definition) => true,
        None => false,
    }
}

/// Whether a name that stands at this place stands behind it, too.
#[tactic(auto, using(crate::proofs::NameLemmas::placed, crate::proofs::NameLemmas::not_placed))]
fn comes_again(table: &Names, at: usize, s: SymId) -> bool
    ensures { result ≡ not (is_at at (last_place s.0 table.now)) }
{
    match table.find(s.0) {
        Some(place) => place != at,
        None => true,
    }
}

/// The first name that is in use, or that comes again, found by one table of names.
#[tactic(auto, using(crate::proofs::NameLemmas::name_free, crate::proofs::NameLemmas::name_defined, crate::proofs::NameLemmas::name_reserved, crate::proofs::NameLemmas::name_again, crate::proofs::NameLemmas::names_end))]
pub fn name_in_use(
    alloc: Global,
    heap: &Heap,
    world: &World,
    names: &[SymId],
) -> Result<Option<SymId>, AllocError>
    ensures { IfOk result (λ r. name_in_use (seen_world heap.now world.now) (numbers names.now) ≡ option_map (λ s. NameInUse s.0) r) }
{
    let table = table_of(alloc, names)?;
    for (i, name) in names.iter().enumerate() {
        if is_defined(heap, world, *name) {
            return Ok(Some(*name));
        }
        if is_reserved(*name) {
            return Ok(Some(*name));
        }
        if comes_again(&table, i, *name) {
            return Ok(Some(*name));
        }
    }
    Ok(None)
}
