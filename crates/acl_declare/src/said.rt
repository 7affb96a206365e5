//! What declarations say.

ghost use Rattle.std.specs.Prelude.{◌≡◌, ◌≤◌, length, max, OnOk};
ghost use Rattle.model_events.specs.Declarations.{both_declared, nothing_declared};
ghost use Rattle.acl_terms.specs.Forms.{numbers};
ghost use Rattle.acl_declare.specs.Said.{seen_item, item_reach, seen_declared, declared_reach, asks, names_stobjs};

use acl_base::{SymId, Word};
use acl_heap::Heap;
use acl_terms::Core;
use sqlite_items::Items;
use std::alloc::{AllocError, Global};

/// What a guard asks.
#[derive(Debug, Drop)]
pub enum GuardItem {
    /// That this form holds.
    FormHolds(Word),
    /// The test of a type.
    Meets(Core),
}

/// What the declarations of a definition say: what its guard asks, in order, and which formals are stobjs.
#[derive(Debug, Drop)]
pub struct Declared {
    pub guards: Items<GuardItem>,
    pub stobjs: Items<SymId>,
}

pub fn nothing(alloc: Global, _heap: &Heap) -> Declared
    ensures is { seen_declared _heap.now result ≡ nothing_declared }
    ensures reach { declared_reach result ≡ 0 }
{
    Declared {
        guards: Items::new(alloc),
        stobjs: Items::new(alloc),
    }
}

/// One thing more that the guard asks.
#[tactic(auto, using(crate::proofs::SaidLemmas::asked, crate::proofs::SaidLemmas::reach_asked))]
pub fn ask(_heap: &Heap, said: &mut Declared, item: GuardItem) -> Result<(), AllocError>
    ensures is { OnOk result (seen_declared _heap.now said.new ≡ both_declared (seen_declared _heap.now said.old) (asks (seen_item _heap.now item))) }
    ensures reach { OnOk result (declared_reach said.new ≡ max (declared_reach said.old) (item_reach item)) }
{
    said.guards.push(item)?;
    Ok(())
}

/// More formals that are stobjs.
#[tactic(auto, using(crate::proofs::SaidLemmas::named, crate::proofs::SaidLemmas::reach_named))]
pub fn name_stobjs(_heap: &Heap, said: &mut Declared, names: Items<SymId>) -> Result<(), AllocError>
    ensures is { OnOk result (seen_declared _heap.now said.new ≡ both_declared (seen_declared _heap.now said.old) (names_stobjs (numbers names))) }
    ensures reach { OnOk result (declared_reach said.new ≡ declared_reach said.old) }
{
    said.stobjs.append(names)?;
    Ok(())
}
