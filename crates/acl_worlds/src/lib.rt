//! Worlds: the definitions that stand, and the layouts of objects. Contracts see a world as both lists, and in a heap as
//! the definitions' world.
#![tactic(auto)]

ghost use Rattle.std.specs.Prelude.{◌≡◌, ℕ, ◌≤◌, ◌<◌, length, map, Some, None, slice_get, option_map, IfOk, OnOk, OnErr, IfSome};
ghost use Rattle.std.specs.Option.{option_copied};
ghost use Rattle.model_terms.specs.Worlds as worlds;
ghost use Rattle.acl_terms.specs.Definitions.{name_in, FitsTable, seen_definition};
ghost use Rattle.acl_worlds.specs.Contents.{seen_world, number_of, names_in, IsWorld, with_definition, with_layout, settled, cut};
ghost use Rattle.acl_worlds.specs.Fields.{fields_of};
ghost use Rattle.acl_worlds.specs.Laws.{AreWorlds};

mod changes;
#[cfg(test)]
mod tests;

use acl_base::{FnId, Layout, LayoutId, SymId};
use acl_heap::Heap;
use acl_terms::Definition;
use indexmap::IndexSet;
use std::alloc::{AllocError, Global};
use std::marker::Model;

/// A place to cut a world back to: how many definitions and layouts it had.
#[derive(Clone, Copy, Debug)]
pub struct WorldMark {
    pub definitions: u64,
    pub layouts: u64,
}

/// Definitions by their numbers, no two with one name, and layouts by theirs. The table holds the names in the order of the
/// definitions.
#[derive(Drop)]
pub struct World {
    definitions: Vec<Definition>,
    names: IndexSet<u32>,
    layouts: Vec<Layout>,
}

impl Model for World {
    ghost use Rattle.acl_worlds.specs.Contents.{Content};

    ghost Value = { Content };

    ghost use Rattle.acl_terms.specs.contracts.form.Core as core_form;
    ghost use Rattle.std.specs.Coded.{codes};

    ghost coded = { Prim.hlevel (codes, core_form.the_row.coded) };

    ghost use Rattle.acl_worlds.specs.Fields.{content_of, AreFields};

    ghost view = { λ w. content_of w.definitions.items w.layouts.items };

    ghost invariant = { λ w. AreFields w.definitions.items w.layouts.items w.names.keys };
}

impl World {
    /// What holds of every world. It does nothing when it runs.
    pub fn is_world(&self)
        ensures { IsWorld self.now }
    {
        let _ = &self.layouts;
    }

    /// The number of the definition of this name, found by one look-up.
    pub fn find(&self, name: SymId) -> Option<FnId>
        ensures found { option_map (λ f. f.0) result ≡ number_of self.now name.0 }
        ensures within { IfSome result (λ f. f.0 < length self.now.definitions) }
    {
        match self.names.get_index_of(&name.0) {
            Some(at) => Some(FnId(at as u64)),
            None => None,
        }
    }

    /// The definition of this number.
    pub fn at(&self, f: FnId) -> &Definition
        requires { f.0 < length self.now.definitions }
        ensures { slice_get self.now.definitions f.0 ≡ Some result.now }
    {
        &self.definitions[f.0 as usize]
    }

    /// The definition of a name, found by one look-up, as the world that stands in a heap has it.
    #[tactic(auto, using(crate::proofs::WorldLemmas::definition_at))]
    pub fn look(&self, name: SymId, _heap: &Heap) -> Option<&Definition>
        ensures found { option_map (seen_definition _heap.now) (option_copied result) ≡ worlds.definition (seen_world _heap.now self.now) name.0 }
    {
        match self.find(name) {
            Some(f) => Some(self.at(f)),
            None => None,
        }
    }

    /// The layouts, in the order of their numbers.
    pub fn layouts(&self) -> &[Layout]
        ensures { map fields_of result.now ≡ self.now.layouts }
    {
        self.layouts.as_slice()
    }

    /// The place to which the world has grown.
    pub fn mark(&self) -> WorldMark
        ensures definitions { result.definitions ≡ length self.now.definitions }
        ensures layouts { result.layouts ≡ length self.now.layouts }
    {
        WorldMark {
            definitions: self.definitions.len() as u64,
            layouts: self.layouts.len() as u64,
        }
    }
}

/// In every heap a world is one of the definitions, whose names are found by number and which stays as the heap grows.
#[tactic(auto, using(crate::proofs::LawLemmas::are_worlds))]
pub fn worlds_are_seen()
    ensures { AreWorlds }
{}
