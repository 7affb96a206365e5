//! How a world grows, and how it is cut back.

ghost use Rattle.std.specs.Prelude.{◌≡◌, ℕ, ◌≤◌, ◌<◌, [], ◌∷◌, ◌++◌, length, map, Some, None, slice_get, slice_set, position, nat_eq, IfOk, OnOk, OnErr};
ghost use Rattle.acl_terms.specs.Definitions.{name_in, FitsTable};
ghost use Rattle.acl_worlds.specs.Contents.{number_of, names_in, with_definition, with_layout, settled, cut, no_world, primitives_world, ArePrimitives};
ghost use Rattle.acl_worlds.specs.Fields.{fields_of};

use crate::{World, WorldMark};
use acl_base::{FnId, Layout, LayoutId, SymId};
use acl_terms::Definition;
use indexmap::IndexSet;
use std::alloc::{AllocError, Global};

/// Puts a name that is not there last.
fn enlist(names: &mut IndexSet<u32>, name: u32) -> Result<(), AllocError>
    requires { position (nat_eq name) names.old.keys ≡ None }
    ensures ok { OnOk result (names.new.keys ≡ names.old.keys ++ name ∷ []) }
    ensures err { OnErr result (names.new.keys ≡ names.old.keys) }
{
    names.insert_full(name)?;
    Ok(())
}

/// Puts another item at a place.
fn replace<T: Drop>(items: &mut Vec<T>, at: usize, item: T)
    requires { at < length items.old.items }
    ensures { items.new.items ≡ slice_set items.old.items at item }
{
    items[at] = item;
}

impl World {
    /// A world without definitions. It takes no memory.
    fn empty(alloc: Global) -> World
        ensures { result ≡ no_world }
    {
        World {
            definitions: Vec::new(alloc),
            names: IndexSet::new(alloc),
            layouts: Vec::new(alloc),
        }
    }

    /// The world of the primitives: each with its name and how many arguments it takes, in the order of their table.
    pub fn new(alloc: Global, prims: &[(SymId, u8)]) -> Result<World, AllocError>
        requires { ArePrimitives prims.now }
        ensures { IfOk result (λ w. w ≡ primitives_world prims.now) }
    {
        let mut world = World::empty(alloc);
        for (row, prim) in prims.iter().enumerate() {
            world.add(Definition::Primitive {
                name: prim.0,
                row: row as u8,
                arity: prim.1,
            })?;
        }
        Ok(world)
    }

    /// Puts a definition with a new name last, and answers its number. A refused definition leaves the world as it was.
    pub fn add(&mut self, d: Definition) -> Result<FnId, AllocError>
        requires fresh { number_of self.old (name_in d) ≡ None }
        requires fits { FitsTable d }
        ensures number { IfOk result (λ f. f.0 ≡ length self.old.definitions) }
        ensures ok { OnOk result (self.new ≡ with_definition self.old d) }
        ensures err { OnErr result (self.new ≡ self.old) }
    {
        let name = d.name();
        let at = self.definitions.len();
        self.definitions.push(d)?;
        match enlist(&mut self.names, name.0) {
            Ok(()) => Ok(FnId(at as u64)),
            Err(refused) => {
                self.definitions.truncate(at);
                Err(refused)
            }
        }
    }

    /// Puts a layout last, and answers its number. A refused layout leaves the world as it was.
    pub fn add_layout(&mut self, layout: Layout) -> Result<LayoutId, AllocError>
        ensures number { IfOk result (λ l. l.0 ≡ length self.old.layouts) }
        ensures ok { OnOk result (self.new ≡ with_layout self.old (fields_of layout)) }
        ensures err { OnErr result (self.new ≡ self.old) }
    {
        let at = self.layouts.len();
        self.layouts.push(layout)?;
        Ok(LayoutId(at as u64))
    }

    /// Replaces the definition of a number by one of the same name. It takes no memory.
    pub fn settle(&mut self, f: FnId, d: Definition)
        requires name { slice_get (names_in self.old.definitions) f.0 ≡ Some (name_in d) }
        requires fits { FitsTable d }
        ensures { self.new ≡ settled self.old f.0 d }
    {
        replace(&mut self.definitions, f.0 as usize, d);
    }

    /// Takes out all definitions and layouts that were added since the mark. It takes no memory.
    pub fn cut_to(&mut self, mark: WorldMark)
        requires definitions { mark.definitions ≤ length self.old.definitions }
        requires layouts { mark.layouts ≤ length self.old.layouts }
        ensures { self.new ≡ cut self.old mark.definitions mark.layouts }
    {
        self.definitions.truncate(mark.definitions as usize);
        self.names.truncate(mark.definitions as usize);
        self.layouts.truncate(mark.layouts as usize);
    }
}
