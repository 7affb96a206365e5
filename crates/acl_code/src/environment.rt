//! Names with the slots of their variables.

ghost use Rattle.std.specs.Prelude.{◌≡◌, ◌≤◌, ◌<◌, ◌^◌, [], ◌∷◌, ◌++◌, ◌+◌, length, take, IfOk, OnOk, OnErr};
ghost use Rattle.model_slots.specs.Environments.{slot_in, all_bound, ordinary_bound};
ghost use Rattle.acl_terms.specs.Forms.{numbers};
ghost use Rattle.acl_worlds.specs.Contents.{seen_world};
ghost use Rattle.acl_code.specs.Environments.{seen_environment};

use acl_base::SymId;
use acl_heap::Heap;
use acl_names::Names;
use acl_outputs::is_stobj_name;
use acl_worlds::World;
use std::alloc::{AllocError, Global};
use std::marker::Model;

/// A name with the slot of its variable.
#[derive(Clone, Copy, Debug)]
pub struct Binding {
    pub name: SymId,
    pub slot: u64,
}

/// Names with slots, the innermost last. Of a name that stands twice the last counts.
#[derive(Drop)]
pub struct Environment {
    bindings: Vec<Binding>,
    /// The names of the bindings, in their order.
    names: Names,
}

impl Model for Environment {
    ghost use Rattle.std.specs.Prelude.{◌≡◌, List};
    ghost use Rattle.acl_code.specs.declared.environment.Binding.{Binding};
    ghost use Rattle.acl_code.specs.Environments.{binding_names};

    ghost Value = { List Binding };

    ghost view = { λ e. e.bindings.items };

    ghost invariant = { λ e. e.names ≡ binding_names e.bindings.items };
}

impl Environment {
    /// An environment without names. It takes no memory.
    pub fn new(alloc: Global) -> Environment
        ensures { result ≡ [] }
    {
        Environment {
            bindings: Vec::new(alloc),
            names: Names::new(alloc),
        }
    }

    /// How many bindings there are.
    pub fn len(&self) -> usize
        ensures { result ≡ length self.now }
    {
        self.bindings.len()
    }

    /// Puts a binding innermost. A refused one leaves the environment as it was.
    #[tactic(auto, using(crate::proofs::EnvironmentLemmas::names_push, crate::proofs::EnvironmentLemmas::take_push))]
    pub fn push(&mut self, binding: Binding) -> Result<(), AllocError>
        ensures ok { OnOk result (self.new ≡ self.old ++ binding ∷ []) }
        ensures err { OnErr result (self.new ≡ self.old) }
    {
        let at = self.bindings.len();
        self.bindings.push(binding)?;
        match self.names.push(binding.name.0) {
            Ok(()) => Ok(()),
            Err(e) => {
                self.bindings.truncate(at);
                Err(e)
            }
        }
    }

    /// Leaves the outermost bindings alone, this many. It takes no memory.
    #[tactic(auto, using(crate::proofs::EnvironmentLemmas::names_take))]
    pub fn cut(&mut self, to: usize)
        ensures { self.new ≡ take to self.old }
    {
        self.names.cut(to);
        self.bindings.truncate(to);
    }

    /// The slot of a name, by one look-up.
    #[tactic(auto, using(crate::proofs::EnvironmentLemmas::found_there, crate::proofs::EnvironmentLemmas::found_nowhere, crate::proofs::EnvironmentLemmas::found_within))]
    pub fn find(&self, name: SymId) -> Option<u64>
        ensures { result ≡ slot_in (seen_environment self.now) name.0 }
    {
        match self.names.find(name.0) {
            Some(at) => Some(self.bindings[at].slot),
            None => None,
        }
    }
}

#[tactic(auto, using(crate::proofs::EnvironmentLemmas::seen_push, crate::proofs::EnvironmentLemmas::take_push, crate::proofs::EnvironmentLemmas::take_all))]
fn put(environment: &mut Environment, name: SymId, slot: u64) -> Result<(), AllocError>
    ensures binds { OnOk result (seen_environment environment.new ≡ (name.0, slot) ∷ seen_environment environment.old) }
    ensures longer { length environment.old ≤ length environment.new }
    ensures start { take (length environment.old) environment.new ≡ environment.old }
{
    environment.push(Binding { name, slot })?;
    Ok(())
}

#[tactic(auto, using(crate::proofs::EnvironmentLemmas::take_all))]
fn put_ordinary(
    environment: &mut Environment,
    world: &World,
    heap: &Heap,
    name: SymId,
    slot: u64,
) -> Result<(), AllocError>
    ensures binds { OnOk result (seen_environment environment.new ≡ ordinary_bound (seen_world heap.now world.now) slot (name.0 ∷ []) (seen_environment environment.old)) }
    ensures longer { length environment.old ≤ length environment.new }
    ensures start { take (length environment.old) environment.new ≡ environment.old }
{
    if is_stobj_name(world, heap, name) {
        Ok(())
    } else {
        put(environment, name, slot)?;
        Ok(())
    }
}

/// The slot behind this many from a slot.
pub fn slot_behind(at: u64, count: usize) -> u64
    requires { at + count < 2 ^ 64 }
    ensures { result ≡ at + count }
{
    at + count as u64
}

/// Binds each name innermost, in a slot of its own from `at` on, the first name the innermost of them. Answers the slot
/// behind them.
pub fn bind_all(environment: &mut Environment, names: &[SymId], at: u64) -> Result<u64, AllocError>
    requires { at + length names.now < 2 ^ 64 }
    ensures slot { IfOk result (λ s. s ≡ at + length names.now) }
    ensures binds { OnOk result (seen_environment environment.new ≡ all_bound at (numbers names.now) (seen_environment environment.old)) }
    ensures longer { length environment.old ≤ length environment.new }
    ensures start { take (length environment.old) environment.new ≡ environment.old }
{
    let behind = slot_behind(at, names.len());
    let mut left = names.len();
    while left > 0 {
        left -= 1;
        put(environment, names[left], at + left as u64)?;
    }
    Ok(behind)
}

/// Binds the names that are no stobj's, each in its slot from `at` on, as `bind_all` does. The value of a stobj has a slot
/// all the same. Answers the slot behind them.
pub fn bind_ordinary(
    environment: &mut Environment,
    world: &World,
    heap: &Heap,
    names: &[SymId],
    at: u64,
) -> Result<u64, AllocError>
    requires { at + length names.now < 2 ^ 64 }
    ensures slot { IfOk result (λ s. s ≡ at + length names.now) }
    ensures binds { OnOk result (seen_environment environment.new ≡ ordinary_bound (seen_world heap.now world.now) at (numbers names.now) (seen_environment environment.old)) }
    ensures longer { length environment.old ≤ length environment.new }
    ensures start { take (length environment.old) environment.new ≡ environment.old }
{
    let behind = slot_behind(at, names.len());
    let mut left = names.len();
    while left > 0 {
        left -= 1;
        put_ordinary(environment, world, heap, names[left], at + left as u64)?;
    }
    Ok(behind)
}
