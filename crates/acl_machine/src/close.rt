//! A stop closes one form a turn.

ghost use Rattle.std.specs.Prelude.{◌≡◌, ◌≢◌, [], true, false, OnOk};
ghost use Rattle.acl_machine.specs.declared.frame.Control.TheVariants as control;
ghost use Rattle.acl_machine.specs.Turns.{Turns, IsOver, IsLate};
ghost use Rattle.acl_machine.specs.Steps.{HasPlain, IsSound};
ghost use Rattle.acl_machine.specs.Views.{around};

use crate::frame::Halt;
use crate::machine::Machine;
use acl_code::Terms;
use acl_heap::Heap;
use acl_keep::Keeper;
use acl_syms::Symbols;
use acl_worlds::World;
use std::alloc::AllocError;

impl Machine {
    /// A stop closes a form that has nothing on the stacks of names and loans.
    pub fn close_plain<K: Keeper>(
        &mut self,
        _keeper: &K,
        _world: &World,
        _terms: &Terms,
        _heap: &Heap,
        _syms: &Symbols,
        _limit: u64,
        _why: Halt,
    ) -> Result<(), AllocError>
        requires stopped { self.old.control ≡ control.Stopped _why }
        requires plain { HasPlain self.old.frames }
        requires sound { IsSound _syms.now _heap.now self.old }
        ensures turns { OnOk result (Turns K.keeping (around _heap.now _world.now _terms.now _syms.now _limit) (around _heap.now _world.now _terms.now _syms.now _limit) self.old self.new) }
        ensures sound { OnOk result (IsSound _syms.now _heap.now self.new) }
    {
        match self.room.checked_add(1) {
            Some(room) => {
                let _ = self.frames.pop();
                self.room = room;
                Ok(())
            }
            None => Err(AllocError),
        }
    }

    /// Whether the machine is over: no form is open. What it gives, or why it stopped, is what it holds.
    pub fn is_over<K: Keeper>(
        &self,
        _keeper: &K,
        _world: &World,
        _terms: &Terms,
        _heap: &Heap,
        _syms: &Symbols,
        _limit: u64,
    ) -> bool
        requires { IsLate self.now.control }
        ensures over { result ≡ true → IsOver K.keeping (around _heap.now _world.now _terms.now _syms.now _limit) self.now }
        ensures open { result ≡ false → self.now.frames ≢ [] }
    {
        self.frames.is_empty()
    }
}
