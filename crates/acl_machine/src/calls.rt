//! Calls of functions, once all actuals have values.

ghost use Rattle.std.specs.Prelude.{◌≡◌, ◌≤◌, ◌<◌, [], ◌∷◌, Some, None, length, slice_get, OnOk};
ghost use Rattle.model_symbols.specs.Growth as growth;
ghost use Rattle.model_symbols.specs.Opening.{opening};
ghost use Rattle.model_prims.specs.Rows as rows;
ghost use Rattle.acl_forms.specs.Forms.{Grown};
ghost use Rattle.acl_terms.specs.declared.definition.Definition.TheVariants as definition;
ghost use Rattle.acl_worlds.specs.Contents.{WorldLies};
ghost use Rattle.acl_code.specs.Tables.{TermsLie};
ghost use Rattle.acl_machine.specs.Cells.{cells_from};
ghost use Rattle.acl_machine.specs.declared.frame.Control.TheVariants as control;
ghost use Rattle.acl_machine.specs.declared.frame.Step.TheVariants as step;
ghost use Rattle.acl_machine.specs.Turns.{Turns, IsFirst};
ghost use Rattle.acl_machine.specs.Steps.{MayNotCall, counted, stopped, giving, holding, replaced, IsSound};
ghost use Rattle.acl_machine.specs.Views.{around};

use crate::frame::{Frame, Halt, Step};
use crate::machine::Machine;
use crate::resume::slot_in;
use crate::words::words;
use acl_base::{FnId, SymId, Word};
use acl_code::Terms;
use acl_heap::Heap;
use acl_keep::Keeper;
use acl_prims::PrimStop;
use acl_syms::Symbols;
use acl_terms::Shown;
use acl_worlds::{World, worlds_are_seen};
use std::alloc::{AllocError, Global};

impl Machine {
    /// A call more is counted, of those that no export made.
    pub fn count(&mut self, _limit: u64) -> Result<(), AllocError>
        requires { self.old.calls < _limit }
        ensures { OnOk result (self.new ≡ counted self.old) }
    {
        match self.outer.checked_add(1) {
            Some(outer) => {
                self.calls += 1;
                self.outer = outer;
                Ok(())
            }
            None => Err(AllocError),
        }
    }

    /// No call is left: a call stops.
    pub fn call_too_many<K: Keeper>(
        &mut self,
        _keeper: &K,
        _world: &World,
        _terms: &Terms,
        _heap: &Heap,
        _syms: &Symbols,
        _limit: u64,
        frame: Frame,
        at: u64,
        _function: FnId,
        _count: u64,
    ) -> Result<(), AllocError>
        requires given { self.old.control ≡ control.Give }
        requires first { IsFirst frame self.old.frames }
        requires step { frame.step ≡ step.Calling at _function _count }
        requires none { _limit ≤ self.old.calls }
        requires sound { IsSound _syms.now _heap.now self.old }
        ensures turns { OnOk result (Turns K.keeping (around _heap.now _world.now _terms.now _syms.now _limit) (around _heap.now _world.now _terms.now _syms.now _limit) self.old self.new) }
        ensures sound { OnOk result (IsSound _syms.now _heap.now self.new) }
    {
        let base = slot_in(frame.base, at)?;
        self.frames.replace(Frame {
            step: Step::Last { inside: None },
            base,
        });
        self.stop(Halt::Steps)?;
        Ok(())
    }

    /// A call of what may not be called, which is counted and stops with the actuals.
    pub fn call_refused<K: Keeper>(
        &mut self,
        _keeper: &K,
        world: &World,
        _terms: &Terms,
        _heap: &Heap,
        _syms: &Symbols,
        limit: u64,
        frame: Frame,
        at: u64,
        function: FnId,
        count: u64,
    ) -> Result<(), AllocError>
        requires given { self.old.control ≡ control.Give }
        requires first { IsFirst frame self.old.frames }
        requires step { frame.step ≡ step.Calling at function count }
        requires left { self.old.calls < limit }
        requires within { function.0 < length world.now.definitions }
        requires refused { MayNotCall (slice_get world.now.definitions function.0) }
        requires sound { IsSound _syms.now _heap.now self.old }
        ensures turns { OnOk result (Turns K.keeping (around _heap.now world.now _terms.now _syms.now limit) (around _heap.now world.now _terms.now _syms.now limit) self.old self.new) }
        ensures sound { OnOk result (IsSound _syms.now _heap.now self.new) }
    {
        let name = world.at(function).name();
        let base = slot_in(frame.base, at)?;
        self.frames.replace(Frame {
            step: Step::Last { inside: None },
            base,
        });
        self.given.copy(&self.values, base, count)?;
        self.count(limit)?;
        self.stop(Halt::Guard(name))?;
        Ok(())
    }

    /// A call gave a value, and is counted.
    pub fn give_result(&mut self, base: u64, word: Word, limit: u64) -> Result<(), AllocError>
        requires { self.old.calls < limit }
        ensures { OnOk result (self.new ≡ giving (Shown.Value word ∷ []) (counted (replaced (step.Last None) base self.old))) }
    {
        self.frames.replace(Frame {
            step: Step::Last { inside: None },
            base,
        });
        self.count(limit)?;
        self.give_one(Shown::Value(word))?;
        Ok(())
    }

    /// A call stops with the actuals, and is counted.
    pub fn stop_call(
        &mut self,
        base: u64,
        count: u64,
        why: Halt,
        limit: u64,
    ) -> Result<(), AllocError>
        requires { self.old.calls < limit }
        ensures { OnOk result (self.new ≡ stopped why (counted (holding (cells_from self.old.values base count) (replaced (step.Last None) base self.old)))) }
    {
        self.frames.replace(Frame {
            step: Step::Last { inside: None },
            base,
        });
        self.given.copy(&self.values, base, count)?;
        self.count(limit)?;
        self.stop(why)?;
        Ok(())
    }

    /// A call of a primitive, which is counted: its value is given, or it stops.
    pub fn call_primitive<K: Keeper>(
        &mut self,
        alloc: Global,
        _keeper: &K,
        _world: &World,
        _terms: &Terms,
        heap: &mut Heap,
        syms: &mut Symbols,
        limit: u64,
        frame: Frame,
        at: u64,
        _function: FnId,
        count: u64,
        name: SymId,
        row: u8,
        _arity: u8,
    ) -> Result<(), AllocError>
        requires given { self.old.control ≡ control.Give }
        requires first { IsFirst frame self.old.frames }
        requires step { frame.step ≡ step.Calling at _function count }
        requires left { self.old.calls < limit }
        requires is { slice_get _world.now.definitions _function.0 ≡ Some (definition.Primitive name row _arity) }
        requires row { row < length rows.table }
        requires opening { growth.Extends opening syms.old }
        requires sound { IsSound syms.old heap.old self.old }
        requires terms { TermsLie heap.old _terms.now }
        requires world { WorldLies heap.old _world.now }
        ensures turns { OnOk result (Turns K.keeping (around heap.old _world.now _terms.now syms.old limit) (around heap.new _world.now _terms.now syms.new limit) self.old self.new) }
        ensures sound { OnOk result (IsSound syms.new heap.new self.new) }
        ensures grows { Grown syms.old syms.new heap.old heap.new }
        ensures packages { syms.new.packages ≡ syms.old.packages }
    {
        worlds_are_seen();
        let base = slot_in(frame.base, at)?;
        let args = words(alloc, &self.values, base, count, heap, syms)?;
        match acl_prims::apply(alloc, row, args.as_slice(), heap, syms) {
            Ok(word) => {
                self.give_result(base, word, limit)?;
                Ok(())
            }
            Err(PrimStop::Guard) => {
                self.stop_call(base, count, Halt::Guard(name), limit)?;
                Ok(())
            }
            Err(PrimStop::Range) => {
                self.stop_call(base, count, Halt::Range(name), limit)?;
                Ok(())
            }
            Err(PrimStop::TooLarge) => {
                self.stop_call(base, count, Halt::Large(name), limit)?;
                Ok(())
            }
            Err(PrimStop::SymbolLimit) => {
                self.stop_call(base, count, Halt::Symbols(name), limit)?;
                Ok(())
            }
            Err(PrimStop::Memory) => Err(AllocError),
        }
    }
}
