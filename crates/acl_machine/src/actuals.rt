//! The actuals of a call, in the window where they lie.

ghost use Rattle.std.specs.Prelude.{◌≡◌, ◌++◌, ◌∷◌, List, [], length, map, drop, unwrap_or, IfOk, OnOk};
ghost use Rattle.acl_machine.specs.Cells.{cells_from, WritesAll};
ghost use Rattle.acl_machine.specs.Actuals.{names_of, with_names, under_formal, under_formals, name_at, outer_name, outer_shown, taking, taking_outer, naming, exchanged};
ghost use Rattle.acl_machine.specs.Steps.{holding};

use crate::machine::Machine;
use crate::values::{Names, Values};
use acl_base::SymId;
use acl_terms::Shown;
use std::alloc::AllocError;
use std::mem::swap;

/// An object under the next of some names, of which so many are used; any other value as it is.
#[tactic(auto, using(crate::proofs::ActualLemmas::named_value, crate::proofs::ActualLemmas::named_next, crate::proofs::ActualLemmas::named_past))]
fn next_named(value: Shown, names: &[SymId], used: &mut usize) -> Shown
    ensures { (vs : List Shown) → with_names (value ∷ vs) (drop used.old names.now) ≡ result ∷ with_names vs (drop used.new names.now) }
{
    match value {
        Shown::Value(word) => Shown::Value(word),
        Shown::Object(name) => {
            if *used < names.len() {
                let next = names[*used];
                *used += 1;
                Shown::Object(next)
            } else {
                Shown::Object(name)
            }
        }
    }
}

/// So many values from a number on, the objects among them under names from this place on.
#[tactic(auto, using(crate::proofs::ActualLemmas::copied_start, crate::proofs::ActualLemmas::copied_end))]
fn copy_named(
    room: &mut Values,
    values: &Values,
    base: u64,
    count: u64,
    names: &[SymId],
    first: usize,
) -> Result<(), AllocError>
    ensures { OnOk result (room.new ≡ with_names (cells_from values.now base count) (drop first names.now)) }
{
    room.clear();
    let mut used = first;
    for k in 0..count {
        match base.checked_add(k) {
            Some(at) => {
                let value = next_named(values.get(at), names, &mut used);
                room.push(value)?;
            }
            None => return Err(AllocError),
        }
    }
    Ok(())
}

/// An actual as the callee has it.
fn as_formal(formal: SymId, actual: Shown) -> Shown
    ensures { result ≡ under_formal formal actual }
{
    match actual {
        Shown::Value(word) => Shown::Value(word),
        Shown::Object(_) => Shown::Object(formal),
    }
}

/// Writes the actuals as the callee has them, from a number on.
#[tactic(auto, using(crate::proofs::ActualLemmas::under_none, crate::proofs::ActualLemmas::under_one, crate::proofs::MemoryLemmas::writes_ended))]
fn write_formals(
    values: &mut Values,
    base: u64,
    formals: &[SymId],
    actuals: &[Shown],
) -> Result<(), AllocError>
    ensures { OnOk result (WritesAll base (under_formals formals.now actuals.now) values.old values.new) }
{
    let mut k = formals.len().min(actuals.len());
    while k > 0 {
        k -= 1;
        match base.checked_add(k as u64) {
            Some(at) => values.set(at, as_formal(formals[k], actuals[k]))?,
            None => return Err(AllocError),
        }
    }
    Ok(())
}

/// The name of a value that is an object.
fn push_name(names: &mut Names, value: Shown) -> Result<(), AllocError>
    ensures { OnOk result (names.new ≡ names.old ++ names_of (value ∷ [])) }
{
    match value {
        Shown::Value(_) => Ok(()),
        Shown::Object(name) => {
            names.push(name)?;
            Ok(())
        }
    }
}

/// The names of the objects among values, behind all others; how many there are.
#[tactic(auto, using(crate::proofs::ActualLemmas::names_step, crate::proofs::ActualLemmas::names_ended))]
fn push_names(names: &mut Names, values: &[Shown]) -> Result<(), AllocError>
    ensures { OnOk result (names.new ≡ names.old ++ names_of values.now) }
{
    for value in values {
        push_name(names, *value)?;
    }
    Ok(())
}

/// The name outside of the object at a formal, where that has this name.
#[tactic(auto, using(crate::proofs::ActualLemmas::outside_value, crate::proofs::ActualLemmas::outside_same, crate::proofs::ActualLemmas::outside_other))]
fn outside_at(formal: SymId, actual: Shown, name: SymId) -> Option<SymId>
    ensures { (later : SymId) → name_at formal actual name later ≡ unwrap_or result later }
{
    match actual {
        Shown::Value(_) => None,
        Shown::Object(outside) => {
            if name.0 == formal.0 {
                Some(outside)
            } else {
                None
            }
        }
    }
}

/// The name outside of an object that the callee has under this one.
#[tactic(auto, using(crate::proofs::ActualLemmas::outer_none))]
fn name_outside(formals: &[SymId], actuals: &[Shown], name: SymId) -> SymId
    ensures { result ≡ outer_name formals.now actuals.now name }
{
    let n = formals.len().min(actuals.len());
    for k in 0..n {
        match outside_at(formals[k], actuals[k], name) {
            Some(outside) => return outside,
            None => {}
        }
    }
    name
}

/// A result as the caller has it.
fn outside(formals: &[SymId], actuals: &[Shown], value: Shown) -> Shown
    ensures { result ≡ outer_shown formals.now actuals.now value }
{
    match value {
        Shown::Value(word) => Shown::Value(word),
        Shown::Object(name) => Shown::Object(name_outside(formals, actuals, name)),
    }
}

/// Results as the caller has them. It takes no memory.
#[tactic(auto, using(crate::proofs::ActualLemmas::changed_none, crate::proofs::ActualLemmas::changed_length))]
fn all_outside(values: &mut Values, formals: &[SymId], actuals: &[Shown])
    ensures { values.new ≡ map (outer_shown formals.now actuals.now) values.old }
{
    let mut k = values.len();
    while k > 0 {
        k -= 1;
        let value = values.get(k as u64);
        values.replace(k, outside(formals, actuals, value));
    }
}

impl Machine {
    /// The actuals of a call lie ready whose window begins at a number: so many, with so many objects among them.
    pub fn take_actuals(&mut self, base: u64, count: u64, names: u64) -> Result<(), AllocError>
        ensures { OnOk result (self.new ≡ taking base count names self.old) }
    {
        let all = self.names.as_slice();
        let first = all.len().saturating_sub(names as usize);
        copy_named(&mut self.actuals, &self.values, base, count, all, first)
    }

    /// The same for those of the export's call around it.
    pub fn take_outer_actuals(
        &mut self,
        base: u64,
        count: u64,
        names: u64,
    ) -> Result<(), AllocError>
        ensures { OnOk result (self.new ≡ taking_outer base count names self.old) }
    {
        let all = self.names.as_slice();
        let first = all.len().saturating_sub(names as usize);
        copy_named(
            &mut self.outer_actuals,
            &self.values,
            base,
            count,
            all,
            first,
        )
    }

    /// The actuals that lie ready are written as a callee has them, from a number on, and the names of the objects among them go
    /// behind all others; how many there are.
    pub fn rename_actuals(&mut self, base: u64, formals: &[SymId]) -> Result<u64, AllocError>
        ensures many { IfOk result (λ n. n ≡ length (names_of self.old.actuals)) }
        ensures writes { OnOk result (WritesAll base (under_formals formals.now self.old.actuals) self.old.values self.new.values) }
        ensures is { OnOk result (self.new ≡ naming self.new.values self.old) }
    {
        write_formals(&mut self.values, base, formals, self.actuals.as_slice())?;
        let before = self.names.as_slice().len();
        push_names(&mut self.names, self.actuals.as_slice())?;
        let after = self.names.as_slice().len();
        Ok((after - before) as u64)
    }

    /// The actuals that lie ready are what a stop is seen with. It takes no memory.
    pub fn hold_actuals(&mut self)
        ensures { self.new ≡ exchanged self.old }
    {
        swap(&mut self.given, &mut self.actuals);
    }

    /// The values given are results, which the caller of the call sees whose actuals lie ready. It takes no memory.
    pub fn give_outside(&mut self, formals: &[SymId])
        ensures { self.new ≡ holding (map (outer_shown formals.now self.old.actuals) self.old.given) self.old }
    {
        all_outside(&mut self.given, formals, self.actuals.as_slice());
    }
}
