//! An object of integer fields.

ghost use Rattle.std.specs.Prelude.{◌≡◌, ◌<◌, length, IfSome, Some, None, position, option_map, nat_eq};
ghost use Rattle.model_symbols.specs.Symbols.{symbol_at, same_name};
ghost use Rattle.model_output_so_far.specs.Sessions as model;
ghost use Rattle.model_output_so_far.specs.Objects as objects;
ghost use Rattle.acl_answers.specs.Views.{name_of, fields_view, stobj_view, Uses, UsesOf};
ghost use Rattle.acl_answers.specs.Whole.{IsKnown, IsKnownStobj, AreKnownFields};

use acl_base::SymId;
use acl_syms::Symbols;

/// A field: the function that reads it, which has its name, and the one that updates it.
#[derive(Clone, Copy, Debug)]
pub struct Field {
    pub name: SymId,
    pub updater: SymId,
}

/// An object: its name, its fields, and their values.
#[derive(Debug, Drop)]
pub struct Stobj {
    pub name: SymId,
    pub fields: Vec<Field>,
    pub values: Vec<i128>,
}

/// What a function does with a field of an object, by the field's number.
#[derive(Clone, Copy, Debug)]
pub enum FieldUse {
    Reads(usize),
    Updates(usize),
}

/// The place of the field that the function of this number reads.
fn reader_place(fields: &[Field], f: SymId) -> Option<usize>
    ensures is { result ≡ position (λ field. nat_eq f.0 field.name.0) fields.now }
    ensures within { IfSome result (λ k. k < length fields.now) }
{
    fields.iter().position(|field| f.0 == field.name.0)
}

/// The place of the field that the function of this number updates.
fn updater_place(fields: &[Field], f: SymId) -> Option<usize>
    ensures is { result ≡ position (λ field. nat_eq f.0 field.updater.0) fields.now }
    ensures within { IfSome result (λ k. k < length fields.now) }
{
    fields.iter().position(|field| f.0 == field.updater.0)
}

/// The number of the field that a function of this name reads.

fn read_field(fields: &[Field], f: SymId, syms: &Symbols) -> Option<usize>
    requires f { IsKnown syms.now f }
    requires fields { AreKnownFields syms.now fields.now }
    ensures is { result ≡ position (λ (field : model.Field). same_name (name_of syms.now f) field.name) (fields_view syms.now fields.now) }
    ensures within { IfSome result (λ k. k < length fields.now) }
{
    syms.is_table();
    reader_place(fields, f)
}

/// The number of the field that a function of this name updates.

fn updated_field(fields: &[Field], f: SymId, syms: &Symbols) -> Option<usize>
    requires f { IsKnown syms.now f }
    requires fields { AreKnownFields syms.now fields.now }
    ensures is { result ≡ position (λ (field : model.Field). same_name (name_of syms.now f) field.updater) (fields_view syms.now fields.now) }
    ensures within { IfSome result (λ k. k < length fields.now) }
{
    syms.is_table();
    updater_place(fields, f)
}

impl Stobj {
    /// What a function of this name does with a field.
    pub fn field_use(&self, f: SymId, syms: &Symbols) -> Option<FieldUse>
        requires f { IsKnown syms.now f }
        requires object { IsKnownStobj syms.now self.now }
        ensures { Uses (stobj_view syms.now self.now) (name_of syms.now f) result }
    {
        if let Some(k) = read_field(self.fields.as_slice(), f, syms) {
            return Some(FieldUse::Reads(k));
        }
        match updated_field(self.fields.as_slice(), f, syms) {
            Some(k) => Some(FieldUse::Updates(k)),
            None => None,
        }
    }

    /// The value of the field of this number.
    pub fn value(&self, k: usize, _syms: &Symbols) -> i128
        requires { k < length self.now.values.items }
        ensures { result ≡ objects.value_at (stobj_view _syms.now self.now) k }
    {
        self.values[k]
    }

    /// Gives the field of this number another value.
    pub fn set_value(&mut self, k: usize, value: i128, _syms: &Symbols)
        requires { k < length self.old.values.items }
        ensures is { stobj_view _syms.now self.new ≡ objects.with_value (stobj_view _syms.now self.old) k value }
        ensures name { self.new.name ≡ self.old.name }
        ensures fields { self.new.fields ≡ self.old.fields }
    {
        self.values[k] = value;
    }
}
