//! The definition of an object.

ghost use Rattle.std.specs.Prelude.{◌≡◌, ◌<◌, length, IfOk, IfSome, Some, None};
ghost use Rattle.std.specs.Option.{option_map};
ghost use Rattle.model_symbols.specs.Symbols.{symbol_at};
ghost use Rattle.model_output_so_far.specs.Commands as commands;
ghost use Rattle.acl_forms.specs.Forms.{form_at, IsWhole, forms_at, AreWhole};
ghost use Rattle.acl_commands.specs.Views.{field_view, field_views, field_list, command_view};
ghost use Rattle.acl_commands.specs.Whole.{IsWholeCommand, AreKnownFields};

use crate::Command;
use crate::parts::{elements, integer_of, is_symbol, symbol_of};
use acl_base::{SymId, Word};
use acl_heap::Heap;
use acl_syms::Symbols;
use std::alloc::{AllocError, Global};

/// A field of a new object: its name, and its first value.
#[derive(Clone, Copy, Debug)]
pub struct NewField {
    pub name: SymId,
    pub initial: i128,
}

fn new_field(name: Option<SymId>, initial: Option<i128>, _syms: &Symbols) -> Option<NewField>
    requires { IfSome name (λ s. s.0 < length _syms.now.symbols) }
    ensures is { option_map (field_view _syms.now) result ≡ commands.new_field (option_map (λ s. symbol_at _syms.now.symbols s.0) name) initial }
    ensures known { IfSome result (λ f. f.name.0 < length _syms.now.symbols) }
{
    match (name, initial) {
        (Some(name), Some(initial)) => Some(NewField { name, initial }),
        _ => None,
    }
}

// `F :type integer :initially N`
fn field_in(parts: &[Word], heap: &Heap, syms: &Symbols) -> Option<NewField>
    requires { AreWhole syms.now heap.now parts.now }
    ensures is { option_map (field_view syms.now) result ≡ commands.field_in (forms_at syms.now heap.now parts.now) }
    ensures known { IfSome result (λ f. f.name.0 < length syms.now.symbols) }
{
    match parts {
        [name, key, kind, other, initial] => {
            let field = new_field(
                symbol_of(*name, heap, syms),
                integer_of(*initial, heap, syms),
                syms,
            );
            let is_type = is_symbol(*key, b"KEYWORD", b"TYPE", heap, syms);
            let is_integer = is_symbol(*kind, b"COMMON-LISP", b"INTEGER", heap, syms);
            let is_initially = is_symbol(*other, b"KEYWORD", b"INITIALLY", heap, syms);
            if is_type & (is_integer & is_initially) {
                field
            } else {
                None
            }
        }
        _ => None,
    }
}

fn field_of(
    alloc: Global,
    form: Word,
    heap: &Heap,
    syms: &Symbols,
) -> Result<Option<NewField>, AllocError>
    requires { IsWhole syms.now heap.now form }
    ensures is { IfOk result (λ found. option_map (field_view syms.now) found ≡ commands.field_of (form_at syms.now heap.now form)) }
    ensures known { IfOk result (λ found. IfSome found (λ f. f.name.0 < length syms.now.symbols)) }
{
    match elements(alloc, form, heap, syms)? {
        Some(parts) => Ok(field_in(parts.as_slice(), heap, syms)),
        None => Ok(None),
    }
}

fn fields_of(
    alloc: Global,
    forms: &[Word],
    heap: &Heap,
    syms: &Symbols,
) -> Result<Option<Vec<NewField>>, AllocError>
    requires { AreWhole syms.now heap.now forms.now }
    ensures is { IfOk result (λ found. option_map (field_list syms.now) found ≡ commands.fields_of (forms_at syms.now heap.now forms.now)) }
    ensures known { IfOk result (λ found. IfSome found (λ fs. AreKnownFields syms.now fs.items)) }
{
    let mut fields = Vec::new(alloc);
    for form in forms {
        match field_of(alloc, *form, heap, syms)? {
            Some(field) => fields.push(field)?,
            None => return Ok(None),
        }
    }
    Ok(Some(fields))
}

/// The definition whose parts behind the head these are.
pub fn definition(
    alloc: Global,
    parts: &[Word],
    heap: &Heap,
    syms: &Symbols,
) -> Result<Command, AllocError>
    requires { AreWhole syms.now heap.now parts.now }
    ensures is { IfOk result (λ c. command_view syms.now heap.now c ≡ commands.definition (forms_at syms.now heap.now parts.now)) }
    ensures whole { IfOk result (IsWholeCommand syms.now heap.now) }
{
    let Some((first, rest)) = parts.split_first() else {
        return Ok(Command::Other);
    };
    let Some(name) = symbol_of(*first, heap, syms) else {
        return Ok(Command::Other);
    };
    let Some(fields) = fields_of(alloc, rest, heap, syms)? else {
        return Ok(Command::Other);
    };
    if fields.is_empty() {
        Ok(Command::Other)
    } else {
        Ok(Command::Define(name, fields))
    }
}
