//! The parts of forms.

ghost use Rattle.std.specs.Prelude.{◌≡◌, ◌<◌, length, IfOk, IfSome, Some, None, true, if◌then◌else◌};
ghost use Rattle.std.specs.Option.{option_map};
ghost use Rattle.model_symbols.specs.Symbols.{QualifiedName, symbol_at, same_name};
ghost use Rattle.model_symbols.specs.Opening.{nil_name};
ghost use Rattle.model_output_so_far.specs.Commands as commands;
ghost use Rattle.acl_heap.specs.Objects.{object_of, Lies, IsText};
ghost use Rattle.acl_forms.specs.Forms.{form_at, IsWhole, forms_at, AreWhole};
ghost use Rattle.acl_commands.specs.Views.{bytes_in};

use acl_base::{SymId, Word};
use acl_heap::{Heap, Seen};
use acl_syms::Symbols;
use std::alloc::{AllocError, Global};

/// The name of a symbol's package.
#[tactic(auto, using(crate::proofs::PartLemmas::home_called))]
pub fn home(syms: &Symbols, s: SymId) -> &[u8]
    requires { s.0 < length syms.now.symbols }
    ensures { result.now ≡ (symbol_at syms.now.symbols s.0).home }
{
    syms.package_name(syms.package(s))
}

/// Whether a symbol is that of this name, of the package of this name.
pub fn is_named(syms: &Symbols, s: SymId, home_name: &[u8], name: &[u8]) -> bool
    requires { s.0 < length syms.now.symbols }
    ensures { result ≡ same_name (symbol_at syms.now.symbols s.0) (record { home = home_name.now; name = name.now }) }
{
    home(syms, s) == home_name && syms.name(s) == name
}

/// Whether a symbol is `NIL`.
pub fn is_nil(syms: &Symbols, s: SymId) -> bool
    requires { s.0 < length syms.now.symbols }
    ensures { result ≡ same_name (symbol_at syms.now.symbols s.0) nil_name }
{
    is_named(syms, s, b"COMMON-LISP", b"NIL")
}

/// The symbol that a form is.
pub fn symbol_of(form: Word, heap: &Heap, _syms: &Symbols) -> Option<SymId>
    requires { IsWhole _syms.now heap.now form }
    ensures is { option_map (λ s. symbol_at _syms.now.symbols s.0) result ≡ commands.symbol_of (form_at _syms.now heap.now form) }
    ensures known { IfSome result (λ s. s.0 < length _syms.now.symbols) }
{
    match heap.look(form) {
        Seen::Symbol(s) => Some(s),
        Seen::Integer(_) => None,
        Seen::Text(_) => None,
        Seen::Pair(_, _) => None,
    }
}

/// The integer that a form is.
pub fn integer_of(form: Word, heap: &Heap, _syms: &Symbols) -> Option<i128>
    requires { IsWhole _syms.now heap.now form }
    ensures { result ≡ commands.integer_of (form_at _syms.now heap.now form) }
{
    match heap.look(form) {
        Seen::Integer(n) => Some(n),
        Seen::Symbol(_) => None,
        Seen::Text(_) => None,
        Seen::Pair(_, _) => None,
    }
}

/// Whether a form is a string.
pub fn is_string(form: Word, heap: &Heap, _syms: &Symbols) -> bool
    requires { IsWhole _syms.now heap.now form }
    ensures is { commands.string_of (form_at _syms.now heap.now form) ≡ (if result then Some (bytes_in (object_of heap.now form)) else None) }
    ensures text { result ≡ true → IsText (object_of heap.now form) }
{
    match heap.look(form) {
        Seen::Text(_) => true,
        Seen::Integer(_) => false,
        Seen::Symbol(_) => false,
        Seen::Pair(_, _) => false,
    }
}

/// Whether a form is the symbol of this name, of the package of this name.
pub fn is_symbol(form: Word, home_name: &[u8], name: &[u8], heap: &Heap, syms: &Symbols) -> bool
    requires { IsWhole syms.now heap.now form }
    ensures { result ≡ commands.is_symbol (record { home = home_name.now; name = name.now }) (form_at syms.now heap.now form) }
{
    match heap.look(form) {
        Seen::Symbol(s) => is_named(syms, s, home_name, name),
        Seen::Integer(_) => false,
        Seen::Text(_) => false,
        Seen::Pair(_, _) => false,
    }
}

/// The elements of a list that ends in `NIL`.
pub fn elements(
    alloc: Global,
    list: Word,
    heap: &Heap,
    syms: &Symbols,
) -> Result<Option<Vec<Word>>, AllocError>
    requires { IsWhole syms.now heap.now list }
    ensures is { IfOk result (λ found. option_map (λ ws. forms_at syms.now heap.now ws.items) found ≡ commands.elements (form_at syms.now heap.now list)) }
    ensures whole { IfOk result (λ found. IfSome found (λ ws. AreWhole syms.now heap.now ws.items)) }
{
    let mut words = Vec::new(alloc);
    let mut rest = list;
    while let Seen::Pair(first, next) = heap.look(rest) {
        words.push(first)?;
        rest = next;
    }
    if is_symbol(rest, b"COMMON-LISP", b"NIL", heap, syms) {
        Ok(Some(words))
    } else {
        Ok(None)
    }
}
