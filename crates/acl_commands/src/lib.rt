//! The command that a form is.
#![tactic(auto)]

ghost use Rattle.std.specs.Prelude.{◌≡◌, ◌<◌, length, map, IfOk, IfSome, Some, None};
ghost use Rattle.std.specs.Option.{option_map, option_and_then};
ghost use Rattle.model_symbols.specs.Symbols.{symbol_at};
ghost use Rattle.model_output_so_far.specs.Commands as commands;
ghost use Rattle.acl_forms.specs.Forms.{form_at, IsWhole, forms_at, AreWhole};
ghost use Rattle.acl_commands.specs.Views.{field_list, command_view, actual_view, actual_views};
ghost use Rattle.acl_commands.specs.Whole.{IsWholeCommand, IsWholeActual, AreWholeActuals, AreKnownFields};

mod definitions;
mod parts;

use acl_base::{SymId, Word};
use acl_heap::{Heap, Seen};
use acl_syms::Symbols;
pub use definitions::NewField;
use definitions::definition;
pub use parts::{home, is_named};
use parts::{elements, is_nil, is_string, is_symbol, symbol_of};
use std::alloc::{AllocError, Global};

/// What stands as an actual of a call.
#[derive(Clone, Copy, Debug)]
pub enum Actual {
    /// An integer, a string, `T`, `NIL` or a keyword.
    Literal(Word),
    /// A quoted form.
    Quoted(Word),
    /// Any other symbol.
    Variable(SymId),
    /// Any other form.
    Nested,
}

/// What a form asks for.
#[derive(Debug, Drop)]
pub enum Command {
    /// An object of this name, with these fields, at least one.
    Define(SymId, Vec<NewField>),
    /// The package that this string names.
    Enter(Word),
    /// An event whose form has a wrong shape, by its head.
    Misshapen(SymId),
    /// A call of this function.
    Call(SymId, Vec<Actual>),
    /// Anything else.
    Other,
}

/// Whether a symbol stands for itself: `T`, `NIL` and the keywords do.
fn is_constant(syms: &Symbols, s: SymId) -> bool
    requires { s.0 < length syms.now.symbols }
    ensures { result ≡ commands.is_constant (symbol_at syms.now.symbols s.0) }
{
    home(syms, s) == b"KEYWORD".as_slice()
        || (is_named(syms, s, b"COMMON-LISP", b"T") || is_nil(syms, s))
}

/// What is quoted, by the list behind the quote.
fn quoted(list: Word, heap: &Heap, syms: &Symbols) -> Actual
    requires { IsWhole syms.now heap.now list }
    ensures is { actual_view syms.now heap.now result ≡ commands.quoted (option_and_then commands.only_one (commands.elements (form_at syms.now heap.now list))) }
    ensures whole { IsWholeActual syms.now heap.now result }
{
    match heap.look(list) {
        Seen::Pair(form, rest) => {
            if is_symbol(rest, b"COMMON-LISP", b"NIL", heap, syms) {
                Actual::Quoted(form)
            } else {
                Actual::Nested
            }
        }
        Seen::Integer(_) => Actual::Nested,
        Seen::Symbol(_) => Actual::Nested,
        Seen::Text(_) => Actual::Nested,
    }
}

fn actual_of(form: Word, heap: &Heap, syms: &Symbols) -> Actual
    requires { IsWhole syms.now heap.now form }
    ensures is { actual_view syms.now heap.now result ≡ commands.actual_of (form_at syms.now heap.now form) }
    ensures whole { IsWholeActual syms.now heap.now result }
{
    match heap.look(form) {
        Seen::Integer(_) => Actual::Literal(form),
        Seen::Text(_) => Actual::Literal(form),
        Seen::Symbol(s) => {
            if is_constant(syms, s) {
                Actual::Literal(form)
            } else {
                Actual::Variable(s)
            }
        }
        Seen::Pair(head, rest) => {
            if is_symbol(head, b"COMMON-LISP", b"QUOTE", heap, syms) {
                quoted(rest, heap, syms)
            } else {
                Actual::Nested
            }
        }
    }
}

fn actuals_of(
    alloc: Global,
    forms: &[Word],
    heap: &Heap,
    syms: &Symbols,
) -> Result<Vec<Actual>, AllocError>
    requires { AreWhole syms.now heap.now forms.now }
    ensures is { IfOk result (λ v. actual_views syms.now heap.now v.items ≡ map commands.actual_of (forms_at syms.now heap.now forms.now)) }
    ensures whole { IfOk result (λ v. AreWholeActuals syms.now heap.now v.items) }
{
    let mut actuals = Vec::new(alloc);
    for form in forms {
        actuals.push(actual_of(*form, heap, syms))?;
    }
    Ok(actuals)
}

/// The choice of a package, by the head and the parts behind it.
fn entry(head: SymId, parts: &[Word], heap: &Heap, syms: &Symbols) -> Command
    requires head { symbol_at syms.now.symbols head.0 ≡ commands.in_package_name }
    requires known { head.0 < length syms.now.symbols }
    requires parts { AreWhole syms.now heap.now parts.now }
    ensures is { command_view syms.now heap.now result ≡ commands.entry (forms_at syms.now heap.now parts.now) }
    ensures whole { IsWholeCommand syms.now heap.now result }
{
    match parts {
        [name] => {
            if is_string(*name, heap, syms) {
                Command::Enter(*name)
            } else {
                Command::Misshapen(head)
            }
        }
        _ => Command::Misshapen(head),
    }
}

/// The command of a list, by its head and the parts behind it.
fn event_or_call(
    alloc: Global,
    head: SymId,
    parts: &[Word],
    heap: &Heap,
    syms: &Symbols,
) -> Result<Command, AllocError>
    requires known { head.0 < length syms.now.symbols }
    requires parts { AreWhole syms.now heap.now parts.now }
    ensures is { IfOk result (λ c. command_view syms.now heap.now c ≡ commands.event_or_call (symbol_at syms.now.symbols head.0) (forms_at syms.now heap.now parts.now)) }
    ensures whole { IfOk result (IsWholeCommand syms.now heap.now) }
{
    if is_named(syms, head, b"COMMON-LISP", b"IN-PACKAGE") {
        return Ok(entry(head, parts, heap, syms));
    }
    if is_named(syms, head, b"ACL2", b"DEFSTOBJ") {
        let command = definition(alloc, parts, heap, syms)?;
        return Ok(command);
    }
    let actuals = actuals_of(alloc, parts, heap, syms)?;
    Ok(Command::Call(head, actuals))
}

/// The command of a form with this head, which is no true list.
fn improper(head: SymId, _heap: &Heap, syms: &Symbols) -> Command
    requires { head.0 < length syms.now.symbols }
    ensures is { command_view syms.now _heap.now result ≡ commands.improper (symbol_at syms.now.symbols head.0) }
    ensures whole { IsWholeCommand syms.now _heap.now result }
{
    if is_named(syms, head, b"COMMON-LISP", b"IN-PACKAGE") {
        Command::Misshapen(head)
    } else {
        Command::Other
    }
}

/// The command of a pair, by its parts.
fn command_of_pair(
    alloc: Global,
    first: Word,
    rest: Word,
    heap: &Heap,
    syms: &Symbols,
) -> Result<Command, AllocError>
    requires first { IsWhole syms.now heap.now first }
    requires rest { IsWhole syms.now heap.now rest }
    ensures is { IfOk result (λ c. command_view syms.now heap.now c ≡ commands.with_head (commands.symbol_of (form_at syms.now heap.now first)) (form_at syms.now heap.now rest)) }
    ensures whole { IfOk result (IsWholeCommand syms.now heap.now) }
{
    let Some(head) = symbol_of(first, heap, syms) else {
        return Ok(Command::Other);
    };
    match elements(alloc, rest, heap, syms)? {
        Some(parts) => {
            let command = event_or_call(alloc, head, parts.as_slice(), heap, syms)?;
            Ok(command)
        }
        None => Ok(improper(head, heap, syms)),
    }
}

/// The command that a form is.
#[tactic(auto, unfolding(model_output_so_far::specs::Commands::command_of))]
pub fn command_of(
    alloc: Global,
    form: Word,
    heap: &Heap,
    syms: &Symbols,
) -> Result<Command, AllocError>
    requires { IsWhole syms.now heap.now form }
    ensures is { IfOk result (λ c. command_view syms.now heap.now c ≡ commands.command_of (form_at syms.now heap.now form)) }
    ensures whole { IfOk result (IsWholeCommand syms.now heap.now) }
{
    match heap.look(form) {
        Seen::Pair(first, rest) => {
            let command = command_of_pair(alloc, first, rest, heap, syms)?;
            Ok(command)
        }
        Seen::Integer(_) => Ok(Command::Other),
        Seen::Symbol(_) => Ok(Command::Other),
        Seen::Text(_) => Ok(Command::Other),
    }
}
