//! Core forms and faults as text. Constants have a quote mark; a symbol is its name alone.

ghost use Rattle.std.specs.Prelude.{◌≡◌, ◌≤◌, length, IsTrue};
ghost use Rattle.acl_heap.specs.Objects.{Lies, Extends, reach};

use acl_base::{SymId, Word};
use acl_heap::{Heap, Seen};
use acl_syms::Symbols;
use acl_terms::{Core, ExpandFault, Stop};
use std::alloc::{AllocError, Global};

/// How deep a core form is shown, and a constant in it.
const DEEPEST: u32 = 100;

/// `NIL`.
const NIL: SymId = SymId(1);

/// How many cells a heap has at least.
pub fn room(heap: &mut Heap) -> u64
    ensures grows { Extends heap.old heap.new }
    ensures within { result ≤ length heap.new }
{
    match heap.cons(Word::Sym(NIL), Word::Sym(NIL)) {
        Ok(word) => match word {
            Word::Cons(at) => at,
            Word::Small(_) => 0,
            Word::Big(_) => 0,
            Word::Sym(_) => 0,
            Word::Str(_) => 0,
        },
        Err(_) => 0,
    }
}

/// Whether a word lies below so many cells.
fn is_below(word: Word, top: u64) -> bool
    ensures { IsTrue result → reach word ≤ top }
{
    match word {
        Word::Small(_) => true,
        Word::Sym(_) => true,
        Word::Big(at) => at < top,
        Word::Str(at) => at < top,
        Word::Cons(at) => at < top,
    }
}

fn put_name(syms: &Symbols, name: SymId, out: &mut Vec<u8>) -> Result<(), AllocError> {
    if name.0 < syms.count() {
        out.extend_from_slice(syms.name(name))?;
    } else {
        out.push(b'?')?;
    }
    Ok(())
}

/// Names between brackets behind a blank.
fn put_names(syms: &Symbols, names: &[SymId], out: &mut Vec<u8>) -> Result<(), AllocError> {
    out.extend_from_slice(b" (")?;
    for (at, name) in names.iter().enumerate() {
        if at > 0 {
            out.push(b' ')?;
        }
        put_name(syms, *name, out)?;
    }
    out.push(b')')?;
    Ok(())
}

fn put_integer(alloc: Global, n: i128, out: &mut Vec<u8>) -> Result<(), AllocError> {
    let text = n.to_string(alloc)?;
    out.extend_from_slice(text.as_bytes())?;
    Ok(())
}

#[cycle(words)]
fn put_word(
    alloc: Global,
    heap: &Heap,
    syms: &Symbols,
    word: Word,
    left: u32,
    out: &mut Vec<u8>,
) -> Result<(), AllocError>
    requires { Lies heap.now word }
{
    if left == 0 {
        out.push(b'?')?;
        return Ok(());
    }
    match heap.look(word) {
        Seen::Integer(n) => put_integer(alloc, n, out)?,
        Seen::Symbol(name) => put_name(syms, name, out)?,
        Seen::Text(bytes) => {
            out.push(b'"')?;
            out.extend_from_slice(bytes)?;
            out.push(b'"')?;
        }
        Seen::Pair(first, rest) => {
            out.push(b'(')?;
            put_word(alloc, heap, syms, first, left - 1, out)?;
            put_rest(alloc, heap, syms, rest, left - 1, out)?;
        }
    }
    Ok(())
}

/// What stands behind the first of a list, with its bracket.
#[cycle(words)]
fn put_rest(
    alloc: Global,
    heap: &Heap,
    syms: &Symbols,
    word: Word,
    left: u32,
    out: &mut Vec<u8>,
) -> Result<(), AllocError>
    requires { Lies heap.now word }
{
    if left == 0 {
        out.push(b'?')?;
        return Ok(());
    }
    if word == Word::Sym(NIL) {
        out.push(b')')?;
        return Ok(());
    }
    if let Seen::Pair(first, rest) = heap.look(word) {
        out.push(b' ')?;
        put_word(alloc, heap, syms, first, left - 1, out)?;
        put_rest(alloc, heap, syms, rest, left - 1, out)?;
    } else {
        out.extend_from_slice(b" . ")?;
        put_word(alloc, heap, syms, word, left - 1, out)?;
        out.push(b')')?;
    }
    Ok(())
}

fn put_constant(
    alloc: Global,
    heap: &Heap,
    syms: &Symbols,
    top: u64,
    word: Word,
    out: &mut Vec<u8>,
) -> Result<(), AllocError>
    requires { top ≤ length heap.now }
{
    out.push(b'\'')?;
    if is_below(word, top) {
        put_word(alloc, heap, syms, word, DEEPEST, out)?;
    } else {
        out.push(b'?')?;
    }
    Ok(())
}

/// The bracket and the head of a core form that has parts.
fn put_head(syms: &Symbols, core: &Core, out: &mut Vec<u8>) -> Result<(), AllocError> {
    match core {
        Core::Var(_) => Ok(()),
        Core::Const(_) => Ok(()),
        Core::If(_, _, _) => out.extend_from_slice(b"(IF"),
        Core::Let(_, _) => out.extend_from_slice(b"(LET"),
        Core::Mv(_) => out.extend_from_slice(b"(MV"),
        Core::MvLet(_, _, _) => out.extend_from_slice(b"(MV-LET"),
        Core::StobjLet { .. } => out.extend_from_slice(b"(STOBJ-LET"),
        Core::WithLocal { .. } => out.extend_from_slice(b"(WITH-LOCAL-STOBJ"),
        Core::MustBeEqual(_, _) => out.extend_from_slice(b"(MUST-BE-EQUAL"),
        Core::Call(function, _) => {
            out.push(b'(')?;
            put_name(syms, *function, out)
        }
    }
}

/// A core form behind a blank.
#[cycle(cores)]
fn put_part(
    alloc: Global,
    heap: &Heap,
    syms: &Symbols,
    top: u64,
    core: &Core,
    left: u32,
    out: &mut Vec<u8>,
) -> Result<(), AllocError>
    requires { top ≤ length heap.now }
{
    out.push(b' ')?;
    put_core(alloc, heap, syms, top, core, left, out)
}

#[cycle(cores)]
fn put_two(
    alloc: Global,
    heap: &Heap,
    syms: &Symbols,
    top: u64,
    first: &Core,
    second: &Core,
    left: u32,
    out: &mut Vec<u8>,
) -> Result<(), AllocError>
    requires { top ≤ length heap.now }
{
    put_part(alloc, heap, syms, top, first, left, out)?;
    put_part(alloc, heap, syms, top, second, left, out)?;
    out.push(b')')?;
    Ok(())
}

#[cycle(cores)]
fn put_parts(
    alloc: Global,
    heap: &Heap,
    syms: &Symbols,
    top: u64,
    parts: &[Core],
    left: u32,
    out: &mut Vec<u8>,
) -> Result<(), AllocError>
    requires { top ≤ length heap.now }
{
    for part in parts {
        put_part(alloc, heap, syms, top, part, left, out)?;
    }
    out.push(b')')?;
    Ok(())
}

/// Bindings between brackets behind a blank.
#[cycle(cores)]
fn put_bindings(
    alloc: Global,
    heap: &Heap,
    syms: &Symbols,
    top: u64,
    bindings: &[(SymId, Core)],
    left: u32,
    out: &mut Vec<u8>,
) -> Result<(), AllocError>
    requires { top ≤ length heap.now }
{
    out.extend_from_slice(b" (")?;
    for (at, binding) in bindings.iter().enumerate() {
        if at > 0 {
            out.push(b' ')?;
        }
        out.push(b'(')?;
        put_name(syms, binding.0, out)?;
        put_part(alloc, heap, syms, top, &binding.1, left, out)?;
        out.push(b')')?;
    }
    out.push(b')')?;
    Ok(())
}

/// Names, and two core forms.
#[cycle(cores)]
fn put_scope(
    alloc: Global,
    heap: &Heap,
    syms: &Symbols,
    top: u64,
    names: &[SymId],
    first: &Core,
    second: &Core,
    left: u32,
    out: &mut Vec<u8>,
) -> Result<(), AllocError>
    requires { top ≤ length heap.now }
{
    put_names(syms, names, out)?;
    put_two(alloc, heap, syms, top, first, second, left, out)
}

/// What a STOBJ-LET or WITH-LOCAL-STOBJ has behind its head.
#[cycle(cores)]
fn put_stobj_form(
    alloc: Global,
    heap: &Heap,
    syms: &Symbols,
    top: u64,
    core: &Core,
    left: u32,
    out: &mut Vec<u8>,
) -> Result<(), AllocError>
    requires { top ≤ length heap.now }
{
    if let Core::StobjLet {
        bindings,
        vars,
        producer,
        consumer,
    } = core
    {
        let (names, first, second) = (vars.as_slice(), producer.get(), consumer.get());
        put_bindings(alloc, heap, syms, top, bindings.as_slice(), left, out)?;
        put_scope(alloc, heap, syms, top, names, first, second, left, out)?;
    }
    if let Core::WithLocal {
        stobj,
        names,
        producer,
        body,
    } = core
    {
        let (names, first, second) = (names.as_slice(), producer.get(), body.get());
        out.push(b' ')?;
        put_name(syms, *stobj, out)?;
        put_scope(alloc, heap, syms, top, names, first, second, left, out)?;
    }
    Ok(())
}

#[cycle(cores)]
fn put_core(
    alloc: Global,
    heap: &Heap,
    syms: &Symbols,
    top: u64,
    core: &Core,
    left: u32,
    out: &mut Vec<u8>,
) -> Result<(), AllocError>
    requires { top ≤ length heap.now }
{
    if left == 0 {
        out.push(b'?')?;
        return Ok(());
    }
    put_head(syms, core, out)?;
    let under = left - 1;
    match core {
        Core::Var(name) => put_name(syms, *name, out),
        Core::Const(word) => put_constant(alloc, heap, syms, top, *word, out),
        Core::If(test, then, other) => {
            put_part(alloc, heap, syms, top, test.get(), under, out)?;
            put_two(alloc, heap, syms, top, then.get(), other.get(), under, out)
        }
        Core::Let(bindings, body) => {
            put_bindings(alloc, heap, syms, top, bindings.as_slice(), under, out)?;
            put_part(alloc, heap, syms, top, body.get(), under, out)?;
            out.push(b')')?;
            Ok(())
        }
        Core::Mv(parts) => put_parts(alloc, heap, syms, top, parts.as_slice(), under, out),
        Core::MvLet(names, bound, body) => {
            let (names, first, second) = (names.as_slice(), bound.get(), body.get());
            put_scope(alloc, heap, syms, top, names, first, second, under, out)
        }
        Core::StobjLet { .. } => put_stobj_form(alloc, heap, syms, top, core, under, out),
        Core::WithLocal { .. } => put_stobj_form(alloc, heap, syms, top, core, under, out),
        Core::MustBeEqual(logic, exec) => {
            put_two(alloc, heap, syms, top, logic.get(), exec.get(), under, out)
        }
        Core::Call(_, actuals) => {
            put_parts(alloc, heap, syms, top, actuals.as_slice(), under, out)
        }
    }
}

/// A core form as text, whose words lie below so many cells.
pub fn shown_core(
    alloc: Global,
    heap: &Heap,
    syms: &Symbols,
    top: u64,
    core: &Core,
) -> Result<Vec<u8>, AllocError>
    requires { top ≤ length heap.now }
{
    let mut out = Vec::new(alloc);
    put_core(alloc, heap, syms, top, core, DEEPEST, &mut out)?;
    Ok(out)
}

/// The word for a stop of a macro.
fn stop_word(stop: &Stop) -> &'static [u8] {
    match stop {
        Stop::Guard { .. } => b"MacroStopped Guard",
        Stop::Steps => b"MacroStopped Steps",
        Stop::Depth => b"MacroStopped Depth",
        Stop::Range { .. } => b"MacroStopped Range",
        Stop::Large { .. } => b"MacroStopped Large",
        Stop::Symbols { .. } => b"MacroStopped Symbols",
        Stop::Memory => b"MacroStopped Memory",
    }
}

fn named_fault(
    syms: &Symbols,
    word: &[u8],
    name: SymId,
    out: &mut Vec<u8>,
) -> Result<(), AllocError> {
    out.extend_from_slice(word)?;
    put_name(syms, name, out)
}

/// A fault as text.
pub fn shown_fault(
    alloc: Global,
    syms: &Symbols,
    fault: &ExpandFault,
) -> Result<Vec<u8>, AllocError> {
    let mut out = Vec::new(alloc);
    match fault {
        ExpandFault::MacroArgs { head } => named_fault(syms, b"MacroArgs ", *head, &mut out)?,
        ExpandFault::BadShape { head } => named_fault(syms, b"BadShape ", *head, &mut out)?,
        ExpandFault::MacroStopped(stop) => out.extend_from_slice(stop_word(stop))?,
        ExpandFault::UnknownFunction { name } => {
            named_fault(syms, b"UnknownFunction ", *name, &mut out)?
        }
        ExpandFault::Arity { name } => named_fault(syms, b"Arity ", *name, &mut out)?,
        ExpandFault::TooNested => out.extend_from_slice(b"TooNested")?,
        ExpandFault::Memory => out.extend_from_slice(b"Memory")?,
    }
    Ok(out)
}
