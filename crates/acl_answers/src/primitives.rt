//! Calls of primitives on constants.

ghost use Rattle.std.specs.Prelude.{◌≡◌, ◌<◌, ◌++◌, ◌∷◌, [], length, map, IfOk, IsErr, OnOk, IfSome, Some, None};
ghost use Rattle.std.specs.Option.{option_map};
ghost use Rattle.model_symbols.specs.Growth.{Extends};
ghost use Rattle.model_symbols.specs.Opening.{opening};
ghost use Rattle.model_output_so_far.specs.Calls as calls;
ghost use Rattle.model_output_so_far.specs.Lines as lines;
ghost use Rattle.acl_forms.specs.Forms.{IsWhole, AreWhole, Grown, form_at, forms_at};
ghost use Rattle.acl_commands.specs.Views.{actual_view, actual_views};
ghost use Rattle.acl_commands.specs.Whole.{IsWholeActual, AreWholeActuals};
ghost use Rattle.acl_answers.specs.Views.{name_of, session_in};
ghost use Rattle.acl_answers.specs.Whole.{IsKnown};
ghost use Rattle.acl_answers.specs.Answers.{Says, Answers};
ghost use Rattle.acl_answers.specs.Stops as stops;
ghost use Rattle.model_prims.specs.Rows as rows;

use crate::Answer;
use crate::lines::{Refusal, line_with, push_text, refused};
use acl_base::{PkgId, SymId, Word};
use acl_commands::{Actual, home};
use acl_heap::Heap;
use acl_prims::{PrimStop, apply, arity, find};
use acl_syms::Symbols;
use std::alloc::{AllocError, Global};

/// The value of an actual that is a constant.
fn constant(actual: Actual, _heap: &Heap, _syms: &Symbols) -> Option<Word>
    requires { IsWholeActual _syms.now _heap.now actual }
    ensures is { option_map (λ w. form_at _syms.now _heap.now w) result ≡ calls.constant (actual_view _syms.now _heap.now actual) }
    ensures whole { IfSome result (IsWhole _syms.now _heap.now) }
{
    match actual {
        Actual::Literal(w) => Some(w),
        Actual::Quoted(w) => Some(w),
        Actual::Variable(_) => None,
        Actual::Nested => None,
    }
}

/// The values of actuals that all are constants.
fn constants(
    alloc: Global,
    actuals: &[Actual],
    heap: &Heap,
    syms: &Symbols,
) -> Result<Option<Vec<Word>>, AllocError>
    requires actuals { AreWholeActuals syms.now heap.now actuals.now }
    ensures is { IfOk result (λ found. option_map (λ ws. forms_at syms.now heap.now ws.items) found ≡ calls.constants (actual_views syms.now heap.now actuals.now)) }
    ensures whole { IfOk result (λ found. IfSome found (λ ws. AreWhole syms.now heap.now ws.items)) }
{
    let mut words = Vec::new(alloc);
    for actual in actuals {
        match constant(*actual, heap, syms) {
            Some(w) => words.push(w)?,
            None => return Ok(None),
        }
    }
    Ok(Some(words))
}

/// Puts the printed forms of words last, a blank before each.
fn push_texts(
    alloc: Global,
    line: &mut Vec<u8>,
    words: &[Word],
    heap: &Heap,
    syms: &Symbols,
    current: PkgId,
) -> Result<(), AllocError>
    requires whole { AreWhole syms.now heap.now words.now }
    requires current { current.0 < length syms.now.packages }
    ensures { OnOk result (line.new.items ≡ line.old.items ++ lines.spaced (map (lines.printed (session_in syms.now current.0)) (forms_at syms.now heap.now words.now))) }
{
    for word in words {
        line.push(b' ')?;
        push_text(alloc, line, *word, heap, syms, current)?;
    }
    Ok(())
}

/// The line of a guard violation.
fn violation(
    alloc: Global,
    f: SymId,
    args: &[Word],
    heap: &Heap,
    syms: &Symbols,
    current: PkgId,
) -> Result<Vec<u8>, AllocError>
    requires f { IsKnown syms.now f }
    requires whole { AreWhole syms.now heap.now args.now }
    requires current { current.0 < length syms.now.packages }
    ensures { IfOk result (λ line. line.items ≡ lines.violation_text (lines.printed_symbol (session_in syms.now current.0) (name_of syms.now f)) (map (lines.printed (session_in syms.now current.0)) (forms_at syms.now heap.now args.now))) }
{
    let mut line = Vec::from_slice(alloc, b"Guard violation: (")?;
    push_text(alloc, &mut line, Word::Sym(f), heap, syms, current)?;
    push_texts(alloc, &mut line, args, heap, syms, current)?;
    line.push(b')')?;
    Ok(line)
}

/// The line of a primitive that stopped, for another reason than want of memory.
fn stop_line(
    alloc: Global,
    f: SymId,
    args: &[Word],
    stop: PrimStop,
    heap: &Heap,
    syms: &Symbols,
    current: PkgId,
) -> Result<Vec<u8>, AllocError>
    requires f { IsKnown syms.now f }
    requires whole { AreWhole syms.now heap.now args.now }
    requires current { current.0 < length syms.now.packages }
    ensures line { IfOk result (λ line. line.items ≡ stops.stop_line (session_in syms.now current.0) (name_of syms.now f) (forms_at syms.now heap.now args.now) stop) }
    ensures memory { stop ≡ PrimStop.Memory → IsErr result }
{
    let w = Word::Sym(f);
    match stop {
        PrimStop::Guard => violation(alloc, f, args, heap, syms, current),
        PrimStop::Range => line_with(alloc, b"Out of range: ", w, heap, syms, current),
        PrimStop::TooLarge => line_with(alloc, b"Too large: ", w, heap, syms, current),
        PrimStop::SymbolLimit => line_with(alloc, b"Symbol limit: ", w, heap, syms, current),
        PrimStop::Memory => Err(AllocError),
    }
}

/// The primitive of a row called with these values.
fn applied_row(
    alloc: Global,
    f: SymId,
    row: u8,
    args: &[Word],
    heap: &mut Heap,
    syms: &mut Symbols,
    current: PkgId,
) -> Result<Answer, AllocError>
    requires opening { Extends opening syms.old }
    requires f { IsKnown syms.old f }
    requires row { row < length rows.table }
    requires whole { AreWhole syms.old heap.old args.now }
    requires current { current.0 < length syms.old.packages }
    ensures answers { IfOk result (Answers (calls.applied_row (session_in syms.old current.0) (name_of syms.old f) row (forms_at syms.old heap.old args.now)) (session_in syms.new current.0)) }
    ensures grows { Grown syms.old syms.new heap.old heap.new }
    ensures packages { syms.new.packages ≡ syms.old.packages }
{
    syms.is_table();
    match apply(alloc, row, args, heap, syms) {
        Ok(w) => {
            let line = line_with(alloc, b"", w, heap, syms, current)?;
            Ok(Answer {
                line,
                calls: 1,
                is_error: false,
            })
        }
        Err(stop) => {
            let line = stop_line(alloc, f, args, stop, heap, syms, current)?;
            Ok(Answer {
                line,
                calls: 1,
                is_error: true,
            })
        }
    }
}

/// A call of a function that reads or updates no field: of a primitive, on constants.
pub fn primitive_call(
    alloc: Global,
    f: SymId,
    actuals: &[Actual],
    heap: &mut Heap,
    syms: &mut Symbols,
    current: PkgId,
) -> Result<Answer, AllocError>
    requires opening { Extends opening syms.old }
    requires f { IsKnown syms.old f }
    requires actuals { AreWholeActuals syms.old heap.old actuals.now }
    requires current { current.0 < length syms.old.packages }
    ensures answers { IfOk result (Answers (calls.primitive_call (session_in syms.old current.0) (name_of syms.old f) (actual_views syms.old heap.old actuals.now)) (session_in syms.new current.0)) }
    ensures grows { Grown syms.old syms.new heap.old heap.new }
    ensures packages { syms.new.packages ≡ syms.old.packages }
{
    if let Some(row) = find(syms.name(f), home(syms, f)) {
        if let Some(args) = constants(alloc, actuals, heap, syms)? {
            if args.len() == usize::from(arity(row)) {
                let answer = applied_row(alloc, f, row, args.as_slice(), heap, syms, current)?;
                return Ok(answer);
            }
        }
    }
    let answer = refused(alloc, Refusal::NotYet, heap, syms, current)?;
    Ok(answer)
}
