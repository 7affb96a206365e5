//! The lines of answers.

ghost use Rattle.std.specs.Prelude.{◌≡◌, ◌<◌, ◌++◌, ◌∷◌, [], length, map, IfOk, OnOk, true, codes};
ghost use Rattle.model_symbols.specs.Symbols.{symbol_at};
ghost use Rattle.model_text.specs.Text.{text};
ghost use Rattle.model_output_so_far.specs.Lines as lines;
ghost use Rattle.acl_heap.specs.Objects.{Lies, object_of, IsText};
ghost use Rattle.acl_forms.specs.Forms.{IsWhole, AreWhole, form_at, forms_at};
ghost use Rattle.acl_answers.specs.Views.{session_in, refusal_view};
ghost use Rattle.acl_answers.specs.Whole.{IsKnown, IsWholeRefusal};
ghost use Rattle.acl_answers.specs.Answers.{Says};

use crate::Answer;
use acl_base::{PkgId, SymId, Word};
use acl_heap::Heap;
use acl_print::text_of;
use acl_syms::Symbols;
use std::alloc::{AllocError, Global};

/// Why a command is refused.
#[derive(Clone, Copy, Debug)]
pub enum Refusal {
    /// It is of a kind that is not known yet.
    NotYet,
    /// A form of this head has a wrong shape.
    BadShape(SymId),
    /// This cannot be the name of an object or a field.
    BadName(SymId),
    /// There is no room for the names of its functions.
    SymbolLimit,
    /// This name of a function is taken.
    NameInUse(SymId),
    /// This string names no package that can be the current one.
    UnknownPackage(Word),
}

/// Puts the printed form of a word last.
pub fn push_text(
    alloc: Global,
    line: &mut Vec<u8>,
    w: Word,
    heap: &Heap,
    syms: &Symbols,
    current: PkgId,
) -> Result<(), AllocError>
    requires whole { IsWhole syms.now heap.now w }
    requires current { current.0 < length syms.now.packages }
    ensures { OnOk result (line.new.items ≡ line.old.items ++ text syms.now.packages current.0 (form_at syms.now heap.now w)) }
{
    let printed = text_of(alloc, w, heap, syms, current)?;
    line.extend_from_slice(printed.as_slice())?;
    Ok(())
}

/// Puts an object's name, in lower case in angle brackets, last.
pub fn push_shown(line: &mut Vec<u8>, name: &[u8]) -> Result<(), AllocError>
    ensures { OnOk result (line.new.items ≡ line.old.items ++ lines.shown_name name.now) }
{
    line.push(b'<')?;
    for byte in name {
        line.push(byte.to_ascii_lowercase())?;
    }
    line.push(b'>')?;
    Ok(())
}

/// A line that begins with these bytes, and goes on with the printed form of a word.
pub fn line_with(
    alloc: Global,
    start: &[u8],
    w: Word,
    heap: &Heap,
    syms: &Symbols,
    current: PkgId,
) -> Result<Vec<u8>, AllocError>
    requires whole { IsWhole syms.now heap.now w }
    requires current { current.0 < length syms.now.packages }
    ensures { IfOk result (λ line. line.items ≡ start.now ++ text syms.now.packages current.0 (form_at syms.now heap.now w)) }
{
    let mut line = Vec::from_slice(alloc, start)?;
    push_text(alloc, &mut line, w, heap, syms, current)?;
    Ok(line)
}

/// The line of a refusal.
fn refusal_line(
    alloc: Global,
    refusal: Refusal,
    heap: &Heap,
    syms: &Symbols,
    current: PkgId,
) -> Result<Vec<u8>, AllocError>
    requires whole { IsWholeRefusal syms.now heap.now refusal }
    requires current { current.0 < length syms.now.packages }
    ensures { IfOk result (λ line. line.items ≡ codes "Refused: " ++ lines.refusal_text (session_in syms.now current.0) (refusal_view syms.now heap.now refusal)) }
{
    match refusal {
        Refusal::NotYet => Vec::from_slice(alloc, b"Refused: NotYet"),
        Refusal::SymbolLimit => Vec::from_slice(alloc, b"Refused: SymbolLimit"),
        Refusal::BadShape(s) => line_with(
            alloc,
            b"Refused: BadShape ",
            Word::Sym(s),
            heap,
            syms,
            current,
        ),
        Refusal::BadName(s) => line_with(
            alloc,
            b"Refused: BadName ",
            Word::Sym(s),
            heap,
            syms,
            current,
        ),
        Refusal::NameInUse(s) => line_with(
            alloc,
            b"Refused: NameInUse ",
            Word::Sym(s),
            heap,
            syms,
            current,
        ),
        Refusal::UnknownPackage(w) => line_with(
            alloc,
            b"Refused: UnknownPackage ",
            w,
            heap,
            syms,
            current,
        ),
    }
}

/// The answer to a command that is refused.
pub fn refused(
    alloc: Global,
    refusal: Refusal,
    heap: &Heap,
    syms: &Symbols,
    current: PkgId,
) -> Result<Answer, AllocError>
    requires whole { IsWholeRefusal syms.now heap.now refusal }
    requires current { current.0 < length syms.now.packages }
    ensures { IfOk result (Says (lines.refused (session_in syms.now current.0) (refusal_view syms.now heap.now refusal))) }
{
    let line = refusal_line(alloc, refusal, heap, syms, current)?;
    Ok(Answer {
        line,
        calls: 0,
        is_error: true,
    })
}
