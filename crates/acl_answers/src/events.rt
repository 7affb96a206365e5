//! Events: the definition of an object, and the choice of a package.

ghost use Rattle.std.specs.Prelude.{◌≡◌, ◌<◌, map, length, IfOk, None};
ghost use Rattle.model_symbols.specs.Growth.{Extends};
ghost use Rattle.model_output_so_far.specs.Events as events;
ghost use Rattle.acl_heap.specs.Objects.{object_of, Lies, IsText};
ghost use Rattle.acl_commands.specs.Views.{bytes_in, field_views};
ghost use Rattle.acl_commands.specs.Whole as commands;
ghost use Rattle.acl_answers.specs.Views.{name_of, names_of, session_in, session_view};
ghost use Rattle.acl_answers.specs.Whole.{IsKnown, AreKnown, IsSession};
ghost use Rattle.acl_answers.specs.Answers.{Answers};
ghost use Rattle.acl_answers.specs.Making.{HasFields};

use crate::lines::{Refusal, line_with, refused};
use crate::naming::{Made, Unmade, first_bad, first_in_use, new_names};
use crate::stobj::{Field, Stobj};
use crate::{Answer, Session};
use acl_base::{SymId, Word};
use acl_commands::NewField;
use acl_heap::Heap;
use acl_syms::Symbols;
use std::alloc::{AllocError, Global};

/// The first values of fields.
fn initial_values(alloc: Global, wanted: &[NewField]) -> Result<Vec<i128>, AllocError>
    ensures { IfOk result (λ values. values.items ≡ map (λ field. field.initial) wanted.now) }
{
    wanted.iter().map(|field| field.initial).collect(alloc)
}

/// The new object, which is now the session's.
fn defined(
    alloc: Global,
    name: SymId,
    wanted: &[NewField],
    fields: Vec<Field>,
    heap: &Heap,
    syms: &Symbols,
    session: &mut Session,
) -> Result<Answer, AllocError>
    requires name { IsKnown syms.now name }
    requires session { IsSession syms.now session.old }
    requires fields { HasFields syms.now (field_views syms.now wanted.now) fields.items }
    ensures answers { IfOk result (Answers (events.defined (session_in syms.now session.old.current.0) (name_of syms.now name) (field_views syms.now wanted.now)) (session_view syms.now session.new)) }
    ensures session { IfOk result (λ _. IsSession syms.now session.new) }
{
    let line = line_with(alloc, b"", Word::Sym(name), heap, syms, session.current)?;
    let values = initial_values(alloc, wanted)?;
    session.object = Some(Stobj {
        name,
        fields,
        values,
    });
    Ok(Answer {
        line,
        calls: 0,
        is_error: false,
    })
}

/// The new object, unless a name of its functions is taken.
fn if_free(
    alloc: Global,
    name: SymId,
    wanted: &[NewField],
    made: Made,
    heap: &Heap,
    syms: &Symbols,
    session: &mut Session,
) -> Result<Answer, AllocError>
    requires name { IsKnown syms.now name }
    requires session { IsSession syms.now session.old }
    requires none { session.old.object ≡ None }
    requires names { AreKnown syms.now made.names.items }
    requires fields { HasFields syms.now (field_views syms.now wanted.now) made.fields.items }
    ensures answers { IfOk result (Answers (events.if_free (session_in syms.now session.old.current.0) (name_of syms.now name) (field_views syms.now wanted.now) (events.first_in_use (names_of syms.now made.names.items))) (session_view syms.now session.new)) }
    ensures session { IfOk result (λ _. IsSession syms.now session.new) }
{
    match first_in_use(alloc, made.names.as_slice(), syms)? {
        Some(taken) => {
            let answer = refused(
                alloc,
                Refusal::NameInUse(taken),
                heap,
                syms,
                session.current,
            )?;
            Ok(answer)
        }
        None => {
            let answer = defined(alloc, name, wanted, made.fields, heap, syms, session)?;
            Ok(answer)
        }
    }
}

/// The definition of an object, where there is none yet and its names may be given.
fn if_good(
    alloc: Global,
    name: SymId,
    wanted: &[NewField],
    heap: &Heap,
    syms: &mut Symbols,
    session: &mut Session,
) -> Result<Answer, AllocError>
    requires name { IsKnown syms.old name }
    requires wanted { commands.AreKnownFields syms.old wanted.now }
    requires session { IsSession syms.old session.old }
    requires none { session.old.object ≡ None }
    ensures answers { IfOk result (Answers (events.if_good (session_in syms.old session.old.current.0) (name_of syms.old name) (field_views syms.old wanted.now) None) (session_view syms.new session.new)) }
    ensures session { IfOk result (λ _. IsSession syms.new session.new) }
    ensures grows { Extends syms.old syms.new }
    ensures packages { syms.new.packages ≡ syms.old.packages }
{
    match new_names(alloc, syms, name, wanted) {
        Ok(made) => {
            let answer = if_free(alloc, name, wanted, made, heap, syms, session)?;
            Ok(answer)
        }
        Err(Unmade::Full) => {
            let answer = refused(alloc, Refusal::SymbolLimit, heap, syms, session.current)?;
            Ok(answer)
        }
        Err(Unmade::Memory) => Err(AllocError),
    }
}

/// The definition of an object.
pub fn define(
    alloc: Global,
    name: SymId,
    wanted: &[NewField],
    heap: &Heap,
    syms: &mut Symbols,
    session: &mut Session,
) -> Result<Answer, AllocError>
    requires name { IsKnown syms.old name }
    requires wanted { commands.AreKnownFields syms.old wanted.now }
    requires session { IsSession syms.old session.old }
    ensures answers { IfOk result (Answers (events.define (session_view syms.old session.old) (session_view syms.old session.old).object (name_of syms.old name) (field_views syms.old wanted.now)) (session_view syms.new session.new)) }
    ensures session { IfOk result (λ _. IsSession syms.new session.new) }
    ensures grows { Extends syms.old syms.new }
    ensures packages { syms.new.packages ≡ syms.old.packages }
{
    if session.object.is_some() {
        let answer = refused(alloc, Refusal::NotYet, heap, syms, session.current)?;
        return Ok(answer);
    }
    if let Some(bad) = first_bad(name, wanted, syms) {
        let answer = refused(alloc, Refusal::BadName(bad), heap, syms, session.current)?;
        return Ok(answer);
    }
    let answer = if_good(alloc, name, wanted, heap, syms, session)?;
    Ok(answer)
}

/// The package that a string names is now the current one.
pub fn enter(
    alloc: Global,
    name: Word,
    heap: &Heap,
    syms: &Symbols,
    session: &mut Session,
) -> Result<Answer, AllocError>
    requires lies { Lies heap.now name }
    requires text { IsText (object_of heap.now name) }
    requires session { IsSession syms.now session.old }
    ensures answers { IfOk result (Answers (events.enter (session_view syms.now session.old) (bytes_in (object_of heap.now name))) (session_view syms.now session.new)) }
    ensures session { IfOk result (λ _. IsSession syms.now session.new) }
{
    let current = session.current;
    let bytes = heap.bytes_of(name);
    if bytes != b"%".as_slice() {
        if let Some(found) = syms.find_package(bytes) {
            let line = line_with(alloc, b"", name, heap, syms, current)?;
            session.current = found;
            return Ok(Answer {
                line,
                calls: 0,
                is_error: false,
            });
        }
    }
    let answer = refused(alloc, Refusal::UnknownPackage(name), heap, syms, current)?;
    Ok(answer)
}
