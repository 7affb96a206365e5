//! Calls of functions on constants and the live object.

ghost use Rattle.std.specs.Prelude.{◌≡◌, ◌<◌, length, IfOk, IfSome, Some, None};
ghost use Rattle.model_objects.specs.Object.{Symbol};
ghost use Rattle.model_symbols.specs.Symbols.{QualifiedName};
ghost use Rattle.model_symbols.specs.Growth.{Extends};
ghost use Rattle.model_symbols.specs.Opening.{opening};
ghost use Rattle.model_output_so_far.specs.Objects as objects;
ghost use Rattle.model_output_so_far.specs.Running as running;
ghost use Rattle.acl_forms.specs.Forms.{IsWhole, Grown, form_at};
ghost use Rattle.acl_commands.specs.Views.{actual_view, actual_views};
ghost use Rattle.acl_commands.specs.Whole.{IsWholeActual, AreWholeActuals};
ghost use Rattle.acl_answers.specs.Views.{name_of, stobj_view, session_of, session_view, UsesOf};
ghost use Rattle.acl_answers.specs.Whole.{IsKnown, IsKnownStobj, IsSession};
ghost use Rattle.acl_answers.specs.Answers.{Says, Answers};

use crate::lines::{Refusal, push_shown, push_text, refused};
use crate::primitives::primitive_call;
use crate::stobj::{FieldUse, Stobj};
use crate::{Answer, Session};
use acl_base::{PkgId, SymId, Word};
use acl_commands::Actual;
use acl_heap::{Heap, Seen};
use acl_syms::Symbols;
use std::alloc::{AllocError, Global};

/// What a function of this name does with a field of the object, if there is one.
fn field_use(session: &Session, f: SymId, syms: &Symbols) -> Option<FieldUse>
    requires f { IsKnown syms.now f }
    requires session { IsSession syms.now session.now }
    ensures { UsesOf (session_view syms.now session.now).object (name_of syms.now f) result }
{
    match &session.object {
        Some(object) => object.field_use(f, syms),
        None => None,
    }
}

/// Whether an actual is the object.
#[tactic(auto, using(crate::proofs::StobjLemmas::same_number))]
fn is_object(object: &Stobj, actual: Actual, _heap: &Heap, syms: &Symbols) -> bool
    requires object { IsKnownStobj syms.now object.now }
    requires actual { IsWholeActual syms.now _heap.now actual }
    ensures { result ≡ objects.is_object (stobj_view syms.now object.now) (actual_view syms.now _heap.now actual) }
{
    syms.is_table();
    match actual {
        Actual::Variable(s) => s.0 == object.name.0,
        Actual::Literal(_) => false,
        Actual::Quoted(_) => false,
        Actual::Nested => false,
    }
}

/// The value of a field.
fn was_read(
    alloc: Global,
    object: &Stobj,
    k: usize,
    syms: &Symbols,
    _current: PkgId,
) -> Result<Answer, AllocError>
    requires k { k < length object.now.values.items }
    ensures { IfOk result (Says (objects.was_read (session_of syms.now _current.0 object.now) (stobj_view syms.now object.now) k)) }
{
    let digits = object.value(k, syms).to_string(alloc)?;
    let line = Vec::from_slice(alloc, digits.as_bytes())?;
    Ok(Answer {
        line,
        calls: 1,
        is_error: false,
    })
}

/// A call of a field's reader.
fn read_call(
    alloc: Global,
    object: &Stobj,
    k: usize,
    actuals: &[Actual],
    heap: &Heap,
    syms: &Symbols,
    current: PkgId,
) -> Result<Answer, AllocError>
    requires object { IsKnownStobj syms.now object.now }
    requires actuals { AreWholeActuals syms.now heap.now actuals.now }
    requires current { current.0 < length syms.now.packages }
    requires k { k < length object.now.values.items }
    ensures { IfOk result (Answers (objects.read_call (session_of syms.now current.0 object.now) (stobj_view syms.now object.now) k (actual_views syms.now heap.now actuals.now)) (session_of syms.now current.0 object.now)) }
{
    match actuals {
        [actual] => {
            if is_object(object, *actual, heap, syms) {
                let answer = was_read(alloc, object, k, syms, current)?;
                return Ok(answer);
            }
        }
        _ => {}
    }
    let answer = refused(alloc, Refusal::NotYet, heap, syms, current)?;
    Ok(answer)
}

/// An updater called with an integer.
fn was_updated(
    alloc: Global,
    object: &mut Stobj,
    k: usize,
    n: i128,
    syms: &Symbols,
    _current: PkgId,
) -> Result<Answer, AllocError>
    requires object { IsKnownStobj syms.now object.old }
    requires k { k < length object.old.values.items }
    ensures answers { IfOk result (Answers (objects.was_updated (session_of syms.now _current.0 object.old) (stobj_view syms.now object.old) k n) (session_of syms.now _current.0 object.new)) }
    ensures known { IsKnownStobj syms.now object.new }
{
    let mut line = Vec::new(alloc);
    push_shown(&mut line, syms.name(object.name))?;
    object.set_value(k, n, syms);
    Ok(Answer {
        line,
        calls: 1,
        is_error: false,
    })
}

/// An updater called with a symbol.
fn violated(
    alloc: Global,
    object: &Stobj,
    f: SymId,
    symbol: Word,
    heap: &Heap,
    syms: &Symbols,
    current: PkgId,
) -> Result<Answer, AllocError>
    requires object { IsKnownStobj syms.now object.now }
    requires f { IsKnown syms.now f }
    requires symbol { IsWhole syms.now heap.now symbol }
    requires current { current.0 < length syms.now.packages }
    ensures { IfOk result (λ a. (t : QualifiedName) → form_at syms.now heap.now symbol ≡ Symbol t → Says (objects.violated (session_of syms.now current.0 object.now) (stobj_view syms.now object.now) (name_of syms.now f) t) a) }
{
    let mut line = Vec::from_slice(alloc, b"Guard violation: (")?;
    push_text(alloc, &mut line, Word::Sym(f), heap, syms, current)?;
    line.push(b' ')?;
    push_text(alloc, &mut line, symbol, heap, syms, current)?;
    line.push(b' ')?;
    push_shown(&mut line, syms.name(object.name))?;
    line.push(b')')?;
    Ok(Answer {
        line,
        calls: 1,
        is_error: true,
    })
}

/// An updater called with the object and this actual.
fn with_actual(
    alloc: Global,
    object: &mut Stobj,
    f: SymId,
    k: usize,
    actual: Actual,
    heap: &Heap,
    syms: &Symbols,
    current: PkgId,
) -> Result<Answer, AllocError>
    requires object { IsKnownStobj syms.now object.old }
    requires f { IsKnown syms.now f }
    requires actual { IsWholeActual syms.now heap.now actual }
    requires current { current.0 < length syms.now.packages }
    requires k { k < length object.old.values.items }
    ensures answers { IfOk result (Answers (objects.with_actual (session_of syms.now current.0 object.old) (stobj_view syms.now object.old) (name_of syms.now f) k (actual_view syms.now heap.now actual)) (session_of syms.now current.0 object.new)) }
    ensures known { IsKnownStobj syms.now object.new }
{
    match actual {
        Actual::Literal(w) => {
            if let Seen::Integer(n) = heap.look(w) {
                let answer = was_updated(alloc, object, k, n, syms, current)?;
                return Ok(answer);
            }
        }
        Actual::Quoted(w) => {
            if let Seen::Symbol(_) = heap.look(w) {
                let answer = violated(alloc, object, f, w, heap, syms, current)?;
                return Ok(answer);
            }
        }
        Actual::Variable(_) => {}
        Actual::Nested => {}
    }
    let answer = refused(alloc, Refusal::NotYet, heap, syms, current)?;
    Ok(answer)
}

/// A call of a field's updater.
fn update_call(
    alloc: Global,
    object: &mut Stobj,
    f: SymId,
    k: usize,
    actuals: &[Actual],
    heap: &Heap,
    syms: &Symbols,
    current: PkgId,
) -> Result<Answer, AllocError>
    requires object { IsKnownStobj syms.now object.old }
    requires f { IsKnown syms.now f }
    requires actuals { AreWholeActuals syms.now heap.now actuals.now }
    requires current { current.0 < length syms.now.packages }
    requires k { k < length object.old.values.items }
    ensures answers { IfOk result (Answers (objects.update_call (session_of syms.now current.0 object.old) (stobj_view syms.now object.old) (name_of syms.now f) k (actual_views syms.now heap.now actuals.now)) (session_of syms.now current.0 object.new)) }
    ensures known { IsKnownStobj syms.now object.new }
{
    match actuals {
        [actual, other] => {
            if is_object(object, *other, heap, syms) {
                let answer = with_actual(alloc, object, f, k, *actual, heap, syms, current)?;
                return Ok(answer);
            }
        }
        _ => {}
    }
    let answer = refused(alloc, Refusal::NotYet, heap, syms, current)?;
    Ok(answer)
}

/// A call of a function on constants and the object.
pub fn call(
    alloc: Global,
    f: SymId,
    actuals: &[Actual],
    heap: &mut Heap,
    syms: &mut Symbols,
    session: &mut Session,
) -> Result<Answer, AllocError>
    requires opening { Extends opening syms.old }
    requires f { IsKnown syms.old f }
    requires actuals { AreWholeActuals syms.old heap.old actuals.now }
    requires session { IsSession syms.old session.old }
    ensures answers { IfOk result (Answers (running.object_call (session_view syms.old session.old) (session_view syms.old session.old).object (name_of syms.old f) (actual_views syms.old heap.old actuals.now)) (session_view syms.new session.new)) }
    ensures session { IfOk result (λ _. IsSession syms.new session.new) }
    ensures grows { Grown syms.old syms.new heap.old heap.new }
    ensures packages { syms.new.packages ≡ syms.old.packages }
{
    let current = session.current;
    match field_use(session, f, syms) {
        Some(FieldUse::Reads(k)) => match &session.object {
            Some(object) => {
                let answer = read_call(alloc, object, k, actuals, heap, syms, current)?;
                Ok(answer)
            }
            None => unreachable!(),
        },
        Some(FieldUse::Updates(k)) => match &mut session.object {
            Some(object) => {
                let answer = update_call(alloc, object, f, k, actuals, heap, syms, current)?;
                Ok(answer)
            }
            None => unreachable!(),
        },
        None => {
            let answer = primitive_call(alloc, f, actuals, heap, syms, current)?;
            Ok(answer)
        }
    }
}
