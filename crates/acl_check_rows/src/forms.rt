//! Forms, built step by step.

use acl_base::{SymId, Word};
use acl_terms::Core;
use sqlite_items::{Boxed, Items};
use std::alloc::{AllocError, Global};

/// What is made next: a form whose parts are the last ones that were made, and are used up.
#[derive(Clone, Copy, Debug)]
pub enum Step {
    Var(u32),
    Number(i64),
    /// Of one actual.
    Call(u32),
    /// Of two actuals.
    CallTwo(u32),
    If,
    /// One name, bound to the last but one.
    Let(u32),
    LetTwo(u32, u32),
    /// Of two values.
    Mv,
    MvLet(u32, u32),
    /// One child, and one variable of that name.
    Child(u32),
    /// An object, made in a form that gives another name beside it.
    Local(u32, u32),
}

/// The last form that was made.
fn taken(made: &mut Vec<Core>) -> Core {
    match made.pop() {
        Some(core) => core,
        None => Core::Var(SymId(0)),
    }
}

fn boxed(alloc: Global, made: &mut Vec<Core>) -> Result<Boxed<Core>, AllocError> {
    let core = taken(made);
    Boxed::new(alloc, core)
}

/// The last two, in the order in which they were made.
fn two(alloc: Global, made: &mut Vec<Core>) -> Result<Items<Core>, AllocError> {
    let second = taken(made);
    let first = taken(made);
    let mut parts = Items::new(alloc);
    parts.push(first)?;
    parts.push(second)?;
    Ok(parts)
}

fn bound(alloc: Global, x: u32, core: Core) -> Result<Items<(SymId, Core)>, AllocError> {
    let mut bindings = Items::new(alloc);
    bindings.push((SymId(x), core))?;
    Ok(bindings)
}

/// Two names, bound to the last two.
fn bound_two(
    alloc: Global,
    x: u32,
    y: u32,
    made: &mut Vec<Core>,
) -> Result<Items<(SymId, Core)>, AllocError> {
    let second = taken(made);
    let first = taken(made);
    let mut bindings = Items::new(alloc);
    bindings.push((SymId(x), first))?;
    bindings.push((SymId(y), second))?;
    Ok(bindings)
}

fn branch(alloc: Global, made: &mut Vec<Core>) -> Result<Core, AllocError> {
    let no = boxed(alloc, made)?;
    let yes = boxed(alloc, made)?;
    let test = boxed(alloc, made)?;
    Ok(Core::If(test, yes, no))
}

fn child(alloc: Global, x: u32, made: &mut Vec<Core>) -> Result<Core, AllocError> {
    let consumer = boxed(alloc, made)?;
    let producer = boxed(alloc, made)?;
    let bindings = bound(alloc, x, taken(made))?;
    let vars = Items::from_slice(alloc, &[SymId(x)])?;
    Ok(Core::StobjLet {
        bindings,
        vars,
        producer,
        consumer,
    })
}

fn local(alloc: Global, stobj: u32, x: u32, made: &mut Vec<Core>) -> Result<Core, AllocError> {
    let body = boxed(alloc, made)?;
    let producer = boxed(alloc, made)?;
    let names = Items::from_slice(alloc, &[SymId(x), SymId(stobj)])?;
    Ok(Core::WithLocal {
        stobj: SymId(stobj),
        names,
        producer,
        body,
    })
}

fn values_bound(alloc: Global, x: u32, y: u32, made: &mut Vec<Core>) -> Result<Core, AllocError> {
    let body = boxed(alloc, made)?;
    let given = boxed(alloc, made)?;
    let names = Items::from_slice(alloc, &[SymId(x), SymId(y)])?;
    Ok(Core::MvLet(names, given, body))
}

fn called(alloc: Global, f: u32, made: &mut Vec<Core>) -> Result<Core, AllocError> {
    let mut actuals = Items::new(alloc);
    actuals.push(taken(made))?;
    Ok(Core::Call(SymId(f), actuals))
}

fn form(alloc: Global, step: Step, made: &mut Vec<Core>) -> Result<Core, AllocError> {
    match step {
        Step::Var(x) => Ok(Core::Var(SymId(x))),
        Step::Number(n) => Ok(Core::Const(Word::Small(n))),
        Step::Call(f) => called(alloc, f, made),
        Step::CallTwo(f) => Ok(Core::Call(SymId(f), two(alloc, made)?)),
        Step::If => branch(alloc, made),
        Step::Let(x) => {
            let body = boxed(alloc, made)?;
            Ok(Core::Let(bound(alloc, x, taken(made))?, body))
        }
        Step::LetTwo(x, y) => {
            let body = boxed(alloc, made)?;
            Ok(Core::Let(bound_two(alloc, x, y, made)?, body))
        }
        Step::Mv => Ok(Core::Mv(two(alloc, made)?)),
        Step::MvLet(x, y) => values_bound(alloc, x, y, made),
        Step::Child(x) => child(alloc, x, made),
        Step::Local(stobj, x) => local(alloc, stobj, x, made),
    }
}

/// The form that these steps make last.
pub fn built(alloc: Global, steps: &[Step]) -> Result<Core, AllocError> {
    let mut made = Vec::new(alloc);
    for step in steps {
        let core = form(alloc, *step, &mut made)?;
        made.push(core)?;
    }
    Ok(taken(&mut made))
}
