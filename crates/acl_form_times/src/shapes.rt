//! Forms of a chosen shape and size.

use acl_base::{SymId, Word};
use acl_terms::Core;
use sqlite_items::{Boxed, Items};
use std::alloc::{AllocError, Global};

/// The variable in scope.
pub const X: u32 = 1;

/// The function that is called.
pub const F: u32 = 2;

/// The first of the names that a `LET` binds.
const NAMES: u32 = 3;

/// What is nested, `levels` deep, and how much stands in a level.
#[derive(Clone, Copy, Debug)]
pub enum Shape {
    /// A `LET` of `width` names that are bound to constants: width + 1 nodes a level, and one.
    Let,
    /// A `LET` of `width` names that are bound to the variable in scope: width + 1 nodes a level, and one.
    Uses,
    /// An `IF` whose test is `width` nested ones: 3 * width + 3 nodes a level, and one.
    If,
    /// A call of `width` actuals, the first of them the next level: width nodes a level, and one.
    Call,
}

fn part(uses: bool) -> Core {
    if uses {
        Core::Var(SymId(X))
    } else {
        Core::Const(Word::Small(7))
    }
}

fn bound(alloc: Global, width: u32, uses: bool) -> Result<Items<(SymId, Core)>, AllocError> {
    let mut bindings = Items::new(alloc);
    for i in 0..width {
        let name = NAMES + i % 1_000_000;
        bindings.push((SymId(name), part(uses)))?;
    }
    Ok(bindings)
}

fn lets(alloc: Global, levels: u32, width: u32, uses: bool) -> Result<Core, AllocError> {
    let mut core = Core::Var(SymId(X));
    for _ in 0..levels {
        let body = Boxed::new(alloc, core)?;
        core = Core::Let(bound(alloc, width, uses)?, body);
    }
    Ok(core)
}

/// So many nested `IF`s in the place of tests.
fn test(alloc: Global, width: u32) -> Result<Core, AllocError> {
    let mut core = Core::Var(SymId(X));
    for _ in 0..width {
        let inner = Boxed::new(alloc, core)?;
        let yes = Boxed::new(alloc, part(true))?;
        let no = Boxed::new(alloc, part(false))?;
        core = Core::If(inner, yes, no);
    }
    Ok(core)
}

fn ifs(alloc: Global, levels: u32, width: u32) -> Result<Core, AllocError> {
    let mut core = Core::Var(SymId(X));
    for _ in 0..levels {
        let no = Boxed::new(alloc, core)?;
        let yes = Boxed::new(alloc, part(false))?;
        let test = Boxed::new(alloc, test(alloc, width)?)?;
        core = Core::If(test, yes, no);
    }
    Ok(core)
}

fn calls(alloc: Global, levels: u32, width: u32) -> Result<Core, AllocError> {
    let mut core = part(false);
    for _ in 0..levels {
        let mut actuals = Items::new(alloc);
        actuals.push(core)?;
        for _ in 1..width {
            actuals.push(part(false))?;
        }
        core = Core::Call(SymId(F), actuals);
    }
    Ok(core)
}

/// The form of this shape and size.
pub fn form(alloc: Global, shape: Shape, levels: u32, width: u32) -> Result<Core, AllocError> {
    match shape {
        Shape::Let => lets(alloc, levels, width, false),
        Shape::Uses => lets(alloc, levels, width, true),
        Shape::If => ifs(alloc, levels, width),
        Shape::Call => calls(alloc, levels, width),
    }
}
