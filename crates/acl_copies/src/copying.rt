//! A form in memory of its own.

ghost use Rattle.std.specs.Prelude.{◌≡◌, IfOk};

use acl_base::SymId;
use acl_terms::Core;
use sqlite_items::{Boxed, Items};
use std::alloc::{AllocError, Global};

/// How deep a form may be that is copied.
const DEEPEST: u32 = 2_048;

/// A form of at most so many levels, in memory of its own. A deeper one is refused as memory is.
#[cycle(copy)]
fn copied(alloc: Global, core: &Core, left: u32) -> Result<Core, AllocError>
    ensures { IfOk result (λ f. f ≡ core.now) }
{
    if left == 0 {
        return Err(AllocError);
    }
    let under = left - 1;
    match core {
        Core::Var(x) => Ok(Core::Var(*x)),
        Core::Const(word) => Ok(Core::Const(*word)),
        Core::If(a, b, c) => {
            let test = boxed(alloc, a.get(), under)?;
            let yes = boxed(alloc, b.get(), under)?;
            let no = boxed(alloc, c.get(), under)?;
            Ok(Core::If(test, yes, no))
        }
        Core::Let(bindings, body) => {
            let bound = bound_copied(alloc, bindings.as_slice(), under)?;
            let last = boxed(alloc, body.get(), under)?;
            Ok(Core::Let(bound, last))
        }
        Core::Mv(parts) => {
            let all = parts_copied(alloc, parts.as_slice(), under)?;
            Ok(Core::Mv(all))
        }
        Core::MvLet(names, given, body) => {
            let same = Items::from_slice(alloc, names.as_slice())?;
            let first = boxed(alloc, given.get(), under)?;
            let last = boxed(alloc, body.get(), under)?;
            Ok(Core::MvLet(same, first, last))
        }
        Core::StobjLet {
            bindings,
            vars,
            producer,
            consumer,
        } => {
            let bound = bound_copied(alloc, bindings.as_slice(), under)?;
            let same = Items::from_slice(alloc, vars.as_slice())?;
            let first = boxed(alloc, producer.get(), under)?;
            let last = boxed(alloc, consumer.get(), under)?;
            Ok(Core::StobjLet {
                bindings: bound,
                vars: same,
                producer: first,
                consumer: last,
            })
        }
        Core::WithLocal {
            stobj,
            names,
            producer,
            body,
        } => {
            let same = Items::from_slice(alloc, names.as_slice())?;
            let first = boxed(alloc, producer.get(), under)?;
            let last = boxed(alloc, body.get(), under)?;
            Ok(Core::WithLocal {
                stobj: *stobj,
                names: same,
                producer: first,
                body: last,
            })
        }
        Core::MustBeEqual(logic, exec) => {
            let first = boxed(alloc, logic.get(), under)?;
            let last = boxed(alloc, exec.get(), under)?;
            Ok(Core::MustBeEqual(first, last))
        }
        Core::Call(function, actuals) => {
            let all = parts_copied(alloc, actuals.as_slice(), under)?;
            Ok(Core::Call(*function, all))
        }
    }
}

/// The same at a place of its own.
#[cycle(copy)]
fn boxed(alloc: Global, core: &Core, left: u32) -> Result<Boxed<Core>, AllocError>
    ensures { IfOk result (λ f. f ≡ core.now) }
{
    let copy = copied(alloc, core, left)?;
    let place = Boxed::new(alloc, copy)?;
    Ok(place)
}

/// The same of forms in a row.
#[cycle(copy)]
fn parts_copied(alloc: Global, parts: &[Core], left: u32) -> Result<Items<Core>, AllocError>
    ensures { IfOk result (λ fs. fs ≡ parts.now) }
{
    let mut done = Items::new(alloc);
    'parts: for part in parts {
        let copy = copied(alloc, part, left)?;
        done.push(copy)?;
    }
    Ok(done)
}

/// The same of names and what is bound to each.
#[cycle(copy)]
fn bound_copied(
    alloc: Global,
    bindings: &[(SymId, Core)],
    left: u32,
) -> Result<Items<(SymId, Core)>, AllocError>
    ensures { IfOk result (λ bs. bs ≡ bindings.now) }
{
    let mut done = Items::new(alloc);
    'bindings: for binding in bindings {
        let copy = copied(alloc, &binding.1, left)?;
        done.push((binding.0, copy))?;
    }
    Ok(done)
}

/// An equal form in memory of its own. One of more than 2,048 levels is refused as memory is.
pub fn copy_core(alloc: Global, core: &Core) -> Result<Core, AllocError>
    ensures { IfOk result (λ f. f ≡ core.now) }
{
    let copy = copied(alloc, core, DEEPEST)?;
    Ok(copy)
}
