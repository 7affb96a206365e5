//! Functions, macros, constants and expressions over the small world that are accepted or refused, and signatures that are
//! found in rounds.

ghost use Rattle.std.specs.Prelude.{IfOk};
ghost use Rattle.std.specs.List.{All};
ghost use Rattle.acl_thread.specs.Sizes.{Fits};
ghost use Rattle.acl_check.specs.Members.{FitsMember};

use crate::forms::{Step, built};
use crate::rows::{agrees, scope};
use crate::sizes::fits;
use crate::world::*;
use acl_base::SymId;
use acl_check::{Member, check_clique, check_constant, check_expression, check_macro, clique};
use acl_heap::Heap;
use acl_terms::{Core, MacroFormals, Out, Rule, Signature, ThreadFault};
use acl_worlds::World;
use sqlite_items::Items;
use std::alloc::{AllocError, Global};
use std::test::*;

/// A function as it is written.
#[derive(Clone, Copy)]
struct Written {
    name: u32,
    formals: &'static [SymId],
    stobjs: &'static [SymId],
    guard: &'static [Step],
    body: &'static [Step],
}

/// Functions that are admitted together, and the rule that fails first, with its place.
#[derive(Clone, Copy)]
struct Row {
    functions: &'static [Written],
    fault: Option<(Rule, &'static [u32])>,
}

const ONE: &[Step] = &[Step::Number(1)];

/// A function that gives a number and its object.
const POPS: Written = Written {
    name: POP,
    formals: &[SymId(ST)],
    stobjs: &[SymId(ST)],
    guard: ONE,
    body: &[Step::Number(5), Step::Var(ST), Step::Mv],
};

static ROWS: [Row; 8] = [
    Row {
        functions: &[POPS],
        fault: None,
    },
    Row {
        functions: &[Written {
            stobjs: &[],
            ..POPS
        }],
        fault: Some((Rule::S10, &[0])),
    },
    Row {
        functions: &[Written {
            name: PAIR,
            formals: &[SymId(X), SymId(V)],
            stobjs: &[SymId(X)],
            guard: ONE,
            body: ONE,
        }],
        fault: Some((Rule::S10, &[0])),
    },
    Row {
        functions: &[
            POPS,
            Written {
                name: BOTH,
                formals: &[SymId(ST), SymId(ST2)],
                stobjs: &[SymId(ST)],
                guard: ONE,
                body: ONE,
            },
        ],
        fault: Some((Rule::S10, &[1])),
    },
    Row {
        functions: &[Written {
            guard: &[Step::Var(X)],
            ..POPS
        }],
        fault: Some((Rule::S11, &[0, 0])),
    },
    Row {
        functions: &[Written {
            body: &[Step::Var(ST)],
            ..POPS
        }],
        fault: Some((Rule::S8, &[0, 1])),
    },
    Row {
        functions: &[Written {
            name: NOTED,
            formals: &[SymId(X)],
            stobjs: &[],
            guard: ONE,
            body: &[Step::Var(X), Step::Call(NOTED)],
        }],
        fault: None,
    },
    Row {
        functions: &[Written {
            name: NOTED,
            formals: &[SymId(X)],
            stobjs: &[],
            guard: ONE,
            body: &[Step::Var(V)],
        }],
        fault: Some((Rule::S11, &[0, 1])),
    },
];

/// The form; where it is not small, a variable that nothing binds.
#[tactic(auto, using(crate::proofs::DefinitionLemmas::small_is_fit, crate::proofs::DefinitionLemmas::variable_is_fit))]
fn small_form(alloc: Global, heap: &Heap, steps: &[Step]) -> Result<Core, AllocError>
    ensures { IfOk result (λ f. Fits heap.now f) }
{
    let core = built(alloc, steps)?;
    if fits(&core, heap, 10) {
        Ok(core)
    } else {
        Ok(Core::Var(SymId(0)))
    }
}

#[tactic(auto, using(crate::proofs::DefinitionLemmas::member_is_fit))]
fn member(alloc: Global, heap: &Heap, written: &Written) -> Result<Member, AllocError>
    ensures { IfOk result (λ m. FitsMember heap.now m) }
{
    let formals = Items::from_slice(alloc, written.formals)?;
    let stobjs = Items::from_slice(alloc, written.stobjs)?;
    let guard = small_form(alloc, heap, written.guard)?;
    let body = small_form(alloc, heap, written.body)?;
    Ok(Member {
        name: SymId(written.name),
        formals,
        stobjs,
        guard,
        body,
    })
}

#[tactic(auto, using(crate::proofs::DefinitionLemmas::none_yet, crate::proofs::DefinitionLemmas::one_more))]
fn members(alloc: Global, heap: &Heap, functions: &[Written]) -> Result<Vec<Member>, AllocError>
    ensures { IfOk result (λ ms. All (FitsMember heap.now) ms.items) }
{
    let mut members = Vec::new(alloc);
    for written in functions {
        let one = member(alloc, heap, written)?;
        members.push(one)?;
    }
    Ok(members)
}

/// The answer to functions.
fn checked(alloc: Global, world: &World, functions: &[Written]) -> Result<(), ThreadFault> {
    let heap = Heap::new(alloc);
    let members = members(alloc, &heap, functions)?;
    if (members.len() == functions.len()) & (members.len() < 10) {
        check_clique(alloc, world, &heap, members.as_slice())
    } else {
        Err(ThreadFault::Memory)
    }
}

#[test]
#[tactic(auto, using(acl_worlds::proofs::PrimitiveLemmas::no_primitives))]
fn functions_together(rt: HostRuntime) -> Result<(), Fail> {
    let alloc = rt.alloc();
    let mut world = World::new(alloc, &[])?;
    put_all(alloc, &mut world)?;
    for row in &ROWS {
        let holds = agrees(checked(alloc, &world, row.functions), row.fault);
        assert!(rt; holds);
    }
    Ok(())
}

/// Two functions that call each other, of which the second is known in the second round alone.
static CALLING: [Written; 2] = [
    Written {
        name: 200,
        formals: &[SymId(ST)],
        stobjs: &[SymId(ST)],
        guard: ONE,
        body: &[
            Step::Var(ST),
            Step::Call(GET),
            Step::Var(ST),
            Step::Call(201),
            Step::Number(1),
            Step::Var(ST),
            Step::CallTwo(UPDATE),
            Step::If,
        ],
    },
    Written {
        name: 201,
        formals: &[SymId(ST)],
        stobjs: &[SymId(ST)],
        guard: ONE,
        body: &[Step::Var(ST), Step::Call(200)],
    },
];

fn is_from_object_to_object(signature: &Signature) -> bool {
    let st = [Out::Object(SymId(ST))];
    (signature.ins.as_slice() == st.as_slice()) & (signature.outs.as_slice() == st.as_slice())
}

#[test]
#[tactic(auto, using(acl_worlds::proofs::PrimitiveLemmas::no_primitives))]
fn signatures_in_rounds(rt: HostRuntime) -> Result<(), Fail> {
    let alloc = rt.alloc();
    let heap = Heap::new(alloc);
    let mut world = World::new(alloc, &[])?;
    put_all(alloc, &mut world)?;
    let members = members(alloc, &heap, &CALLING)?;
    let signatures = clique(alloc, &world, &heap, members.as_slice())?;
    assert!(rt; signatures.len() == 2);
    for signature in signatures.as_slice() {
        let holds = is_from_object_to_object(signature);
        assert!(rt; holds);
    }
    Ok(())
}

/// Forms of constants, and the rule that fails first.
static CONSTANTS: [(&[Step], Option<(Rule, &[u32])>); 4] = [
    (&[Step::Number(5)], None),
    (
        &[Step::Number(5), Step::Number(6), Step::CallTwo(PAIR)],
        None,
    ),
    (&[Step::Var(V)], Some((Rule::S11, &[]))),
    (&[Step::Var(ST)], Some((Rule::S15, &[]))),
];

fn constant(alloc: Global, world: &World, form: &[Step]) -> Result<(), ThreadFault> {
    let heap = Heap::new(alloc);
    let core = built(alloc, form)?;
    if fits(&core, &heap, 10) {
        check_constant(alloc, world, &heap, &core)
    } else {
        Err(ThreadFault::Memory)
    }
}

#[test]
#[tactic(auto, using(acl_worlds::proofs::PrimitiveLemmas::no_primitives))]
fn constants(rt: HostRuntime) -> Result<(), Fail> {
    let alloc = rt.alloc();
    let mut world = World::new(alloc, &[])?;
    put_all(alloc, &mut world)?;
    for row in &CONSTANTS {
        let holds = agrees(constant(alloc, &world, row.0), row.1);
        assert!(rt; holds);
    }
    Ok(())
}

/// What a form gives.
fn outputs_of(alloc: Global, world: &World, form: &[Step]) -> Result<Items<Out>, ThreadFault> {
    let heap = Heap::new(alloc);
    let scope = scope(alloc)?;
    let core = built(alloc, form)?;
    if fits(&core, &heap, 10) {
        check_expression(alloc, world, &heap, &scope, &core)
    } else {
        Err(ThreadFault::Memory)
    }
}

fn gives(answer: Result<Items<Out>, ThreadFault>, outputs: &[Out]) -> bool {
    match answer {
        Ok(found) => found.as_slice() == outputs,
        Err(_) => false,
    }
}

#[test]
#[tactic(auto, using(acl_worlds::proofs::PrimitiveLemmas::no_primitives))]
fn expressions(rt: HostRuntime) -> Result<(), Fail> {
    let alloc = rt.alloc();
    let mut world = World::new(alloc, &[])?;
    put_all(alloc, &mut world)?;
    let st = Out::Object(SymId(ST));
    let popped = outputs_of(alloc, &world, &[Step::Var(ST), Step::Call(POP)]);
    assert!(rt; gives(popped, &[Out::Ordinary, st]));
    let object = outputs_of(alloc, &world, &[Step::Var(ST2)]);
    assert!(rt; gives(object, &[Out::Object(SymId(ST2))]));
    let number = outputs_of(alloc, &world, &[Step::Number(5)]);
    assert!(rt; gives(number, &[Out::Ordinary]));
    let twice = outputs_of(alloc, &world, &[Step::Var(ST), Step::Var(ST), Step::Mv]);
    let refused = match twice {
        Ok(_) => false,
        Err(ThreadFault::Memory) => false,
        Err(ThreadFault::Rule { rule, .. }) => rule == Rule::S9,
    };
    assert!(rt; refused);
    Ok(())
}

/// Macros of one formal, and the rule that fails first.
static MACROS: [(u32, &[Step], Option<(Rule, &[u32])>); 4] = [
    (X, &[Step::Var(X)], None),
    (ST, ONE, Some((Rule::S15, &[0]))),
    (X, &[Step::Var(ST)], Some((Rule::S15, &[0, 1]))),
    (X, &[Step::Var(V)], Some((Rule::S11, &[0, 1]))),
];

fn macro_answer(
    alloc: Global,
    world: &World,
    formal: u32,
    body: &[Step],
) -> Result<(), ThreadFault> {
    let heap = Heap::new(alloc);
    let formals = MacroFormals {
        required: Items::from_slice(alloc, &[SymId(formal)])?,
        optional: Items::new(alloc),
        rest: None,
        keys: None,
    };
    let body = built(alloc, body)?;
    if fits(&body, &heap, 10) {
        check_macro(alloc, world, &heap, &formals, &body)
    } else {
        Err(ThreadFault::Memory)
    }
}

#[test]
#[tactic(auto, using(acl_worlds::proofs::PrimitiveLemmas::no_primitives))]
fn macros(rt: HostRuntime) -> Result<(), Fail> {
    let alloc = rt.alloc();
    let mut world = World::new(alloc, &[])?;
    put_all(alloc, &mut world)?;
    for row in &MACROS {
        let holds = agrees(macro_answer(alloc, &world, row.0, row.1), row.2);
        assert!(rt; holds);
    }
    Ok(())
}
