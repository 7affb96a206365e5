//! Forms over a small world that are accepted or refused, one or two for each rule.

use crate::forms::{Step, built};
use crate::sizes::fits;
use crate::world::*;
use acl_base::SymId;
use acl_check::check_form;
use acl_heap::Heap;
use acl_terms::{Entry, Mode, Out, Rule, Scope, ThreadFault};
use acl_worlds::World;
use std::alloc::{AllocError, Global};
use std::test::*;

/// A form with its mode and expected outputs, and the rule that fails first, with its place.
#[derive(Clone, Copy)]
struct Row {
    form: &'static [Step],
    mode: Mode,
    outs: &'static [Out],
    fault: Option<(Rule, &'static [u32])>,
}

const O: Out = Out::Ordinary;

const S: Out = Out::Object(SymId(ST));

const K: Out = Out::Object(SymId(KID));

const P: Out = Out::Object(SymId(PAR));

const RUN: Mode = Mode::Executable;

macro_rules! accepted {
    ($form:expr, $outs:expr) => {
        Row {
            form: $form,
            mode: RUN,
            outs: $outs,
            fault: None,
        }
    };
}

macro_rules! refused {
    ($form:expr, $mode:expr, $outs:expr, $rule:expr, $place:expr) => {
        Row {
            form: $form,
            mode: $mode,
            outs: $outs,
            fault: Some(($rule, $place)),
        }
    };
}

static ROWS: [Row; 28] = [
    accepted!(&[Step::Var(ST)], &[S]),
    accepted!(&[Step::Number(5)], &[O]),
    accepted!(&[Step::Var(X)], &[O]),
    accepted!(
        &[
            Step::Var(X),
            Step::Var(ST),
            Step::Number(1),
            Step::Var(ST),
            Step::CallTwo(UPDATE),
            Step::If
        ],
        &[S]
    ),
    Row {
        form: &[Step::Var(X)],
        mode: Mode::Macro,
        outs: &[O],
        fault: None,
    },
    refused!(&[Step::Var(ST)], RUN, &[O], Rule::S3, &[]),
    refused!(&[Step::Number(5)], RUN, &[S], Rule::S8, &[]),
    refused!(&[Step::Var(V)], RUN, &[O], Rule::S11, &[]),
    refused!(&[Step::Var(ST)], Mode::Macro, &[S], Rule::S15, &[]),
    refused!(&[Step::Var(X), Step::Call(GET)], RUN, &[O], Rule::S1, &[0]),
    accepted!(&[Step::Var(ST), Step::Var(ST2), Step::CallTwo(BOTH)], &[O]),
    refused!(
        &[Step::Var(ST), Step::Var(ST), Step::CallTwo(BOTH)],
        RUN,
        &[O],
        Rule::S2,
        &[]
    ),
    refused!(
        &[Step::Var(PAR), Step::Call(KID_OF)],
        RUN,
        &[K],
        Rule::S12,
        &[]
    ),
    refused!(
        &[Step::Var(X), Step::Call(NOTED)],
        RUN,
        &[O],
        Rule::S16,
        &[]
    ),
    accepted!(
        &[
            Step::Number(1),
            Step::Var(ST),
            Step::CallTwo(UPDATE),
            Step::Number(5),
            Step::Var(ST),
            Step::Mv,
            Step::Let(ST)
        ],
        &[O, S]
    ),
    refused!(
        &[
            Step::Number(5),
            Step::Var(ST),
            Step::Var(X),
            Step::Var(ST),
            Step::Mv,
            Step::LetTwo(X, ST)
        ],
        RUN,
        &[O, S],
        Rule::S4,
        &[]
    ),
    refused!(
        &[Step::Number(5), Step::Var(ST), Step::Let(ST)],
        RUN,
        &[S],
        Rule::S5,
        &[]
    ),
    refused!(
        &[
            Step::Number(1),
            Step::Var(ST),
            Step::CallTwo(UPDATE),
            Step::Number(5),
            Step::Let(ST)
        ],
        RUN,
        &[O],
        Rule::S6,
        &[]
    ),
    refused!(
        &[Step::Var(X), Step::Var(ST), Step::Var(X), Step::If],
        RUN,
        &[S],
        Rule::S7,
        &[]
    ),
    accepted!(&[Step::Var(X), Step::Var(ST), Step::Mv], &[O, S]),
    refused!(
        &[Step::Var(ST), Step::Var(ST), Step::Mv],
        RUN,
        &[S, S],
        Rule::S9,
        &[]
    ),
    accepted!(
        &[
            Step::Var(ST),
            Step::Call(POP),
            Step::Var(ST),
            Step::MvLet(V, ST)
        ],
        &[S]
    ),
    refused!(
        &[
            Step::Var(X),
            Step::Var(X),
            Step::Call(GET),
            Step::CallTwo(PAIR)
        ],
        RUN,
        &[O],
        Rule::S1,
        &[1, 0]
    ),
    accepted!(
        &[
            Step::Var(PAR),
            Step::Call(KID_OF),
            Step::Var(KID),
            Step::Var(PAR),
            Step::Child(KID)
        ],
        &[P]
    ),
    refused!(
        &[
            Step::Var(PAR),
            Step::Var(KID),
            Step::Var(PAR),
            Step::Child(KID)
        ],
        RUN,
        &[P],
        Rule::S13,
        &[]
    ),
    accepted!(
        &[
            Step::Var(ST),
            Step::Call(POP),
            Step::Var(V),
            Step::Local(ST, V)
        ],
        &[O]
    ),
    refused!(
        &[Step::Number(5), Step::Var(V), Step::Local(ST, V)],
        RUN,
        &[O],
        Rule::S14,
        &[]
    ),
    refused!(
        &[
            Step::Var(ST),
            Step::Call(POP),
            Step::Var(V),
            Step::Local(ST, V)
        ],
        Mode::Logic,
        &[O],
        Rule::S16,
        &[]
    ),
];

/// The scope of st, st2, other, par and x.
pub fn scope(alloc: Global) -> Result<Scope, AllocError> {
    let mut scope = Scope::new(alloc);
    for x in [ST, ST2, OTHER, PAR] {
        scope.push(Entry {
            name: SymId(x),
            kind: Out::Object(SymId(x)),
        })?;
    }
    scope.push(Entry {
        name: SymId(X),
        kind: Out::Ordinary,
    })?;
    Ok(scope)
}

/// The answer to a row's form; want of memory where it is not small.
fn answer(alloc: Global, world: &World, row: &Row) -> Result<(), ThreadFault> {
    let heap = Heap::new(alloc);
    let scope = scope(alloc)?;
    let core = built(alloc, row.form)?;
    if fits(&core, &heap, 10) {
        check_form(alloc, world, &heap, row.mode, &scope, &core, row.outs)
    } else {
        Err(ThreadFault::Memory)
    }
}

/// The answer is the row's.
pub fn agrees(answer: Result<(), ThreadFault>, fault: Option<(Rule, &[u32])>) -> bool {
    match answer {
        Ok(()) => fault.is_none(),
        Err(ThreadFault::Memory) => false,
        Err(
            ThreadFault::Rule {
                rule: found,
                place: there,
            },
        ) => match fault {
            Some((rule, place)) => (found == rule) & (there.as_slice() == place),
            None => false,
        },
    }
}

#[test]
#[tactic(auto, using(acl_worlds::proofs::PrimitiveLemmas::no_primitives))]
fn rules(rt: HostRuntime) -> Result<(), Fail> {
    let alloc = rt.alloc();
    let mut world = World::new(alloc, &[])?;
    put_all(alloc, &mut world)?;
    for row in &ROWS {
        let holds = agrees(answer(alloc, &world, row), row.fault);
        assert!(rt; holds);
    }
    Ok(())
}
