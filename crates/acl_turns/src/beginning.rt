//! A term begins, whatever it is.

ghost use Rattle.std.specs.Prelude.{◌≡◌, MatchOption, Some, length, slice_get, OnOk, OnErr};
ghost use Rattle.acl_worlds.specs.Contents.{WorldLies};
ghost use Rattle.acl_code.specs.declared.term.Term.TheVariants as term;
ghost use Rattle.acl_code.specs.Tables.{tree_at};
ghost use Rattle.acl_machine.specs.declared.frame.Control.TheVariants as control;
ghost use Rattle.acl_machine.specs.Constants.{ConstantsAreWhole};
ghost use Rattle.acl_machine.specs.Keeping.{TurnsTo, MayGo, StillKeeps};
ghost use Rattle.acl_machine.specs.Steps.{IsOwn, IsOpenedAlone, IsSound};
ghost use Rattle.acl_machine.specs.Views.{around};
ghost use Rattle.acl_turns.specs.Asking.{AsksBeginning};

use acl_base::{SymId, TermId};
use acl_code::{Term, Terms};
use acl_heap::Heap;
use acl_keep::Keeper;
use acl_machine::{Machine, whole};
use acl_object_turns::begin_local;
use acl_syms::Symbols;
use acl_worlds::World;
use std::alloc::AllocError;

/// A term that makes an object: its slot, the object, and what comes.
#[derive(Clone, Copy)]
struct Local {
    at: u64,
    stobj: SymId,
    producer: TermId,
    body: TermId,
}

/// The term of this number, where it makes an object.
#[tactic(auto, using(crate::proofs::TermLemmas::alone_by, crate::proofs::TermLemmas::alone_past, acl_machine::proofs::TermLemmas::own_part))]
fn local_at(terms: &Terms, t: TermId) -> Option<Local>
    requires { IsOwn (slice_get terms.now t.0) }
    ensures { MatchOption result (IsOpenedAlone (slice_get terms.now t.0)) (λ l. slice_get terms.now t.0 ≡ Some (term.WithLocal l.at l.stobj l.producer l.body)) }
{
    if t.0 >= terms.len() {
        return None;
    }
    match terms.term(t) {
        Term::Slot(_) => None,
        Term::Const(_) => None,
        Term::Part(_) => unreachable!(),
        Term::If { .. } => None,
        Term::Let { .. } => None,
        Term::Mv { .. } => None,
        Term::MvLet { .. } => None,
        Term::StobjLet { .. } => None,
        Term::WithLocal {
            at,
            stobj,
            producer,
            body,
        } => Some(Local {
            at: *at,
            stobj: *stobj,
            producer: *producer,
            body: *body,
        }),
        Term::MustBeEqual(_) => None,
        Term::Call { .. } => None,
    }
}

/// A term begins that makes no object.
#[tactic(auto, using(crate::proofs::QuietLemmas::turns_by_begin))]
fn begin_alone<K: Keeper>(
    machine: &mut Machine,
    keeper: &mut K,
    world: &World,
    terms: &Terms,
    heap: &Heap,
    syms: &Symbols,
    limit: u64,
    t: TermId,
    base: u64,
) -> Result<(), AllocError>
    requires begins { machine.old.control ≡ control.Begin t base }
    requires own { IsOpenedAlone (slice_get terms.now t.0) }
    requires constants { ConstantsAreWhole syms.now heap.now terms.now }
    requires sound { IsSound syms.now heap.now machine.old }
    requires keeper { K.IsSound keeper.old heap.now world.now (length syms.now.symbols) }
    ensures turns { OnOk result (TurnsTo K.keeping (K.Keeps keeper.old) (K.Keeps keeper.new) (around heap.now world.now terms.now syms.now limit) (around heap.now world.now terms.now syms.now limit) machine.old machine.new) }
    ensures err { OnErr result (StillKeeps (K.Keeps keeper.old) (K.Keeps keeper.new)) }
    ensures sound { OnOk result (IsSound syms.now heap.now machine.new) }
    ensures keeper_sound { K.IsSound keeper.new heap.now world.now (length syms.now.symbols) }
{
    machine.begin(keeper, world, terms, heap, syms, limit, t, base)?;
    Ok(())
}

/// A term begins that stands for itself.
#[tactic(auto, using(crate::proofs::AskLemmas::may_make))]
fn begin_own<K: Keeper>(
    machine: &mut Machine,
    keeper: &mut K,
    world: &World,
    terms: &Terms,
    heap: &Heap,
    syms: &Symbols,
    limit: u64,
    t: TermId,
    base: u64,
) -> Result<(), AllocError>
    requires begins { machine.old.control ≡ control.Begin t base }
    requires own { IsOwn (slice_get terms.now t.0) }
    requires world { WorldLies heap.now world.now }
    requires constants { ConstantsAreWhole syms.now heap.now terms.now }
    requires may { MayGo (K.Keeps keeper.old) (AsksBeginning K.MayMake (around heap.now world.now terms.now syms.now limit) (tree_at heap.now terms.now t)) machine.old }
    requires sound { IsSound syms.now heap.now machine.old }
    requires keeper { K.IsSound keeper.old heap.now world.now (length syms.now.symbols) }
    ensures turns { OnOk result (TurnsTo K.keeping (K.Keeps keeper.old) (K.Keeps keeper.new) (around heap.now world.now terms.now syms.now limit) (around heap.now world.now terms.now syms.now limit) machine.old machine.new) }
    ensures err { OnErr result (StillKeeps (K.Keeps keeper.old) (K.Keeps keeper.new)) }
    ensures sound { OnOk result (IsSound syms.now heap.now machine.new) }
    ensures keeper_sound { K.IsSound keeper.new heap.now world.now (length syms.now.symbols) }
{
    terms.is_table();
    match local_at(terms, t) {
        Some(local) => begin_local(
            machine,
            keeper,
            world,
            terms,
            heap,
            syms,
            limit,
            t,
            base,
            local.at,
            local.stobj,
            local.producer,
            local.body,
        ),
        None => begin_alone(machine, keeper, world, terms, heap, syms, limit, t, base),
    }
}

/// A term begins.
#[tactic(auto, using(crate::proofs::OwnLemmas::sound_own, crate::proofs::OwnLemmas::may_own, crate::proofs::OwnLemmas::turns_own))]
pub fn begin<K: Keeper>(
    machine: &mut Machine,
    keeper: &mut K,
    world: &World,
    terms: &Terms,
    heap: &Heap,
    syms: &Symbols,
    limit: u64,
    t: TermId,
    base: u64,
) -> Result<(), AllocError>
    requires begins { machine.old.control ≡ control.Begin t base }
    requires world { WorldLies heap.now world.now }
    requires constants { ConstantsAreWhole syms.now heap.now terms.now }
    requires may { MayGo (K.Keeps keeper.old) (AsksBeginning K.MayMake (around heap.now world.now terms.now syms.now limit) (tree_at heap.now terms.now t)) machine.old }
    requires sound { IsSound syms.now heap.now machine.old }
    requires keeper { K.IsSound keeper.old heap.now world.now (length syms.now.symbols) }
    ensures turns { OnOk result (TurnsTo K.keeping (K.Keeps keeper.old) (K.Keeps keeper.new) (around heap.now world.now terms.now syms.now limit) (around heap.now world.now terms.now syms.now limit) machine.old machine.new) }
    ensures err { OnErr result (StillKeeps (K.Keeps keeper.old) (K.Keeps keeper.new)) }
    ensures sound { OnOk result (IsSound syms.now heap.now machine.new) }
    ensures keeper_sound { K.IsSound keeper.new heap.now world.now (length syms.now.symbols) }
{
    let own = whole(terms, heap, t);
    machine.begin_term(own, base);
    begin_own(machine, keeper, world, terms, heap, syms, limit, own, base)?;
    Ok(())
}
