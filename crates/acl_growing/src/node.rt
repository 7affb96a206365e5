//! A node with its parts.

ghost use Rattle.std.specs.Prelude.{◌≡◌, ◌≤◌, ◌<◌, ◌+◌, ◌++◌, ◌∷◌, [], length, map, IfOk};
ghost use Rattle.model_expansion.specs.Layers as layers;
ghost use Rattle.model_expansion.specs.Expansion.{core_of_node};
ghost use Rattle.acl_terms.specs.Forms.{numbers, seen_core, seen_cores, core_reach, most};
ghost use Rattle.acl_types.specs.Shapes.{IsCore};
ghost use Rattle.acl_layers.specs.Layers.{seen_kind};
ghost use Rattle.model_expansion_parts.specs.Parts.{HasParts};
ghost use Rattle.acl_growing.specs.Nodes.{divided};

use acl_base::{SymId, Word};
use acl_heap::Heap;
use acl_layers::Kind;
use acl_terms::Core;
use acl_types::constant;
use sqlite_items::{Boxed, Items};
use std::alloc::{AllocError, Global};

/// `NIL`.
const NIL: Word = Word::Sym(SymId(1));

/// The last part.
fn last(heap: &Heap, parts: &mut Vec<Core>) -> Core
    requires { 0 < length parts.old.items }
    ensures { parts.old.items ≡ parts.new.items ++ result ∷ [] }
{
    match parts.pop() {
        Some(part) => part,
        None => constant(heap, NIL),
    }
}

/// The only part.
#[tactic(auto, using(crate::proofs::NodeLemmas::only))]
fn one(heap: &Heap, parts: Vec<Core>) -> Core
    requires { length parts.items ≡ 1 }
    ensures { parts.items ≡ result ∷ [] }
{
    let mut parts = parts;
    last(heap, &mut parts)
}

/// The two parts.
#[tactic(auto, using(crate::proofs::NodeLemmas::front, crate::proofs::NodeLemmas::only))]
fn two(heap: &Heap, parts: Vec<Core>) -> (Core, Core)
    requires { length parts.items ≡ 2 }
    ensures { parts.items ≡ result.0 ∷ result.1 ∷ [] }
{
    let mut parts = parts;
    let second = last(heap, &mut parts);
    let first = one(heap, parts);
    (first, second)
}

/// The three parts.
#[tactic(auto, using(crate::proofs::NodeLemmas::front))]
fn three(heap: &Heap, parts: Vec<Core>) -> (Core, Core, Core)
    requires { length parts.items ≡ 3 }
    ensures { parts.items ≡ result.0 ∷ result.1 ∷ result.2 ∷ [] }
{
    let mut parts = parts;
    let third = last(heap, &mut parts);
    let (first, second) = two(heap, parts);
    (first, second, third)
}

#[tactic(auto, using(crate::proofs::NodeLemmas::if_node, crate::proofs::NodeLemmas::if_lies))]
fn if_node(alloc: Global, heap: &Heap, parts: Vec<Core>) -> Result<Core, AllocError>
    requires count { length parts.items ≡ 3 }
    requires lie { most (map core_reach parts.items) ≤ length heap.now }
    ensures { IfOk result (λ f. IsCore heap.now f (core_of_node layers.IfNode (seen_cores heap.now parts.items))) }
{
    let (test, yes, no) = three(heap, parts);
    let test = Boxed::new(alloc, test)?;
    let yes = Boxed::new(alloc, yes)?;
    let no = Boxed::new(alloc, no)?;
    Ok(Core::If(test, yes, no))
}

#[tactic(auto, using(crate::proofs::NodeLemmas::mv_let_node, crate::proofs::NodeLemmas::mv_let_lies))]
fn mv_let_node(
    alloc: Global,
    heap: &Heap,
    names: Items<SymId>,
    parts: Vec<Core>,
) -> Result<Core, AllocError>
    requires count { length parts.items ≡ 2 }
    requires lie { most (map core_reach parts.items) ≤ length heap.now }
    ensures { IfOk result (λ f. IsCore heap.now f (core_of_node (layers.MvLetNode (numbers names)) (seen_cores heap.now parts.items))) }
{
    let (form, body) = two(heap, parts);
    let form = Boxed::new(alloc, form)?;
    let body = Boxed::new(alloc, body)?;
    Ok(Core::MvLet(names, form, body))
}

#[tactic(auto, using(crate::proofs::NodeLemmas::local_node, crate::proofs::NodeLemmas::local_lies))]
fn local_node(
    alloc: Global,
    heap: &Heap,
    stobj: SymId,
    names: Items<SymId>,
    parts: Vec<Core>,
) -> Result<Core, AllocError>
    requires count { length parts.items ≡ 2 }
    requires lie { most (map core_reach parts.items) ≤ length heap.now }
    ensures { IfOk result (λ f. IsCore heap.now f (core_of_node (layers.WithLocalNode stobj.0 (numbers names)) (seen_cores heap.now parts.items))) }
{
    let (producer, body) = two(heap, parts);
    let producer = Boxed::new(alloc, producer)?;
    let body = Boxed::new(alloc, body)?;
    Ok(Core::WithLocal {
        stobj,
        names,
        producer,
        body,
    })
}

#[tactic(auto, using(crate::proofs::NodeLemmas::equal_node, crate::proofs::NodeLemmas::equal_lies))]
fn equal_node(alloc: Global, heap: &Heap, parts: Vec<Core>) -> Result<Core, AllocError>
    requires count { length parts.items ≡ 2 }
    requires lie { most (map core_reach parts.items) ≤ length heap.now }
    ensures { IfOk result (λ f. IsCore heap.now f (core_of_node layers.MustBeEqualNode (seen_cores heap.now parts.items))) }
{
    let (logic, exec) = two(heap, parts);
    let logic = Boxed::new(alloc, logic)?;
    let exec = Boxed::new(alloc, exec)?;
    Ok(Core::MustBeEqual(logic, exec))
}

/// Each of the first parts with a name, and the parts that are left.
#[tactic(auto, using(crate::proofs::DividedLemmas::named_end, crate::proofs::DividedLemmas::left_end, crate::proofs::DividedLemmas::named_first, crate::proofs::DividedLemmas::left_first, crate::proofs::DividedLemmas::named_past, crate::proofs::DividedLemmas::left_past))]
fn divided(
    alloc: Global,
    names: &[SymId],
    parts: Vec<Core>,
) -> Result<(Items<(SymId, Core)>, Vec<Core>), AllocError>
    ensures named { IfOk result (λ r. r.0 ≡ (divided names.now parts.items).0) }
    ensures left { IfOk result (λ r. r.1.items ≡ (divided names.now parts.items).1) }
{
    let mut bindings = Items::new(alloc);
    let mut left = Vec::new(alloc);
    let mut i = 0;
    'parts: for part in parts {
        if i < names.len() {
            bindings.push((names[i], part))?;
            i += 1;
        } else {
            left.push(part)?;
        }
    }
    Ok((bindings, left))
}

fn let_node(
    alloc: Global,
    heap: &Heap,
    names: Items<SymId>,
    parts: Vec<Core>,
) -> Result<Core, AllocError>
    requires count { length parts.items ≡ length names + 1 }
    requires lie { most (map core_reach parts.items) ≤ length heap.now }
    ensures { IfOk result (λ f. IsCore heap.now f (core_of_node (layers.LetNode (numbers names)) (seen_cores heap.now parts.items))) }
{
    let (bindings, left) = divided(alloc, names.as_slice(), parts)?;
    let body = one(heap, left);
    let body = Boxed::new(alloc, body)?;
    Ok(Core::Let(bindings, body))
}

fn stobj_let_node(
    alloc: Global,
    heap: &Heap,
    names: Items<SymId>,
    vars: Items<SymId>,
    parts: Vec<Core>,
) -> Result<Core, AllocError>
    requires count { length parts.items ≡ length names + 2 }
    requires lie { most (map core_reach parts.items) ≤ length heap.now }
    ensures { IfOk result (λ f. IsCore heap.now f (core_of_node (layers.StobjLetNode (numbers names) (numbers vars)) (seen_cores heap.now parts.items))) }
{
    let (bindings, left) = divided(alloc, names.as_slice(), parts)?;
    let (producer, consumer) = two(heap, left);
    let producer = Boxed::new(alloc, producer)?;
    let consumer = Boxed::new(alloc, consumer)?;
    Ok(Core::StobjLet {
        bindings,
        vars,
        producer,
        consumer,
    })
}

#[tactic(auto, using(acl_terms::specs::FormLaws::seen_mv, crate::proofs::NodeLemmas::reach_mv))]
fn mv_node(_heap: &Heap, parts: Vec<Core>) -> Core
    requires lie { most (map core_reach parts.items) ≤ length _heap.now }
    ensures { IsCore _heap.now result (core_of_node layers.MvNode (seen_cores _heap.now parts.items)) }
{
    Core::Mv(Items::from_vec(parts))
}

#[tactic(auto, using(acl_terms::specs::FormLaws::seen_call, acl_types::proofs::FormLemmas::reach_call))]
fn call_node(_heap: &Heap, function: SymId, parts: Vec<Core>) -> Core
    requires lie { most (map core_reach parts.items) ≤ length _heap.now }
    ensures { IsCore _heap.now result (core_of_node (layers.CallNode function.0) (seen_cores _heap.now parts.items)) }
{
    Core::Call(function, Items::from_vec(parts))
}

/// A node with its parts.
pub fn core_of_node(
    alloc: Global,
    heap: &Heap,
    kind: Kind,
    parts: Vec<Core>,
) -> Result<Core, AllocError>
    requires count { HasParts (seen_kind kind) (length parts.items) }
    requires lie { most (map core_reach parts.items) ≤ length heap.now }
    ensures { IfOk result (λ f. IsCore heap.now f (core_of_node (seen_kind kind) (seen_cores heap.now parts.items))) }
{
    match kind {
        Kind::If => if_node(alloc, heap, parts),
        Kind::Let(names) => let_node(alloc, heap, names, parts),
        Kind::Mv => Ok(mv_node(heap, parts)),
        Kind::MvLet(names) => mv_let_node(alloc, heap, names, parts),
        Kind::StobjLet { children, vars } => stobj_let_node(alloc, heap, children, vars, parts),
        Kind::WithLocal { stobj, names } => local_node(alloc, heap, stobj, names, parts),
        Kind::MustBeEqual => equal_node(alloc, heap, parts),
        Kind::Call(function) => Ok(call_node(heap, function, parts)),
    }
}
