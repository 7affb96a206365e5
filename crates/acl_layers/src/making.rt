//! Layers of a given shape.

ghost use Rattle.std.specs.Prelude.{◌≡◌, ◌≤◌, [], ◌∷◌, ◌++◌, length, max, map, IfOk, OnOk};
ghost use Rattle.model_expansion.specs.Layers as layers;
ghost use Rattle.acl_heap.specs.Objects.{object_of, Lies, reach};
ghost use Rattle.acl_layers.specs.Lists.{seen_left, LeftLies};
ghost use Rattle.acl_layers.specs.Layers.{seen_parts, parts_reach, PartsFit, StandsParts};

use crate::layer::{Found, Kind, Left, Made, Part, Ready};
use crate::lists::take;
use crate::words::{HIDDEN_VARIABLE, NIL_WORD};
use acl_base::{SymId, Word};
use acl_heap::Heap;
use sqlite_items::Items;
use std::alloc::{AllocError, Global};

pub const HIDDEN: Part = Part::Ready(Ready::Variable(HIDDEN_VARIABLE));

pub const FALSE: Part = Part::Ready(Ready::Constant(NIL_WORD));

/// A constant at the place.
pub fn leaf(value: Word) -> Made
    ensures { result ≡ Made.Stays (Found.Leaf (Ready.Constant value)) }
{
    Made::Stays(Found::Leaf(Ready::Constant(value)))
}

pub fn if_made(alloc: Global, test: Part, yes: Part, no: Part) -> Result<Made, AllocError>
    ensures { IfOk result (λ m. m ≡ Made.Stays (Found.Node Kind.If (test ∷ yes ∷ no ∷ []))) }
{
    let parts = Items::from_slice(alloc, &[test, yes, no])?;
    Ok(Made::Stays(Found::Node(Kind::If, parts)))
}

/// One variable that is bound to a form for another part.
pub fn let_one(alloc: Global, name: SymId, value: Word, body: Part) -> Result<Made, AllocError>
    ensures { IfOk result (λ m. m ≡ Made.Stays (Found.Node (Kind.Let (name ∷ [])) (Part.Form value ∷ body ∷ []))) }
{
    let names = Items::from_slice(alloc, &[name])?;
    let parts = Items::from_slice(alloc, &[Part::Form(value), body])?;
    Ok(Made::Stays(Found::Node(Kind::Let(names), parts)))
}

/// The hidden variable, bound to a form for another part.
pub fn hidden_let(alloc: Global, value: Word, body: Part) -> Result<Made, AllocError>
    ensures { IfOk result (λ m. m ≡ Made.Stays (Found.Node (Kind.Let (record { 0 = 195 } ∷ [])) (Part.Form value ∷ body ∷ []))) }
{
    let_one(alloc, HIDDEN_VARIABLE, value, body)
}

pub fn call_one(alloc: Global, function: SymId, part: Part) -> Result<Made, AllocError>
    ensures { IfOk result (λ m. m ≡ Made.Stays (Found.Node (Kind.Call function) (part ∷ []))) }
{
    let parts = Items::from_slice(alloc, &[part])?;
    Ok(Made::Stays(Found::Node(Kind::Call(function), parts)))
}

pub fn call_two(alloc: Global, function: SymId, a: Part, b: Part) -> Result<Made, AllocError>
    ensures { IfOk result (λ m. m ≡ Made.Stays (Found.Node (Kind.Call function) (a ∷ b ∷ []))) }
{
    let parts = Items::from_slice(alloc, &[a, b])?;
    Ok(Made::Stays(Found::Node(Kind::Call(function), parts)))
}

pub fn call_three(
    alloc: Global,
    function: SymId,
    a: Part,
    b: Part,
    c: Part,
) -> Result<Made, AllocError>
    ensures { IfOk result (λ m. m ≡ Made.Stays (Found.Node (Kind.Call function) (a ∷ b ∷ c ∷ []))) }
{
    let parts = Items::from_slice(alloc, &[a, b, c])?;
    Ok(Made::Stays(Found::Node(Kind::Call(function), parts)))
}

/// Puts a form last.
#[tactic(auto, using(crate::proofs::PartLemmas::form_pushed, crate::proofs::PartLemmas::reach_pushed, crate::proofs::PartLemmas::fits_pushed))]
pub fn push_form(_heap: &Heap, all: &mut Items<Part>, form: Word) -> Result<(), AllocError>
    ensures at { OnOk result (seen_parts _heap.now all.new ≡ seen_parts _heap.now all.old ++ layers.Form (object_of _heap.now form) ∷ []) }
    ensures reach { OnOk result (parts_reach all.new ≡ max (parts_reach all.old) (reach form)) }
    ensures fits { OnOk result (PartsFit _heap.now all.old → PartsFit _heap.now all.new) }
{
    all.push(Part::Form(form))?;
    Ok(())
}

/// All that is left, as forms.
#[tactic(auto, using(crate::proofs::PartLemmas::forms_step, crate::proofs::PartLemmas::forms_end, crate::proofs::PartLemmas::shorter))]
pub fn forms(alloc: Global, heap: &Heap, left: Left) -> Result<Items<Part>, AllocError>
    requires { LeftLies heap.now left }
    ensures { IfOk result (λ ps. StandsParts heap.now ps (map layers.Form (seen_left heap.now left))) }
{
    let mut all = Items::new(alloc);
    let mut at = left;
    'forms: while let Some((form, rest)) = take(heap, at) {
        push_form(heap, &mut all, form)?;
        at = rest;
    }
    Ok(all)
}
