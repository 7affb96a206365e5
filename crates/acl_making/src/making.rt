//! New nodes.
ghost use Rattle.std.specs.Prelude.{◌≡◌, ◌<◌, ◌^◌, length, map, slice_get, Some, IfOk};
ghost use Rattle.acl_nodes.specs.Making.{Extends};
ghost use Rattle.acl_fields.specs.Layouts.{AreLayouts, IsField, IsInitial};
ghost use Rattle.acl_making.specs.Making.{ChildrenFor, NodeFor, PartFor, PartsFor, one_of, many_of};
ghost use Rattle.acl_fields.specs.Parts.{part_of};
ghost use Rattle.acl_fields.specs.Views.{view};

use acl_base::{Field, Kind, Layout, LayoutId, Word};
use acl_fields::{Array, Node, Slot, number};
use acl_heap::Heap;
use acl_maps::ObjectMap;
use acl_owned::{ObjectArray, OwnedObject};
use std::alloc::{AllocError, Global};

/// Pushes the nodes of an object, its own last.
#[cycle(made)]
pub fn make(
    nodes: &mut Vec<Node>,
    alloc: Global,
    heap: &Heap,
    layouts: &[Layout],
    id: usize,
) -> Result<usize, AllocError>
    requires layouts { AreLayouts heap.now layouts.now }
    requires id { id < length layouts.now }
    ensures made { IfOk result (λ c. NodeFor heap.now layouts.now id (view nodes.old.items) (view nodes.new.items) c) }
    ensures kept { Extends (view nodes.old.items) (view nodes.new.items) }
{
    let layout = &layouts[id];
    let slots = make_slots(nodes, alloc, heap, layouts, id, layout)?;
    let c = nodes.len();
    nodes.push(Node {
        layout: LayoutId(id as u64),
        slots,
    })?;
    Ok(c)
}

// The fields of an object, whose nodes are pushed.
#[cycle(made)]
#[tactic(auto, using(acl_nodes::proofs::ExtendLemmas::extends_self, acl_nodes::proofs::ExtendLemmas::extends_then))]
fn make_slots(
    nodes: &mut Vec<Node>,
    alloc: Global,
    heap: &Heap,
    layouts: &[Layout],
    id: usize,
    layout: &Layout,
) -> Result<Vec<Slot>, AllocError>
    requires layouts { AreLayouts heap.now layouts.now }
    requires id { id < length layouts.now }
    requires is { slice_get layouts.now id ≡ Some layout.now }
    ensures made { IfOk result (λ v. PartsFor heap.now layouts.now layout.now.fields.items (view nodes.old.items) (view nodes.new.items) (map part_of v.items)) }
    ensures counted { IfOk result (λ v. length v.items ≡ length layout.now.fields.items) }
    ensures kept { Extends (view nodes.old.items) (view nodes.new.items) }
{
    let mut slots = Vec::new(alloc);
    for f in 0..layout.fields.len() {
        let field = field_at(heap, layouts, id, layout, f);
        let slot = make_slot(nodes, alloc, heap, layouts, id, field)?;
        slots.push(slot)?;
    }
    Ok(slots)
}

// A field of an object, whose nodes are pushed.
#[cycle(made)]
#[tactic(auto, using(acl_nodes::proofs::ExtendLemmas::extends_self))]
fn make_slot(
    nodes: &mut Vec<Node>,
    alloc: Global,
    heap: &Heap,
    layouts: &[Layout],
    id: usize,
    field: Field,
) -> Result<Slot, AllocError>
    requires layouts { AreLayouts heap.now layouts.now }
    requires id { id < length layouts.now }
    requires is { IsField heap.now id field }
    ensures made { IfOk result (λ s. PartFor heap.now layouts.now field (view nodes.old.items) (view nodes.new.items) (part_of s)) }
    ensures kept { Extends (view nodes.old.items) (view nodes.new.items) }
{
    match field {
        Field::Scalar(kind, w) => {
            let scalar = make_scalar(alloc, heap, kind, w)?;
            Ok(scalar)
        }
        Field::Array(kind, w, n, _) => {
            let array = make_array(alloc, heap, kind, w, n)?;
            Ok(array)
        }
        Field::Hash(_) => {
            let map = ObjectMap::new(alloc);
            Ok(Slot::Table(map))
        }
        Field::Child(c) => {
            let child = make(nodes, alloc, heap, layouts, c.0 as usize)?;
            Ok(Slot::Child(child))
        }
        Field::Children(c, n) => {
            let children = make_children(nodes, alloc, heap, layouts, c.0 as usize, n as usize)?;
            Ok(Slot::Children(children))
        }
    }
}

// So many objects of one layout, whose nodes are pushed.
#[cycle(made)]
#[tactic(auto, using(acl_nodes::proofs::ExtendLemmas::extends_self, acl_nodes::proofs::ExtendLemmas::extends_then))]
fn make_children(
    nodes: &mut Vec<Node>,
    alloc: Global,
    heap: &Heap,
    layouts: &[Layout],
    id: usize,
    n: usize,
) -> Result<Vec<usize>, AllocError>
    requires layouts { AreLayouts heap.now layouts.now }
    requires id { id < length layouts.now }
    ensures made { IfOk result (λ v. ChildrenFor heap.now layouts.now id n (view nodes.old.items) (view nodes.new.items) v.items) }
    ensures counted { IfOk result (λ v. length v.items ≡ n) }
    ensures kept { Extends (view nodes.old.items) (view nodes.new.items) }
{
    let mut children = Vec::new(alloc);
    for _ in 0..n {
        let c = make(nodes, alloc, heap, layouts, id)?;
        children.push(c)?;
    }
    Ok(children)
}

// A field of a layout.
fn field_at(_heap: &Heap, _layouts: &[Layout], id: usize, layout: &Layout, f: usize) -> Field
    requires layouts { AreLayouts _heap.now _layouts.now }
    requires is { slice_get _layouts.now id ≡ Some layout.now }
    requires f { f < length layout.now.fields.items }
    ensures there { slice_get layout.now.fields.items f ≡ Some result }
    ensures is { IsField _heap.now id result }
{
    layout.fields[f]
}

// A scalar field.
fn make_scalar(alloc: Global, heap: &Heap, kind: Kind, w: Word) -> Result<Slot, AllocError>
    requires { IsInitial heap.now kind w }
    ensures { IfOk result (λ s. part_of s ≡ one_of heap.now kind w) }
{
    match kind {
        Kind::Byte => Ok(Slot::Scalar(number(w))),
        Kind::I32 => Ok(Slot::Scalar(number(w))),
        Kind::I64 => Ok(Slot::Scalar(number(w))),
        Kind::General => {
            let o = OwnedObject::put(alloc, heap, w)?;
            Ok(Slot::General(o))
        }
    }
}

// An array of so many elements.
fn make_array(alloc: Global, heap: &Heap, kind: Kind, w: Word, n: u32) -> Result<Slot, AllocError>
    requires { IsInitial heap.now kind w }
    ensures fits { IfOk result (λ _. n < 2 ^ 32) }
    ensures array { IfOk result (λ s. part_of s ≡ many_of heap.now kind w n) }
{
    let initial = number(w);
    match kind {
        Kind::Byte => {
            let array = Array::filled(alloc, n as usize, initial as u8)?;
            Ok(Slot::Bytes(array))
        }
        Kind::I32 => {
            let array = Array::filled(alloc, n as usize, initial as i32)?;
            Ok(Slot::Ints(array))
        }
        Kind::I64 => {
            let array = Array::filled(alloc, n as usize, initial)?;
            Ok(Slot::Longs(array))
        }
        Kind::General => {
            let array = ObjectArray::filled(alloc, heap, w, n as usize)?;
            Ok(Slot::Generals(array))
        }
    }
}
