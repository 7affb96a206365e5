//! How many cells fields, notes and nodes hold.
ghost use Rattle.std.specs.Prelude.{◌≡◌, ◌+◌, ◌<◌, ◌≤◌, ◌-◌, ◌*◌, ◌^◌, ◌++◌, length, replicate, take, slice_get, IsSomeAnd, IfSome};
ghost use Rattle.std.specs.List.{sum_by};
ghost use Rattle.model_objects.specs.Object.{cells};
ghost use Rattle.acl_heap.specs.Objects.{object_of, Lies};
ghost use Rattle.acl_owned.specs.Owned.{IsSum};
ghost use Rattle.acl_fields.specs.Fields.{IsFilled, IsSized, sized};
ghost use Rattle.acl_fields.specs.Held.{change_cells, noted_cells, part_cells, parts_cells};
ghost use Rattle.acl_fields.specs.Parts.{part_of};
ghost use Rattle.acl_fields.specs.Views.{parts_of};

use crate::change::Change;
use crate::node::Node;
use crate::notes::OldPart;
use crate::slot::Slot;
use acl_heap::Heap;
use acl_owned::{ObjectArray, OwnedObject};

fn both(a: u64, b: u64) -> Option<u64>
    ensures { IsSum result (a + b) }
{
    match a.checked_add(b) {
        Some(sum) => Some(sum),
        None => None,
    }
}

// The cells of the first elements, beside so many others.
#[tactic(auto, using(acl_owned::proofs::CountLemmas::count_step, crate::proofs::HeldLemmas::first_over))]
fn count_first(elements: &Vec<OwnedObject>, upto: usize, start: u64) -> Option<u64>
    requires { upto ≤ length elements.now.items }
    ensures { IsSum result (start + sum_by cells (take upto elements.now.items)) }
{
    let mut total = start;
    for i in 0..upto {
        match total.checked_add(elements[i].cells()) {
            Some(sum) => total = sum,
            None => return None,
        }
    }
    Some(total)
}

// The cells of so many copies of an object, beside so many others.
#[tactic(auto, using(crate::proofs::HeldLemmas::copies_counted, crate::proofs::HeldLemmas::copies_over))]
fn count_copies(cells_of: u64, count: usize, start: u64) -> Option<u64>
    ensures { IsSum result (start + count * cells_of) }
{
    match (count as u64).checked_mul(cells_of) {
        Some(more) => both(start, more),
        None => None,
    }
}

// The cells of an array cut or lengthened, beside so many others.
#[tactic(auto, using(crate::proofs::HeldLemmas::cut_sum, crate::proofs::HeldLemmas::long_sum, crate::proofs::HeldLemmas::long_over))]
fn count_stretched(a: &ObjectArray, heap: &Heap, count: usize, start: u64) -> Option<u64>
    requires { Lies heap.now a.now.initial }
    ensures { IsSum result (start + sum_by cells (take count a.now.elements.items ++ replicate (count - length a.now.elements.items) (object_of heap.now a.now.initial))) }
{
    let before = a.elements.len();
    if count < before {
        return count_first(&a.elements, count, start);
    }
    match a.counted(start) {
        Some(first) => count_copies(heap.cells(a.initial), count - before, first),
        None => None,
    }
}

impl Change {
    /// How many cells it brings.
    pub fn cells(&self) -> u64
        ensures { result ≡ change_cells self.now }
    {
        match self {
            Change::Put(_, e) => e.cells(),
            Change::Empty(_) => 0,
            Change::Clear => 0,
        }
    }
}

impl Slot {
    /// How many cells an array would hold if it were cut or lengthened, beside so many others, where all are fewer than 2^64.
    pub fn counted_sized(&self, heap: &Heap, length: usize, start: u64) -> Option<u64>
        requires sized { IsSized (part_of self.now) }
        requires filled { IsFilled heap.now (part_of self.now) }
        ensures { IsSum result (start + part_cells (sized heap.now (part_of self.now) length)) }
    {
        match self {
            Slot::Scalar(_) => unreachable!(),
            Slot::Bytes(_) => Some(start),
            Slot::Ints(_) => Some(start),
            Slot::Longs(_) => Some(start),
            Slot::General(_) => unreachable!(),
            Slot::Generals(a) => count_stretched(a, heap, length, start),
            Slot::Table(_) => unreachable!(),
            Slot::Child(_) => unreachable!(),
            Slot::Children(_) => unreachable!(),
        }
    }

    /// How many cells it holds beside so many others, where all are fewer than 2^64. It looks at each object of an array and each key.
    pub fn counted(&self, start: u64) -> Option<u64>
        ensures { IsSum result (start + part_cells (part_of self.now)) }
    {
        match self {
            Slot::Scalar(_) => Some(start),
            Slot::Bytes(_) => Some(start),
            Slot::Ints(_) => Some(start),
            Slot::Longs(_) => Some(start),
            Slot::General(o) => both(start, o.cells()),
            Slot::Generals(a) => a.counted(start),
            Slot::Table(m) => m.counted(start),
            Slot::Child(_) => Some(start),
            Slot::Children(_) => Some(start),
        }
    }

    /// How many cells it holds.
    #[tactic(auto, using(crate::proofs::HeldLemmas::sum_fits))]
    pub fn cells(&self) -> u64
        requires { part_cells (part_of self.now) < 2 ^ 64 }
        ensures { result ≡ part_cells (part_of self.now) }
    {
        match self.counted(0) {
            Some(cells) => cells,
            None => unreachable!(),
        }
    }
}

impl OldPart {
    /// How many cells it holds beside so many others, where all are fewer than 2^64.
    pub fn counted(&self, start: u64) -> Option<u64>
        ensures { IsSum result (start + noted_cells self.now) }
    {
        match self {
            OldPart::Element(_, _) => Some(start),
            OldPart::Held(_, o) => both(start, o.cells()),
            OldPart::Entry(held) => both(start, held.cells()),
            OldPart::Whole(slot) => slot.counted(start),
        }
    }

    /// How many cells it holds.
    #[tactic(auto, using(crate::proofs::HeldLemmas::sum_fits))]
    pub fn cells(&self) -> u64
        requires { noted_cells self.now < 2 ^ 64 }
        ensures { result ≡ noted_cells self.now }
    {
        match self.counted(0) {
            Some(cells) => cells,
            None => unreachable!(),
        }
    }
}

// The cells of all fields, beside so many others.
#[tactic(auto, using(acl_owned::proofs::CountLemmas::count_end, crate::proofs::HeldLemmas::slots_step, crate::proofs::HeldLemmas::slots_over))]
fn count_slots(slots: &Vec<Slot>, start: u64) -> Option<u64>
    ensures { IsSum result (start + sum_by (λ s. part_cells (part_of s)) slots.now.items) }
{
    let mut total = start;
    for i in 0..slots.len() {
        match slots[i].counted(total) {
            Some(sum) => total = sum,
            None => return None,
        }
    }
    Some(total)
}

impl Node {
    /// How many cells it holds beside so many others, where all are fewer than 2^64.
    #[tactic(auto, using(crate::proofs::HeldLemmas::slots_counted))]
    pub fn counted(&self, start: u64) -> Option<u64>
        ensures { IsSum result (start + parts_cells (parts_of self.now)) }
    {
        count_slots(&self.slots, start)
    }

    /// How many cells an array would hold if it were cut or lengthened, beside so many others, where all are fewer than 2^64.
    pub fn counted_sized(&self, heap: &Heap, field: usize, length: usize, start: u64) -> Option<u64>
        requires { IsSomeAnd (slice_get self.now.slots.items field) (λ s. IsSized (part_of s) × IsFilled heap.now (part_of s)) }
        ensures { IfSome (slice_get self.now.slots.items field) (λ s. IsSum result (start + part_cells (sized heap.now (part_of s) length))) }
    {
        self.slots[field].counted_sized(heap, length, start)
    }

    /// How many cells a field holds.
    pub fn cells(&self, field: usize) -> u64
        requires { IsSomeAnd (slice_get self.now.slots.items field) (λ s. part_cells (part_of s) < 2 ^ 64) }
        ensures { IfSome (slice_get self.now.slots.items field) (λ s. result ≡ part_cells (part_of s)) }
    {
        self.slots[field].cells()
    }
}
