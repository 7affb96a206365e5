//! What is noted of a field.
ghost use Rattle.std.specs.Prelude.{◌≡◌, ◌+◌, ◌<◌, ◌^◌, IsSomeAnd};
ghost use Rattle.model_objects.specs.Object.{cells};
ghost use Rattle.acl_maps.specs.Cells.{IsSuited};
ghost use Rattle.acl_maps.specs.Held.{place_cells};
ghost use Rattle.acl_fields.specs.Fields.{IsElement, IsHeld, table_in, with_held};
ghost use Rattle.acl_fields.specs.Notes.{IsNote, SuitsPart, back, retabled};
ghost use Rattle.acl_fields.specs.Held.{noted_cells, part_cells};
ghost use Rattle.acl_fields.specs.Parts.{part_of};

use crate::slot::Slot;
use acl_maps::HeldPlace;
use acl_owned::OwnedObject;
use std::mem::replace;

/// What was in a field.
#[derive(Drop)]
pub enum OldPart {
    /// The element of this index of an array.
    Element(usize, i64),
    /// The object of this index of an array.
    Held(usize, OwnedObject),
    /// What stood at a key of a hash field.
    Entry(HeldPlace),
    /// All of it.
    Whole(Slot),
}

impl Slot {
    /// A note of the integer of this index.
    pub fn noted(&self, index: usize) -> OldPart
        requires { IsElement (part_of self.now) index }
        ensures { IsNote result (part_of self.now) index }
    {
        match self {
            Slot::Scalar(v) => OldPart::Whole(Slot::Scalar(*v)),
            Slot::Bytes(a) => OldPart::Element(index, a.elements.get(index) as i64),
            Slot::Ints(a) => OldPart::Element(index, a.elements.get(index) as i64),
            Slot::Longs(a) => OldPart::Element(index, a.elements.get(index)),
            Slot::General(_) => unreachable!(),
            Slot::Generals(_) => unreachable!(),
            Slot::Table(_) => unreachable!(),
            Slot::Child(_) => unreachable!(),
            Slot::Children(_) => unreachable!(),
        }
    }

    /// Another object of this index, and a note of the one that was there. It takes no memory.
    #[tactic(auto, using(crate::proofs::NoteLemmas::held_note, crate::proofs::NoteLemmas::any_note))]
    pub fn exchange(&mut self, index: usize, o: OwnedObject) -> OldPart
        requires { IsHeld (part_of self.old) index }
        ensures held { part_of self.new ≡ with_held (part_of self.old) index o }
        ensures noted { IsNote result (part_of self.old) index }
    {
        match self {
            Slot::Scalar(_) => unreachable!(),
            Slot::Bytes(_) => unreachable!(),
            Slot::Ints(_) => unreachable!(),
            Slot::Longs(_) => unreachable!(),
            Slot::General(old) => OldPart::Whole(Slot::General(replace(old, o))),
            Slot::Generals(a) => OldPart::Held(index, a.exchange(index, o)),
            Slot::Table(_) => unreachable!(),
            Slot::Child(_) => unreachable!(),
            Slot::Children(_) => unreachable!(),
        }
    }

    // Puts what stood at a key of a hash field back, and tells how many cells what stands there takes, which ends.
    #[tactic(auto, using(crate::proofs::HeldLemmas::back_counted))]
    fn put_entry_back(&mut self, held: HeldPlace) -> u64
        requires { IsSomeAnd (table_in (part_of self.old)) (λ cs. IsSuited held cs) }
        ensures back { part_of self.new ≡ retabled (table_in (part_of self.old)) held (part_of self.old) }
        ensures gone { part_cells (retabled (table_in (part_of self.old)) held (part_of self.old)) + result ≡ part_cells (part_of self.old) + place_cells held }
    {
        match self {
            Slot::Scalar(_) => unreachable!(),
            Slot::Bytes(_) => unreachable!(),
            Slot::Ints(_) => unreachable!(),
            Slot::Longs(_) => unreachable!(),
            Slot::General(_) => unreachable!(),
            Slot::Generals(_) => unreachable!(),
            Slot::Table(m) => m.back(held),
            Slot::Child(_) => unreachable!(),
            Slot::Children(_) => unreachable!(),
        }
    }

    // Another object of this index, in place of one that ends, and how many cells that one takes.
    #[tactic(auto, using(crate::proofs::HeldLemmas::note_fits, crate::proofs::HeldLemmas::held_counted))]
    fn put_held_back(&mut self, index: usize, o: OwnedObject) -> u64
        requires held { IsHeld (part_of self.old) index }
        requires few { part_cells (part_of self.old) < 2 ^ 64 }
        ensures back { part_of self.new ≡ with_held (part_of self.old) index o }
        ensures gone { part_cells (with_held (part_of self.old) index o) + result ≡ part_cells (part_of self.old) + cells o }
    {
        let ended = self.exchange(index, o);
        ended.cells()
    }

    /// Puts a note back, and tells how many cells what it takes the place of takes, which ends.
    #[tactic(auto, using(crate::proofs::HeldLemmas::element_counted, crate::proofs::HeldLemmas::whole_counted))]
    pub fn back(&mut self, part: OldPart) -> u64
        requires suits { SuitsPart part (part_of self.old) }
        requires few { part_cells (part_of self.old) < 2 ^ 64 }
        ensures back { part_of self.new ≡ back part (part_of self.old) }
        ensures gone { part_cells (back part (part_of self.old)) + result ≡ part_cells (part_of self.old) + noted_cells part }
    {
        match part {
            OldPart::Element(index, value) => {
                self.put(index, value);
                0
            }
            OldPart::Held(index, o) => self.put_held_back(index, o),
            OldPart::Entry(held) => self.put_entry_back(held),
            OldPart::Whole(slot) => {
                let gone = self.cells();
                *self = slot;
                gone
            }
        }
    }
}
