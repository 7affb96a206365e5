//! Trees of a region copied into a heap.
ghost use Rattle.std.specs.Prelude.{◌≡◌, ◌≢◌, ◌++◌, ◌∷◌, ◌<◌, [], IfOk, OnOk, length, take};
ghost use Rattle.model_objects.specs.Object.{Pair};
ghost use Rattle.acl_heap.specs.Objects.{object_of, Lies, Denotes, Extends};
ghost use Rattle.acl_pool.specs.declared.cell.Kind.TheVariants.{Big, Str, Cons};
ghost use Rattle.acl_pool.specs.Trees.{bytes_of};
ghost use Rattle.acl_pool.specs.Unpacking.{Shows, AreLying, HasBytes, Visits, Joins, part_tree, part_object};

use crate::cell::{Kind, Part};
use crate::region::Region;
use acl_base::Word;
use acl_heap::Heap;
use std::alloc::{AllocError, Global};

/// What is still to be done.
#[derive(Clone, Copy)]
pub enum Task {
    /// To copy the tree of a part.
    Visit(Part),
    /// To make a pair of the two words that were made last.
    Join,
}

impl Region {
    /// Copies the tree of a part.
    pub fn copy_out(&self, alloc: Global, part: Part, heap: &mut Heap) -> Result<Word, AllocError>
        requires { Shows self.now part }
        ensures grows { Extends heap.old heap.new }
        ensures ok { IfOk result (λ w. Denotes heap.new w (part_object self.now part)) }
    {
        let mut tasks = Vec::new(alloc);
        let mut made = Vec::new(alloc);
        tasks.push(Task::Visit(part))?;
        while let Some(task) = tasks.pop() {
            match task {
                Task::Visit(part) => self.visit(alloc, part, heap, &mut tasks, &mut made)?,
                Task::Join => join(heap, &mut made)?,
            }
        }
        Ok(top(&mut made))
    }

    fn visit(
        &self,
        alloc: Global,
        part: Part,
        heap: &mut Heap,
        tasks: &mut Vec<Task>,
        made: &mut Vec<Word>,
    ) -> Result<(), AllocError>
        requires shows { Shows self.now part }
        requires lies { AreLying heap.old made.old.items }
        ensures grows { Extends heap.old heap.new }
        ensures ok { OnOk result (Visits self.now part heap.old heap.new tasks.old.items tasks.new.items made.old.items made.new.items) }
    {
        if part.is_pair() {
            let cell = self.read(part.bits);
            tasks.push(Task::Join)?;
            tasks.push(Task::Visit(cell.right()))?;
            tasks.push(Task::Visit(cell.left()))?;
        } else {
            let w = self.leaf(alloc, part, heap)?;
            made.push(w)?;
        }
        Ok(())
    }

    fn leaf(&self, alloc: Global, part: Part, heap: &mut Heap) -> Result<Word, AllocError>
        requires shows { Shows self.now part }
        requires leaf { part.kind ≢ Cons }
        ensures grows { Extends heap.old heap.new }
        ensures ok { IfOk result (λ w. Denotes heap.new w (part_object self.now part)) }
    {
        match part.kind {
            Kind::Small => Ok(part.word()),
            Kind::Sym => Ok(part.word()),
            Kind::Bits => unreachable!(),
            Kind::Heap => unreachable!(),
            Kind::Big => self.wide(part, heap),
            Kind::Str => self.text(alloc, part, heap),
            Kind::Cons => unreachable!(),
        }
    }

    fn wide(&self, part: Part, heap: &mut Heap) -> Result<Word, AllocError>
        requires shows { Shows self.now part }
        requires wide { part.kind ≡ Big }
        ensures grows { Extends heap.old heap.new }
        ensures ok { IfOk result (λ w. Denotes heap.new w (part_object self.now part)) }
    {
        let cell = self.read(part.bits);
        let bits = (cell.right as u128) * (1 << 64) + cell.left as u128;
        match heap.int(bits.cast_signed()) {
            Ok(w) => Ok(w),
            Err(_) => Err(AllocError),
        }
    }

    fn text(&self, alloc: Global, part: Part, heap: &mut Heap) -> Result<Word, AllocError>
        requires shows { Shows self.now part }
        requires text { part.kind ≡ Str }
        ensures grows { Extends heap.old heap.new }
        ensures ok { IfOk result (λ w. Denotes heap.new w (part_object self.now part)) }
    {
        let cell = self.read(part.bits);
        let bytes = self.read_bytes(alloc, cell.right(), cell.left as usize)?;
        match heap.string(&bytes) {
            Ok(w) => Ok(w),
            Err(_) => Err(AllocError),
        }
    }

    fn read_bytes(&self, alloc: Global, rest: Part, len: usize) -> Result<Vec<u8>, AllocError>
        requires { HasBytes self.now rest len }
        ensures { IfOk result (λ bytes. bytes.items ≡ take len (bytes_of (part_tree self.now rest))) }
    {
        let mut bytes = Vec::new(alloc);
        let mut rest = rest;
        let count = (len + 7) / 8;
        for _done in 0..count {
            let cell = self.read(rest.bits);
            bytes.extend_from_slice(&cell.left.to_le_bytes())?;
            rest = cell.right();
        }
        bytes.truncate(len);
        Ok(bytes)
    }
}

/// Takes the word that was made last.
fn top(made: &mut Vec<Word>) -> Word
    requires { 0 < length made.old.items }
    ensures { made.old.items ≡ made.new.items ++ result ∷ [] }
{
    match made.pop() {
        Some(w) => w,
        None => unreachable!(),
    }
}

fn join(heap: &mut Heap, made: &mut Vec<Word>) -> Result<(), AllocError>
    requires lies { AreLying heap.old made.old.items }
    requires two { 1 < length made.old.items }
    ensures grows { Extends heap.old heap.new }
    ensures ok { OnOk result (Joins heap.old heap.new made.old.items made.new.items) }
{
    let d = top(made);
    let a = top(made);
    let w = pair(heap, a, d)?;
    made.push(w)?;
    Ok(())
}

fn pair(heap: &mut Heap, a: Word, d: Word) -> Result<Word, AllocError>
    requires car { Lies heap.old a }
    requires cdr { Lies heap.old d }
    ensures grows { Extends heap.old heap.new }
    ensures ok { IfOk result (λ w. Denotes heap.new w (Pair (object_of heap.old a) (object_of heap.old d))) }
{
    match heap.cons(a, d) {
        Ok(w) => Ok(w),
        Err(_) => Err(AllocError),
    }
}
