//! Whether two words stand for one object.

ghost use Rattle.std.specs.Prelude.{IsTrue, ◌≡◌, IfOk, ◌↔◌, if◌then◌else◌};
ghost use Rattle.acl_heap.specs.Objects.{object_of, Lies};
ghost use Rattle.acl_heap.specs.Equal.{Compares, AllLie, AllSame};

use crate::{Heap, Seen};
use acl_base::Word;
use std::alloc::AllocError;

/// What one look at two words tells.
#[derive(Clone, Copy)]
enum Compared {
    Same,
    Apart,
    /// They are the same where their cars and their cdrs are.
    Parts((Word, Word), (Word, Word)),
}

fn same(yes: bool) -> Compared
    ensures { result ≡ (if yes then Compared.Same else Compared.Apart) }
{
    if yes { Compared::Same } else { Compared::Apart }
}

impl Heap {
    fn compare_parts(&self, x: Word, y: Word) -> Compared
        requires left { Lies self.now x }
        requires right { Lies self.now y }
        ensures { Compares self.now x y result }
    {
        match (self.look(x), self.look(y)) {
            (Seen::Integer(m), Seen::Integer(n)) => same(m == n),
            (Seen::Symbol(s), Seen::Symbol(t)) => same(s.0 == t.0),
            (Seen::Text(a), Seen::Text(b)) => same(a == b),
            (Seen::Pair(a, d), Seen::Pair(b, e)) => Compared::Parts((a, b), (d, e)),
            _ => Compared::Apart,
        }
    }

    fn compare(&self, x: Word, y: Word) -> Compared
        requires left { Lies self.now x }
        requires right { Lies self.now y }
        ensures { Compares self.now x y result }
    {
        if x == y {
            Compared::Same
        } else {
            self.compare_parts(x, y)
        }
    }

    /// Whether the two words stand for the same object. Equal words do, at once, and only pairs take memory.
    pub fn equal(&self, a: Word, b: Word) -> Result<bool, AllocError>
        requires left { Lies self.now a }
        requires right { Lies self.now b }
        ensures { IfOk result (λ yes. IsTrue yes ↔ (object_of self.now a ≡ object_of self.now b)) }
    {
        match self.compare(a, b) {
            Compared::Same => Ok(true),
            Compared::Apart => Ok(false),
            Compared::Parts(cars, cdrs) => {
                let mut work = Vec::new(self.alloc);
                work.push(cdrs)?;
                work.push(cars)?;
                let yes = self.all_equal(work)?;
                Ok(yes)
            }
        }
    }

    fn all_equal(&self, mut work: Vec<(Word, Word)>) -> Result<bool, AllocError>
        requires { AllLie self.now work.items }
        ensures { IfOk result (λ yes. IsTrue yes ↔ AllSame self.now work.items) }
    {
        while let Some((x, y)) = work.pop() {
            match self.compare(x, y) {
                Compared::Same => {}
                Compared::Apart => return Ok(false),
                Compared::Parts(cars, cdrs) => {
                    work.push(cdrs)?;
                    work.push(cars)?;
                }
            }
        }
        Ok(true)
    }
}
