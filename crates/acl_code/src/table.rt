//! The table of terms.

ghost use Rattle.std.specs.Prelude.{◌≡◌, ◌≤◌, ◌<◌, ℕ, [], ◌∷◌, ◌++◌, length, take, Some, slice_get, IfOk, OnOk, OnErr};
ghost use Rattle.acl_heap.specs.Objects.{Objects};
ghost use Rattle.acl_code.specs.Constants.{TermIsKnown, ConstantsAreKnown};
ghost use Rattle.acl_code.specs.Tables.{StandsOver, IsTable};

use crate::term::Term;
use acl_base::TermId;
use std::alloc::{AllocError, Global};
use std::marker::Model;

/// Terms by their numbers, each behind its parts.
#[derive(Debug, Drop)]
pub struct Terms {
    terms: Vec<Term>,
}

impl Model for Terms {
    ghost use Rattle.std.specs.Prelude.{List};
    ghost use Rattle.acl_code.specs.declared.term.Term.{Term};
    ghost use Rattle.acl_code.specs.Tables.{IsTable};

    ghost Value = { List Term };

    ghost view = { λ t. t.terms.items };

    ghost invariant = { λ t. IsTable t.terms.items };
}

impl Terms {
    /// A table without terms. It takes no memory.
    #[tactic(auto, using(crate::proofs::TableLemmas::empty_table))]
    pub fn new(alloc: Global) -> Terms
        ensures { result ≡ [] }
    {
        Terms {
            terms: Vec::new(alloc),
        }
    }

    /// What holds of every table. It does nothing when it runs.
    pub fn is_table(&self)
        ensures { IsTable self.now }
    {
        let _ = &self.terms;
    }

    /// How many terms there are: the place to cut the table back to.
    pub fn len(&self) -> u64
        ensures { result ≡ length self.now }
    {
        self.terms.len() as u64
    }

    /// The term of a number.
    pub fn term(&self, t: TermId) -> &Term
        requires { t.0 < length self.now }
        ensures { slice_get self.now t.0 ≡ Some result.now }
    {
        &self.terms[t.0 as usize]
    }

    /// Puts a term last, and answers its number. A refused term leaves the table as it was.
    #[tactic(auto, using(crate::proofs::TableLemmas::table_push, crate::proofs::ConstantLemmas::known_put, crate::proofs::ConstantLemmas::known_same))]
    pub fn add(&mut self, term: Term) -> Result<TermId, AllocError>
        requires { StandsOver (length self.old) term }
        ensures number { IfOk result (λ t. t.0 ≡ length self.old) }
        ensures ok { OnOk result (self.new ≡ self.old ++ term ∷ []) }
        ensures err { OnErr result (self.new ≡ self.old) }
        ensures known { (n : ℕ) (h : Objects) → TermIsKnown n h term → ConstantsAreKnown n h self.old → ConstantsAreKnown n h self.new }
    {
        let at = self.terms.len();
        self.terms.push(term)?;
        Ok(TermId(at as u64))
    }

    /// Takes out all terms but the first, this many. It takes no memory.
    #[tactic(auto, using(crate::proofs::TableLemmas::table_take))]
    pub fn cut_to(&mut self, len: u64)
        requires { len ≤ length self.old }
        ensures { self.new ≡ take len self.old }
    {
        self.terms.truncate(len as usize);
    }
}
