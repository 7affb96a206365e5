//! Names in scope.

ghost use Rattle.std.specs.Prelude.{◌≡◌, [], ◌∷◌, ◌++◌, length, take, option_map, IfOk, OnOk, OnErr};
ghost use Rattle.model_terms.specs.Scopes.{kind_in, kind_of};
ghost use Rattle.acl_terms.specs.Signatures.{seen_out, seen_scope};

use crate::signature::{Entry, Out};
use acl_base::SymId;
use acl_names::Names;
use std::alloc::{AllocError, Global};
use std::marker::Model;

/// Names with their kinds, the outermost first. Of a name that stands twice the last counts.
#[derive(Drop)]
pub struct Scope {
    entries: Vec<Entry>,
    /// The names of the entries, in their order.
    names: Names,
}

impl Model for Scope {
    ghost use Rattle.std.specs.Prelude.{◌≡◌, List};
    ghost use Rattle.acl_terms.specs.declared.signature.Entry.{Entry};
    ghost use Rattle.acl_terms.specs.Signatures.{entry_names};

    ghost Value = { List Entry };

    ghost view = { λ s. s.entries.items };

    ghost invariant = { λ s. s.names ≡ entry_names s.entries.items };
}

impl Scope {
    /// A scope without names. It takes no memory.
    pub fn new(alloc: Global) -> Scope
        ensures { result ≡ [] }
    {
        Scope {
            entries: Vec::new(alloc),
            names: Names::new(alloc),
        }
    }

    /// The scope of these names. The cost is linear in them.
    #[tactic(auto, using(crate::proofs::ScopeLemmas::copy_step, crate::proofs::ScopeLemmas::copy_end))]
    pub fn from_entries(alloc: Global, entries: &[Entry]) -> Result<Scope, AllocError>
        ensures { IfOk result (λ s. s ≡ entries.now) }
    {
        let mut scope = Scope::new(alloc);
        for entry in entries {
            scope.push(*entry)?;
        }
        Ok(scope)
    }

    /// The names, the outermost first.
    pub fn entries(&self) -> &[Entry]
        ensures { result.now ≡ self.now }
    {
        self.entries.as_slice()
    }

    /// How many names there are.
    pub fn len(&self) -> usize
        ensures { result ≡ length self.now }
    {
        self.entries.len()
    }

    /// Puts a name innermost. A refused name leaves the scope as it was.
    #[tactic(auto, using(crate::proofs::ScopeLemmas::names_push, crate::proofs::ScopeLemmas::take_push))]
    pub fn push(&mut self, entry: Entry) -> Result<(), AllocError>
        ensures ok { OnOk result (self.new ≡ self.old ++ entry ∷ []) }
        ensures err { OnErr result (self.new ≡ self.old) }
    {
        let at = self.entries.len();
        self.entries.push(entry)?;
        match self.names.push(entry.name.0) {
            Ok(()) => Ok(()),
            Err(e) => {
                self.entries.truncate(at);
                Err(e)
            }
        }
    }

    /// Leaves the outermost names alone, this many. It takes no memory, and time for the names that go.
    #[tactic(auto, using(crate::proofs::ScopeLemmas::names_take))]
    pub fn cut(&mut self, to: usize)
        ensures { self.new ≡ take to self.old }
    {
        self.names.cut(to);
        self.entries.truncate(to);
    }

    /// The kind of a name that stands in scope, by one look-up.
    #[tactic(auto, using(crate::proofs::ScopeLemmas::found_there, crate::proofs::ScopeLemmas::found_nowhere, crate::proofs::ScopeLemmas::found_within))]
    pub fn kind_in(&self, name: SymId) -> Option<Out>
        ensures { option_map seen_out result ≡ kind_in (seen_scope self.now) name.0 }
    {
        match self.names.find(name.0) {
            Some(at) => Some(self.entries[at].kind),
            None => None,
        }
    }

    /// The kind of a name, which is ordinary out of scope.
    pub fn kind_of(&self, name: SymId) -> Out
        ensures { seen_out result ≡ kind_of (seen_scope self.now) name.0 }
    {
        match self.kind_in(name) {
            Some(kind) => kind,
            None => Out::Ordinary,
        }
    }
}
