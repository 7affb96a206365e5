//! Names one after another, of which the last place is found by one look-up.
#![tactic(auto)]

ghost use Rattle.std.specs.Prelude.{◌≡◌, ◌≢◌, ◌++◌, ◌∷◌, [], ◌-◌, length, take, OnOk, OnErr};
ghost use Rattle.acl_names.specs.Places.{last_place};

mod latest;
mod named;
#[cfg(test)]
mod tests;

use crate::latest::{Latest, put, put_back};
use crate::named::Named;
use std::alloc::{AllocError, Global};
use std::collections::HashMap;
use std::marker::Model;

/// Names one after another. Of each name that ever stood here the table has the last place, or that it has none now.
#[derive(Drop)]
pub struct Names {
    named: Vec<Named>,
    latest: Latest,
}

impl Model for Names {
    ghost use Rattle.std.specs.Prelude.{ℕ, List};
    ghost use Rattle.acl_names.specs.Fields.{names_of, AreFields};

    ghost Value = { List ℕ };

    ghost view = { λ n. names_of n.named.items };

    ghost invariant = { λ n. AreFields n.named.items n.latest.entries };
}

impl Names {
    /// No names. It takes no memory.
    #[tactic(auto, using(crate::proofs::FieldLemmas::fields_new))]
    pub fn new(alloc: Global) -> Names
        ensures { result ≡ [] }
    {
        Names {
            named: Vec::new(alloc),
            latest: HashMap::new(alloc),
        }
    }

    /// How many names there are.
    #[tactic(auto, using(crate::proofs::FieldLemmas::names_length))]
    pub fn len(&self) -> usize
        ensures { result ≡ length self.now }
    {
        self.named.len()
    }

    /// The place at which a name stands last, by one look-up.
    #[tactic(auto, using(crate::proofs::FieldLemmas::found_there, crate::proofs::FieldLemmas::found_nowhere))]
    pub fn find(&self, name: u32) -> Option<usize>
        ensures { result ≡ last_place name self.now }
    {
        match self.latest.get(&name) {
            Some(place) => *place,
            None => None,
        }
    }

    /// Puts a name last. A refused one leaves the names as they were.
    pub fn push(&mut self, name: u32) -> Result<(), AllocError>
        ensures ok { OnOk result (self.new ≡ self.old ++ name ∷ []) }
        ensures err { OnErr result (self.new ≡ self.old) }
    {
        let at = self.named.len();
        let earlier = self.find(name);
        self.named.push(Named { name, earlier })?;
        match put(&mut self.latest, name, at) {
            Ok(()) => Ok(()),
            Err(e) => {
                self.named.truncate(at);
                Err(e)
            }
        }
    }

    /// Takes the last name away.
    #[tactic(auto, using(crate::proofs::FieldLemmas::names_popped))]
    fn pop(&mut self)
        requires { length self.old ≢ 0 }
        ensures { self.new ≡ take (length self.old - 1) self.old }
    {
        match self.named.pop() {
            Some(named) => put_back(&mut self.latest, named.name, named.earlier),
            None => unreachable!(),
        }
    }

    /// Leaves the first names alone, this many. It takes no memory, and time for the names that go.
    #[tactic(auto, using(crate::proofs::FieldLemmas::take_less, crate::proofs::FieldLemmas::take_enough))]
    pub fn cut(&mut self, to: usize)
        ensures { self.new ≡ take to self.old }
    {
        while self.len() > to {
            self.pop();
        }
    }
}
