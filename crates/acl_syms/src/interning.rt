//! How a table takes symbols.

ghost use Rattle.std.specs.Prelude.{◌≡◌, ℕ, ◌<◌, [], ◌∷◌, ◌++◌, length, Option, Some, None, IfOk, IfErr, OnOk, OnErr};
ghost use Rattle.indexmap.specs.IndexMap.{get_by};
ghost use Rattle.std.specs.Str.{bytes_eq};
ghost use Rattle.model_symbols.specs.Symbols.{symbol_at, package_number, package_at, most_symbols};
ghost use Rattle.model_symbols.specs.Growth.{Extends};
ghost use Rattle.model_symbols.specs.Tables.{symbol_under, number_in, with_symbol};
ghost use Rattle.acl_syms.specs.Answers.{Interns, InternFault, InternsNamed, NamedInternFault};
ghost use Rattle.acl_syms.specs.Fields.{Learns};

use crate::{MOST_SYMBOLS, Package, SymFault, Symbol, Symbols};
use acl_base::{PkgId, SymId};
use indexmap::IndexMap;
use std::alloc::AllocError;

/// Enters a name that a map does not have.
pub(crate) fn learn(
    known: &mut IndexMap<Vec<u8>, u32>,
    name: Vec<u8>,
    number: u32,
) -> Result<(), AllocError>
    requires { get_by (λ k. bytes_eq name.items k.items) known.old ≡ None }
    ensures learns { OnOk result (Learns (λ k. k.items) known.old known.new name.items number) }
    ensures err { OnErr result (known.new.entries ≡ known.old.entries) }
{
    known.insert(name, number)?;
    Ok(())
}

impl Symbols {
    /// The symbol that a package has under a name, which becomes known.
    pub fn intern_in(&mut self, p: PkgId, name: &[u8]) -> Result<SymId, SymFault>
        requires { p.0 < length self.old.packages }
        ensures grows { Extends self.old self.new }
        ensures ok { IfOk result (λ s. Interns self.old self.new p.0 name.now s.0) }
        ensures within { IfOk result (λ s. s.0 < length self.new.symbols) }
        ensures fault { IfErr result (InternFault self.old p.0 name.now) }
        ensures err { OnErr result (self.new ≡ self.old) }
    {
        if let Some(known) = self.find(p, name) {
            return Ok(known);
        }
        if self.symbols.len() >= MOST_SYMBOLS {
            return Err(SymFault::TooMany);
        }
        let made = self.put_symbol(p, name)?;
        Ok(made)
    }

    /// The symbol that the package of a name has under a name, which becomes known.
    pub fn intern(&mut self, home: &[u8], name: &[u8]) -> Result<SymId, SymFault>
        ensures grows { Extends self.old self.new }
        ensures ok { IfOk result (λ s. InternsNamed self.old self.new home.now name.now s.0) }
        ensures within { IfOk result (λ s. s.0 < length self.new.symbols) }
        ensures fault { IfErr result (NamedInternFault self.old home.now name.now) }
        ensures err { OnErr result (self.new ≡ self.old) }
    {
        match self.find_package(home) {
            Some(p) => {
                let made = self.intern_in(p, name)?;
                Ok(made)
            }
            None => Err(SymFault::UnknownPackage),
        }
    }

    fn put_symbol(&mut self, p: PkgId, name: &[u8]) -> Result<SymId, AllocError>
        requires within { p.0 < length self.old.packages }
        requires unknown { number_in self.old p.0 name.now ≡ None }
        requires room { length self.old.symbols < most_symbols }
        ensures grows { Extends self.old self.new }
        ensures ok { IfOk result (λ s. Interns self.old self.new p.0 name.now s.0) }
        ensures within { IfOk result (λ s. s.0 < length self.new.symbols) }
        ensures err { OnErr result (self.new ≡ self.old) }
    {
        let number = self.symbols.len() as u32;
        let own = Vec::from_slice(self.alloc, name)?;
        let key = Vec::from_slice(self.alloc, name)?;
        self.symbols.push(Symbol { home: p, name: own })?;
        let package = &mut self.packages[p.0 as usize];
        match learn(&mut package.known, key, number) {
            Ok(()) => Ok(SymId(number)),
            Err(refused) => {
                self.symbols.truncate(number as usize);
                Err(refused)
            }
        }
    }
}
