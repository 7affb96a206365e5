//! How a table takes packages.

ghost use Rattle.std.specs.Prelude.{◌≡◌, ℕ, ◌<◌, [], ◌∷◌, ◌++◌, length, Option, Some, None, IfOk, IfErr, OnOk, OnErr, map, position};
ghost use Rattle.std.specs.Str.{bytes_eq};
ghost use Rattle.model_symbols.specs.Symbols.{symbol_at, package_number};
ghost use Rattle.model_symbols.specs.Growth.{Extends};
ghost use Rattle.model_symbols.specs.Tables.{with_package, symbols_at};
ghost use Rattle.acl_syms.specs.Answers.{PackageFault, AreKnown, package_with, numbers, CanTake};
ghost use Rattle.acl_syms.specs.Imports.{Gathers, Enters, EnterFault, GatherFault};

use crate::interning::learn;
use crate::{Package, SymFault, Symbols};
use acl_base::{PkgId, SymId};
use indexmap::{IndexMap, IndexSet};
use std::alloc::AllocError;

/// Puts a name that is not there last.
fn enlist(names: &mut IndexSet<Vec<u8>>, name: Vec<u8>) -> Result<(), AllocError>
    requires { position (bytes_eq name.items) (map (λ k. k.items) names.old.keys) ≡ None }
    ensures ok { OnOk result (map (λ k. k.items) names.new.keys ≡ map (λ k. k.items) names.old.keys ++ name.items ∷ []) }
    ensures err { OnErr result (names.new.keys ≡ names.old.keys) }
{
    names.insert_full(name)?;
    Ok(())
}

impl Symbols {
    /// A new package of this name, which imports these symbols.
    pub fn add_package(&mut self, name: &[u8], imports: &[SymId]) -> Result<PkgId, SymFault>
        requires { AreKnown self.old.symbols imports.now }
        ensures grows { Extends self.old self.new }
        ensures number { IfOk result (λ p. p.0 ≡ length self.old.packages) }
        ensures ok { OnOk result (self.new ≡ with_package self.old (package_with self.old.symbols name.now imports.now)) }
        ensures fits { OnOk result (CanTake self.old name.now imports.now) }
        ensures fault { IfErr result (PackageFault self.old name.now imports.now) }
        ensures err { OnErr result (self.new ≡ self.old) }
    {
        if self.find_package(name).is_some() {
            return Err(SymFault::PackageExists);
        }
        let known = self.gather(imports)?;
        let number = self.put_package(name, imports, known)?;
        Ok(number)
    }

    fn enter_import(&self, known: &mut IndexMap<Vec<u8>, u32>, s: SymId) -> Result<(), SymFault>
        requires { s.0 < length self.now.symbols }
        ensures ok { OnOk result (Enters (λ k. k.items) known.old known.new (symbol_at self.now.symbols s.0).name s.0) }
        ensures fault { IfErr result (EnterFault (λ k. k.items) known.old (symbol_at self.now.symbols s.0).name s) }
    {
        let name = self.name(s);
        match known.get(name) {
            Some(first) => {
                if *first == s.0 {
                    Ok(())
                } else {
                    Err(SymFault::ImportClash {
                        first: SymId(*first),
                        second: s,
                    })
                }
            }
            None => {
                let key = Vec::from_slice(self.alloc, name)?;
                learn(known, key, s.0)?;
                Ok(())
            }
        }
    }

    fn gather(&self, imports: &[SymId]) -> Result<IndexMap<Vec<u8>, u32>, SymFault>
        requires { AreKnown self.now.symbols imports.now }
        ensures ok { IfOk result (Gathers (λ k. k.items) self.now.symbols (symbols_at self.now.symbols (numbers imports.now))) }
        ensures fault { IfErr result (GatherFault self.now.symbols imports.now) }
    {
        let mut known = IndexMap::new(self.alloc);
        for s in imports {
            self.enter_import(&mut known, *s)?;
        }
        Ok(known)
    }

    fn put_package(
        &mut self,
        name: &[u8],
        imports: &[SymId],
        known: IndexMap<Vec<u8>, u32>,
    ) -> Result<PkgId, AllocError>
        requires fresh { package_number self.old.packages name.now ≡ None }
        requires imports { AreKnown self.old.symbols imports.now }
        requires known { Gathers (λ k. k.items) self.old.symbols (symbols_at self.old.symbols (numbers imports.now)) known }
        ensures grows { Extends self.old self.new }
        ensures number { IfOk result (λ p. p.0 ≡ length self.old.packages) }
        ensures ok { OnOk result (self.new ≡ with_package self.old (package_with self.old.symbols name.now imports.now)) }
        ensures err { OnErr result (self.new ≡ self.old) }
    {
        let number = self.packages.len();
        let own = Vec::from_slice(self.alloc, name)?;
        let key = Vec::from_slice(self.alloc, name)?;
        let imports = Vec::from_slice(self.alloc, imports)?;
        self.packages.push(Package {
            name: own,
            imports,
            known,
        })?;
        match enlist(&mut self.names, key) {
            Ok(()) => Ok(PkgId(number as u64)),
            Err(refused) => {
                self.packages.truncate(number);
                Err(refused)
            }
        }
    }
}
