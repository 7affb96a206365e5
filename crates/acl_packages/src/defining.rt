//! A new package with its imports.

ghost use Rattle.std.specs.Prelude.{◌≡◌, ◌≤◌, length, IfOk, IfErr, OnErr};
ghost use Rattle.model_symbols.specs.Growth.{Extends};
ghost use Rattle.acl_forms.specs.Forms.{IsWhole};
ghost use Rattle.acl_heap.specs.Objects.{object_of, Lies, IsText};
ghost use Rattle.acl_syms.specs.Answers.{AreKnown, numbers};
ghost use Rattle.acl_packages.specs.Packages.{bytes_in, GrantsImports, RefusesImports, GrantsPackage, RefusesPackage, Told};

use crate::fault::PackageFault;
use acl_base::{PkgId, SymId, Word};
use acl_declare::symbols_of;
use acl_heap::Heap;
use acl_syms::{SymFault, Symbols};
use std::alloc::Global;

/// A new package of this name, which imports these symbols.
#[tactic(auto, using(crate::proofs::PackageLemmas::imports_granted, crate::proofs::PackageLemmas::exists_refused, crate::proofs::PackageLemmas::clash_refused))]
fn import_symbols(
    heap: &Heap,
    syms: &mut Symbols,
    name: Word,
    imports: &[SymId],
) -> Result<PkgId, PackageFault>
    requires name { Lies heap.now name }
    requires text { IsText (object_of heap.now name) }
    requires imports { AreKnown syms.old.symbols imports.now }
    ensures grows { Extends syms.old syms.new }
    ensures number { IfOk result (λ n. n.0 ≡ length syms.old.packages) }
    ensures ok { IfOk result (λ n. GrantsImports syms.old (bytes_in (object_of heap.now name)) (numbers imports.now) syms.new) }
    ensures fault { IfErr result (Told heap.now (RefusesImports syms.old (bytes_in (object_of heap.now name)) (numbers imports.now))) }
    ensures err { OnErr result (syms.new ≡ syms.old) }
{
    syms.is_table();
    let bytes = heap.bytes_of(name);
    match syms.add_package(bytes, imports) {
        Ok(number) => Ok(number),
        Err(fault) => match fault {
            SymFault::PackageExists => Err(PackageFault::PackageExists(name)),
            SymFault::ImportClash { first, second } => Err(PackageFault::ImportClash(
                first, second,
            )),
            SymFault::Memory => Err(PackageFault::Memory),
            SymFault::UnknownPackage => Err(PackageFault::Memory),
            SymFault::TooMany => Err(PackageFault::Memory),
        },
    }
}

/// A new package of this name, which imports the symbols of a value.
#[tactic(auto, using(crate::proofs::PackageLemmas::all_known, crate::proofs::PackageLemmas::shape_refused, crate::proofs::PackageLemmas::package_granted, crate::proofs::PackageLemmas::package_refused))]
pub fn define_package(
    alloc: Global,
    heap: &Heap,
    syms: &mut Symbols,
    name: Word,
    value: Word,
) -> Result<PkgId, PackageFault>
    requires name { Lies heap.now name }
    requires text { IsText (object_of heap.now name) }
    requires value { IsWhole syms.old heap.now value }
    ensures grows { Extends syms.old syms.new }
    ensures number { IfOk result (λ n. n.0 ≡ length syms.old.packages) }
    ensures ok { IfOk result (λ n. GrantsPackage syms.old (bytes_in (object_of heap.now name)) (object_of heap.now value) syms.new) }
    ensures fault { IfErr result (Told heap.now (RefusesPackage syms.old (bytes_in (object_of heap.now name)) (object_of heap.now value))) }
    ensures err { OnErr result (syms.new ≡ syms.old) }
{
    match symbols_of(alloc, heap, value) {
        Err(_refused) => Err(PackageFault::Memory),
        Ok(read) => match read {
            None => Err(PackageFault::BadShape),
            Some(imports) => match import_symbols(heap, syms, name, imports.as_slice()) {
                Err(fault) => Err(fault),
                Ok(number) => Ok(number),
            },
        },
    }
}
