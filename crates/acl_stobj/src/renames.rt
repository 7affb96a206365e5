//! Names that are to be put for others.

ghost use Rattle.std.specs.Prelude.{◌≡◌, ◌<◌, length, nat_eq, option_map, Some, IfOk, OnOk};
ghost use Rattle.indexmap.specs.IndexMap.{get, Updates};
ghost use Rattle.model_symbols.specs.Tables.{symbol_under};
ghost use Rattle.model_stobjs.specs.Descriptors.{new_name};
ghost use Rattle.acl_terms.specs.Signatures.{seen_name};
ghost use Rattle.acl_stobj_read.specs.Written.{seen_renaming};
ghost use Rattle.acl_stobj.specs.Renames.{AreOld, Renames, Enters};

use acl_base::{PkgId, SymId};
use acl_syms::Symbols;
use indexmap::IndexMap;
use std::alloc::{AllocError, Global};

/// What is put for a name by its number.
fn found(first: &IndexMap<u32, u32>, name: u32) -> Option<SymId>
    ensures { get nat_eq first.now name ≡ seen_name result }
{
    match first.get(&name) {
        Some(new) => Some(SymId(*new)),
        None => None,
    }
}

fn enter(first: &mut IndexMap<u32, u32>, name: u32, new: u32) -> Result<(), AllocError>
    ensures { OnOk result (Updates nat_eq first.old first.new name (Some new)) }
{
    first.insert(name, new)?;
    Ok(())
}

/// Enters what is put for a name, unless something is put for it already.
#[tactic(auto, using(crate::proofs::RenameLemmas::kept, crate::proofs::RenameLemmas::entered))]
fn enter_first(first: &mut IndexMap<u32, u32>, pair: (SymId, SymId)) -> Result<(), AllocError>
    ensures { OnOk result (Enters first.old first.new pair) }
{
    match found(first, pair.0.0) {
        Some(_) => Ok(()),
        None => {
            enter(first, pair.0.0, pair.1.0)?;
            Ok(())
        }
    }
}

/// For each name the first that is put for it.
#[tactic(auto, using(crate::proofs::RenameLemmas::all_entered, crate::proofs::RenameLemmas::none_entered, crate::proofs::RenameLemmas::next_entered))]
pub fn first_renamed(
    alloc: Global,
    renaming: &[(SymId, SymId)],
    _syms: &Symbols,
) -> Result<IndexMap<u32, u32>, AllocError>
    requires { AreOld (length _syms.now.symbols) (seen_renaming renaming.now) }
    ensures { IfOk result (λ first. Renames (length _syms.now.symbols) (seen_renaming renaming.now) first) }
{
    let mut first = IndexMap::new(alloc);
    let mut rest = renaming;
    'pairs: while let Some((pair, others)) = rest.split_first() {
        enter_first(&mut first, *pair)?;
        rest = others;
    }
    Ok(first)
}

/// The name that is put for the one that a package has under a text.
#[tactic(auto, using(crate::proofs::RenameLemmas::unknown_name, crate::proofs::RenameLemmas::known_name))]
pub fn new_name(
    syms: &Symbols,
    _renaming: &[(SymId, SymId)],
    first: &IndexMap<u32, u32>,
    home: PkgId,
    text: &[u8],
) -> Option<SymId>
    requires home { home.0 < length syms.now.packages }
    requires renames { Renames (length syms.now.symbols) (seen_renaming _renaming.now) first.now }
    ensures { new_name syms.now.packages (seen_renaming _renaming.now) syms.now.symbols (symbol_under syms.now home.0 text.now) ≡ seen_name result }
{
    syms.is_table();
    match syms.find(home, text) {
        None => None,
        Some(name) => found(first, name.0),
    }
}
