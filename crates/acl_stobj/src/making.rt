//! Names made one after another beside a symbol.

ghost use Rattle.std.specs.Prelude.{◌≡◌, ◌<◌, ◌∷◌, [], ◌++◌, length, true, IfOk, IfErr, OnOk, OnErr, IsErrOf};
ghost use Rattle.model_symbols.specs.Symbols.{symbol_at, package_number, is_one_too_many};
ghost use Rattle.model_symbols.specs.Growth.{Extends};
ghost use Rattle.model_symbols.specs.Tables.{symbol_under};
ghost use Rattle.model_stobjs.specs.Descriptors.{new_name};
ghost use Rattle.acl_syms.specs.Answers.{Interns};
ghost use Rattle.acl_terms.specs.Forms.{numbers};
ghost use Rattle.acl_stobj_read.specs.Written.{seen_renaming};
ghost use Rattle.acl_stobj.specs.Texts.{makings_of};
ghost use Rattle.acl_stobj.specs.Renames.{Renames};
ghost use Rattle.acl_stobj.specs.Making.{AreMade, UnmadeBy};

use crate::renames::new_name;
use crate::texts::{Purpose, text_of};
use acl_base::{PkgId, SymId};
use acl_syms::{SymFault, Symbols};
use indexmap::IndexMap;
use sqlite_items::Items;
use std::alloc::{AllocError, AllocFailed, Global};

/// Why a name was not made.
#[derive(Clone, Copy, Debug, PartialEq, Eq)]
pub enum Unmade {
    /// There are as many symbols as there may be.
    Full,
    Memory,
}

impl From<AllocError> for Unmade {
    ghost use Rattle.acl_stobj.specs.declared.making.Unmade.TheVariants.{Memory};

    ghost from_gives = { λ _ e. e ≡ Memory };

    fn from(_: AllocError) -> Self {
        Unmade::Memory
    }
}

impl<T: Drop> From<AllocFailed<T>> for Unmade {
    ghost use Rattle.acl_stobj.specs.declared.making.Unmade.TheVariants.{Memory};

    ghost from_gives = { λ _ e. e ≡ Memory };

    fn from(_: AllocFailed<T>) -> Self {
        Unmade::Memory
    }
}

fn interned(syms: &mut Symbols, home: PkgId, text: &[u8]) -> Result<SymId, Unmade>
    requires { home.0 < length syms.old.packages }
    ensures grows { Extends syms.old syms.new }
    ensures packages { syms.new.packages ≡ syms.old.packages }
    ensures ok { IfOk result (λ id. Interns syms.old syms.new home.0 text.now id.0) }
    ensures full { IsErrOf result Unmade.Full → is_one_too_many syms.old.symbols (symbol_under syms.old home.0 text.now) ≡ true }
    ensures err { OnErr result (syms.new ≡ syms.old) }
{
    match syms.intern_in(home, text) {
        Ok(id) => Ok(id),
        Err(SymFault::TooMany) => Err(Unmade::Full),
        Err(SymFault::Memory) => Err(Unmade::Memory),
        Err(SymFault::UnknownPackage) => unreachable!(),
        Err(SymFault::PackageExists) => unreachable!(),
        Err(
            SymFault::ImportClash {
                first: _,
                second: _,
            },
        ) => unreachable!(),
    }
}

/// A name of a text in the package of a symbol: made, or the one that is put for it.
#[tactic(auto, using(crate::proofs::MakingLemmas::renamed_made, crate::proofs::MakingLemmas::one_made, crate::proofs::MakingLemmas::one_full, crate::proofs::MakingLemmas::nothing_new))]
fn make_text(
    syms: &mut Symbols,
    renaming: &[(SymId, SymId)],
    first: &IndexMap<u32, u32>,
    s: SymId,
    text: &[u8],
) -> Result<SymId, Unmade>
    requires known { s.0 < length syms.old.symbols }
    requires renames { Renames (length syms.old.symbols) (seen_renaming renaming.now) first.now }
    ensures grows { Extends syms.old syms.new }
    ensures packages { syms.new.packages ≡ syms.old.packages }
    ensures ok { IfOk result (λ id. AreMade syms.old.packages (seen_renaming renaming.now) ((s.0, text.now) ∷ []) syms.old.symbols (id.0 ∷ []) syms.new.symbols) }
    ensures err { IfErr result (UnmadeBy syms.old.packages (seen_renaming renaming.now) ((s.0, text.now) ∷ []) syms.old.symbols syms.new.symbols) }
{
    let home = syms.package(s);
    match new_name(syms, renaming, first, home, text) {
        Some(name) => Ok(name),
        None => match interned(syms, home, text) {
            Ok(made) => {
                syms.is_table();
                Ok(made)
            }
            Err(Unmade::Full) => Err(Unmade::Full),
            Err(Unmade::Memory) => Err(Unmade::Memory),
        },
    }
}

/// The name of a function of this purpose, named after a symbol.
#[tactic(auto, using(crate::proofs::LoopLemmas::text_made, crate::proofs::LoopLemmas::text_unmade, crate::proofs::MakingLemmas::nothing_made))]
pub fn make_name(
    alloc: Global,
    syms: &mut Symbols,
    renaming: &[(SymId, SymId)],
    first: &IndexMap<u32, u32>,
    s: SymId,
    purpose: Purpose,
) -> Result<SymId, Unmade>
    requires known { s.0 < length syms.old.symbols }
    requires renames { Renames (length syms.old.symbols) (seen_renaming renaming.now) first.now }
    ensures grows { Extends syms.old syms.new }
    ensures packages { syms.new.packages ≡ syms.old.packages }
    ensures ok { IfOk result (λ id. AreMade syms.old.packages (seen_renaming renaming.now) (makings_of syms.old.symbols s.0 (purpose ∷ [])) syms.old.symbols (id.0 ∷ []) syms.new.symbols) }
    ensures err { IfErr result (UnmadeBy syms.old.packages (seen_renaming renaming.now) (makings_of syms.old.symbols s.0 (purpose ∷ [])) syms.old.symbols syms.new.symbols) }
{
    let text = text_of(alloc, purpose, syms.name(s))?;
    let made = make_text(syms, renaming, first, s, text.as_slice())?;
    Ok(made)
}

fn push_name(names: &mut Items<SymId>, name: SymId) -> Result<(), AllocError>
    ensures { OnOk result (names.new ≡ names.old ++ name ∷ []) }
{
    names.push(name)?;
    Ok(())
}

/// The names of functions of these purposes, named after a symbol.
#[tactic(auto, using(crate::proofs::LoopLemmas::making_starts, crate::proofs::LoopLemmas::names_more, crate::proofs::LoopLemmas::names_fail, crate::proofs::LoopLemmas::names_end, crate::proofs::LoopLemmas::names_refused, crate::proofs::RenameLemmas::later, acl_layers::proofs::BindingLemmas::numbers_push, model_symbols::proofs::TableLemmas::table_growth))]
pub fn make_names(
    alloc: Global,
    syms: &mut Symbols,
    renaming: &[(SymId, SymId)],
    first: &IndexMap<u32, u32>,
    s: SymId,
    purposes: &[Purpose],
) -> Result<Items<SymId>, Unmade>
    requires known { s.0 < length syms.old.symbols }
    requires renames { Renames (length syms.old.symbols) (seen_renaming renaming.now) first.now }
    ensures grows { Extends syms.old syms.new }
    ensures packages { syms.new.packages ≡ syms.old.packages }
    ensures ok { IfOk result (λ names. AreMade syms.old.packages (seen_renaming renaming.now) (makings_of syms.old.symbols s.0 purposes.now) syms.old.symbols (numbers names) syms.new.symbols) }
    ensures many { IfOk result (λ names. length names ≡ length purposes.now) }
    ensures err { IfErr result (UnmadeBy syms.old.packages (seen_renaming renaming.now) (makings_of syms.old.symbols s.0 purposes.now) syms.old.symbols syms.new.symbols) }
{
    let mut names = Items::new(alloc);
    let mut rest = purposes;
    'names: while let Some((purpose, others)) = rest.split_first() {
        match make_name(alloc, syms, renaming, first, s, *purpose) {
            Err(unmade) => return Err(unmade),
            Ok(name) => push_name(&mut names, name)?,
        }
        rest = others;
    }
    Ok(names)
}
