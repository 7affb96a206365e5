//! Tables of names.

ghost use Rattle.std.specs.Prelude.{◌≡◌, [], IfOk, option_map};
ghost use Rattle.model_terms.specs.Classes.{has};
ghost use Rattle.model_expansion.specs.Faults.{DuplicateFormal};
ghost use Rattle.model_events.specs.Declarations.{repeated_among};
ghost use Rattle.acl_terms.specs.Forms.{numbers};

use acl_base::SymId;
use acl_names::Names;
use std::alloc::{AllocError, Global};

/// A table of names in their order.
#[tactic(auto, using(crate::proofs::TableLemmas::table_more, crate::proofs::TableLemmas::table_end))]
pub fn table_of(alloc: Global, names: &[SymId]) -> Result<Names, AllocError>
    ensures { IfOk result (λ t. t ≡ numbers names.now) }
{
    let mut table = Names::new(alloc);
    let mut rest = names;
    'names: while let Some((name, others)) = rest.split_first() {
        table.push(name.0)?;
        rest = others;
    }
    Ok(table)
}

/// Whether a name stands in a table, by one look-up.
#[tactic(auto, using(crate::proofs::TableLemmas::is_there, crate::proofs::TableLemmas::is_nowhere))]
pub fn is_among(table: &Names, name: SymId) -> bool
    ensures { result ≡ has table.now name.0 }
{
    match table.find(name.0) {
        Some(_place) => true,
        None => false,
    }
}

/// The first name that came before.
#[tactic(auto, using(crate::proofs::TableLemmas::repeated_other, crate::proofs::TableLemmas::repeated_found, crate::proofs::TableLemmas::repeated_end))]
pub fn repeated(alloc: Global, names: &[SymId]) -> Result<Option<SymId>, AllocError>
    ensures { IfOk result (λ r. repeated_among [] (numbers names.now) ≡ option_map (λ s. DuplicateFormal s.0) r) }
{
    let mut table = Names::new(alloc);
    let mut rest = names;
    'names: while let Some((name, others)) = rest.split_first() {
        if is_among(&table, *name) {
            return Ok(Some(*name));
        }
        table.push(name.0)?;
        rest = others;
    }
    Ok(None)
}
