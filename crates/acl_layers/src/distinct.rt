//! Names that are bound together.

ghost use Rattle.std.specs.Prelude.{◌≡◌, IfOk};
ghost use Rattle.model_terms.specs.Classes.{has};
ghost use Rattle.model_expansion.specs.Forms.{are_different};
ghost use Rattle.acl_terms.specs.Forms.{numbers};

use acl_base::SymId;
use acl_names::Names;
use std::alloc::{AllocError, Global};

/// Whether a name stands in a table, by one look-up.
#[tactic(auto, using(crate::proofs::DistinctLemmas::is_there, crate::proofs::DistinctLemmas::is_nowhere))]
fn contains(table: &Names, name: SymId) -> bool
    ensures { result ≡ has table.now name.0 }
{
    match table.find(name.0) {
        Some(_place) => true,
        None => false,
    }
}

/// Whether no name stands twice, by one look-up for each name.
#[tactic(auto, using(crate::proofs::DistinctLemmas::apart_from_none, crate::proofs::DistinctLemmas::apart_other, crate::proofs::DistinctLemmas::apart_found, crate::proofs::DistinctLemmas::apart_end))]
pub fn are_distinct(alloc: Global, names: &[SymId]) -> Result<bool, AllocError>
    ensures { IfOk result (λ b. b ≡ are_different (numbers names.now)) }
{
    let mut earlier = Names::new(alloc);
    let mut rest = names;
    'names: while let Some((name, others)) = rest.split_first() {
        if contains(&earlier, *name) {
            return Ok(false);
        }
        earlier.push(name.0)?;
        rest = others;
    }
    Ok(true)
}
