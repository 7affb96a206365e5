//! Lists of names.

ghost use Rattle.std.specs.Prelude.{◌≡◌};
ghost use Rattle.model_terms.specs.Classes.{has, repeats};
ghost use Rattle.acl_terms.specs.Forms.{numbers};

use acl_base::SymId;

/// Whether the name is among these.
#[tactic(auto, using(crate::proofs::ListLemmas::has_step, crate::proofs::ListLemmas::has_end))]
pub fn has(names: &[SymId], x: SymId) -> bool
    ensures { result ≡ has (numbers names.now) x.0 }
{
    for name in names {
        if x.0 == name.0 {
            return true;
        }
    }
    false
}

/// Whether a name stands twice. The cost is quadratic in the names.
#[tactic(auto, using(crate::proofs::ListLemmas::repeats_step, crate::proofs::ListLemmas::repeats_end))]
pub fn repeats(names: &[SymId]) -> bool
    ensures { result ≡ repeats (numbers names.now) }
{
    for (i, name) in names.iter().enumerate() {
        if has(&names[i + 1..], *name) {
            return true;
        }
    }
    false
}
