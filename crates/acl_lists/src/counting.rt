//! How many keys differ.

ghost use Rattle.std.specs.Prelude.{◌≡◌, if◌then◌else◌};
ghost use Rattle.acl_lists.specs.Pairs.{different, is_among};

use acl_hash::Key;

/// Whether a key is among others.
#[tactic(auto, using(crate::proofs::CountLemmas::among_here, crate::proofs::CountLemmas::among_further, crate::proofs::CountLemmas::among_none))]
fn is_among(key: &Key, others: &[Key]) -> bool
    ensures { result ≡ is_among key.now others.now }
{
    let mut left = others;
    while let Some((other, more)) = left.split_first() {
        if *key == *other {
            return true;
        }
        left = more;
    }
    false
}

fn one_unless(found: bool) -> u64
    ensures { result ≡ (if found then 0 else 1) }
{
    if found { 0 } else { 1 }
}

/// How many different keys there are.
#[tactic(auto, using(crate::proofs::CountLemmas::count_start, crate::proofs::CountLemmas::count_step, crate::proofs::CountLemmas::count_end, crate::proofs::CountLemmas::count_fits))]
pub(crate) fn count_different(keys: &[Key]) -> u64
    ensures { result ≡ different keys.now }
{
    let mut count = 0;
    let mut left = keys;
    while let Some((key, others)) = left.split_first() {
        count += one_unless(is_among(key, others));
        left = others;
    }
    count
}
