//! What forms give, compared with what is expected of them.

ghost use Rattle.std.specs.Prelude.{◌≡◌, ◌∷◌, ◌||◌, [], Some, IfOk, option_map};
ghost use Rattle.model_terms.specs.Nested.{same_kinds};
ghost use Rattle.acl_terms.specs.Signatures.{seen_out, seen_outs};
ghost use Rattle.acl_thread.specs.Own.{known_or_one, is_bound_wrongly};

use acl_nest::same_kinds;
use acl_terms::Out;
use sqlite_items::Items;
use std::alloc::{AllocError, Global};

/// The outputs of a form that gives one.
pub fn single(alloc: Global, out: Out) -> Result<Option<Items<Out>>, AllocError>
    ensures { IfOk result (λ os. option_map seen_outs os ≡ Some (seen_out out ∷ [])) }
{
    let mut outs = Items::new(alloc);
    outs.push(out)?;
    Ok(Some(outs))
}

/// Whether outputs, one ordinary where they are not known, are those expected.
pub fn gives(outputs: &Option<Items<Out>>, expected: &[Out]) -> bool
    ensures { result ≡ same_kinds (known_or_one (option_map seen_outs outputs.now)) (seen_outs expected.now) }
{
    match outputs {
        Some(outs) => same_kinds(outs.as_slice(), expected),
        None => same_kinds(&[Out::Ordinary], expected),
    }
}

/// Whether two forms give the same.
pub fn give_same(first: &Option<Items<Out>>, second: &Option<Items<Out>>) -> bool
    ensures { result ≡ same_kinds (known_or_one (option_map seen_outs first.now)) (known_or_one (option_map seen_outs second.now)) }
{
    match second {
        Some(outs) => gives(first, outs.as_slice()),
        None => gives(first, &[Out::Ordinary]),
    }
}

/// Whether these outputs are not exactly the object that they are bound to.
pub fn is_bound_wrongly(kind: Out, outputs: &Option<Items<Out>>) -> bool
    ensures { result ≡ is_bound_wrongly (seen_out kind) (option_map seen_outs outputs.now) }
{
    match kind {
        Out::Ordinary => false,
        Out::Object(_) => !gives(outputs, &[kind]),
    }
}

pub fn or(a: bool, b: bool) -> bool
    ensures { result ≡ (a || b) }
{
    a | b
}
