//! The package that is to be the current one.

ghost use Rattle.std.specs.Prelude.{◌≡◌, ◌≤◌, ◌<◌, length, option_map, option_and_then, IfOk, IfErr, IfSome};
ghost use Rattle.model_expansion.specs.Forms.{text, elements};
ghost use Rattle.model_events.specs.Constants.{only_text, visible_package};
ghost use Rattle.acl_heap.specs.Objects.{object_of, Lies, IsText};
ghost use Rattle.acl_packages.specs.Packages.{bytes_in};
ghost use Rattle.acl_packages.specs.Current.{SeenText, GrantsCurrent, RefusesCurrent, ToldCurrent, current_reach};

use crate::fault::CurrentFault;
use acl_base::{PkgId, Word};
use acl_heap::{Heap, Seen};
use acl_layers::{is_pair, is_true_list};
use acl_syms::Symbols;

#[tactic(auto, using(crate::proofs::CurrentLemmas::is_text))]
fn text_alone(heap: &Heap, x: Word) -> Option<Word>
    requires { Lies heap.now x }
    ensures { SeenText heap.now result (text (object_of heap.now x)) }
{
    match heap.look(x) {
        Seen::Text(_) => Some(x),
        Seen::Symbol(_) => None,
        Seen::Integer(_) => None,
        Seen::Pair(_, _) => None,
    }
}

/// The string that stands alone. None where it is anything else.
#[tactic(auto, using(crate::proofs::CurrentLemmas::text_bad, crate::proofs::CurrentLemmas::text_more, crate::proofs::CurrentLemmas::text_only, crate::proofs::CurrentLemmas::text_end))]
fn only_text(heap: &Heap, form: Word) -> Option<Word>
    requires { Lies heap.now form }
    ensures { SeenText heap.now result (option_and_then only_text (elements (object_of heap.now form))) }
{
    if !is_true_list(heap, form) {
        return None;
    }
    match heap.look(form) {
        Seen::Pair(name, rest) => {
            if is_pair(heap, rest) {
                return None;
            }
            text_alone(heap, name)
        }
        Seen::Symbol(_) => None,
        Seen::Integer(_) => None,
        Seen::Text(_) => None,
    }
}

/// The package of a name, where it is not hidden.
#[tactic(auto, using(crate::proofs::CurrentLemmas::is_hidden, crate::proofs::CurrentLemmas::not_hidden))]
fn visible_package(heap: &Heap, syms: &Symbols, name: Word) -> Option<PkgId>
    requires name { Lies heap.now name }
    requires text { IsText (object_of heap.now name) }
    ensures found { option_map (λ p. p.0) result ≡ visible_package syms.now.packages (bytes_in (object_of heap.now name)) }
    ensures within { IfSome result (λ p. p.0 < length syms.now.packages) }
{
    let bytes = heap.bytes_of(name);
    if bytes == b"%".as_slice() {
        return None;
    }
    syms.find_package(bytes)
}

/// The package that is to be the current one, of what stands behind the head.
#[tactic(auto, using(crate::proofs::CurrentLemmas::shape_refused, crate::proofs::CurrentLemmas::current_granted, crate::proofs::CurrentLemmas::name_refused))]
pub fn current_package(heap: &Heap, syms: &Symbols, form: Word) -> Result<PkgId, CurrentFault>
    requires { Lies heap.now form }
    ensures ok { IfOk result (λ n. GrantsCurrent syms.now.packages (object_of heap.now form) n.0) }
    ensures within { IfOk result (λ n. n.0 < length syms.now.packages) }
    ensures fault { IfErr result (ToldCurrent heap.now (RefusesCurrent syms.now.packages (object_of heap.now form))) }
    ensures lies { IfErr result (λ f. current_reach f ≤ length heap.now) }
{
    match only_text(heap, form) {
        None => Err(CurrentFault::BadShape),
        Some(name) => match visible_package(heap, syms, name) {
            None => Err(CurrentFault::UnknownPackage(name)),
            Some(number) => Ok(number),
        },
    }
}
