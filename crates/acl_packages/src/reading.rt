//! A package as it is written, by its shape.

ghost use Rattle.std.specs.Prelude.{◌≡◌, ◌≤◌, length};
ghost use Rattle.model_events.specs.Constants.{text_and_form};
ghost use Rattle.acl_heap.specs.Objects.{object_of, Lies};
ghost use Rattle.acl_packages.specs.Packages.{SeenPackage};

use crate::named::name_and_form;
use crate::written::WrittenPackage;
use acl_base::Word;
use acl_heap::{Heap, Seen};

/// The name and the form of its imports, of what stands behind the head. None where it is anything else.
#[tactic(auto, using(crate::proofs::PackageLemmas::no_parts, crate::proofs::PackageLemmas::text_named, crate::proofs::PackageLemmas::text_there, crate::proofs::PackageLemmas::symbol_named, crate::proofs::PackageLemmas::integer_named, crate::proofs::PackageLemmas::pair_named))]
pub fn written_package(heap: &Heap, form: Word) -> Option<WrittenPackage>
    requires { Lies heap.now form }
    ensures { SeenPackage heap.now result (text_and_form (object_of heap.now form)) }
{
    match name_and_form(heap, form) {
        None => None,
        Some((name, form)) => match heap.look(name) {
            Seen::Text(_) => Some(WrittenPackage { name, form }),
            Seen::Symbol(_) => None,
            Seen::Integer(_) => None,
            Seen::Pair(_, _) => None,
        },
    }
}
