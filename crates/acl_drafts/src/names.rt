//! Which names may be given to functions.

ghost use Rattle.std.specs.Prelude.{◌≡◌, ◌≤◌, length};
ghost use Rattle.model_expansion.specs.Forms.{has_stars, may_be_defined};
ghost use Rattle.model_stobjs.specs.Heads.{is_good_name};
ghost use Rattle.acl_heap.specs.Objects.{object_of, Lies};

use acl_base::{SymId, Word};
use acl_heap::{Heap, Seen};
use acl_layers::{home_of, is_keyword, symbol_name};
use acl_syms::Symbols;

/// Whether its name begins and ends with a star.
#[tactic(auto, using(acl_layers::proofs::NameLemmas::last_is))]
pub fn has_stars(syms: &Symbols, s: SymId) -> bool
    ensures { result ≡ has_stars syms.now.symbols s.0 }
{
    let name = symbol_name(syms, s);
    if name.len() < 3 {
        return false;
    }
    if name[0] != b'*' {
        return false;
    }
    name[name.len() - 1] == b'*'
}

/// Whether a symbol may name a function.
fn may_be_defined(syms: &Symbols, s: SymId) -> bool
    ensures { result ≡ may_be_defined syms.now.symbols s.0 }
{
    if home_of(syms, s) == b"COMMON-LISP".as_slice() {
        return false;
    }
    if is_keyword(syms, s) {
        return false;
    }
    if home_of(syms, s) == b"%".as_slice() {
        return false;
    }
    !has_stars(syms, s)
}

/// Whether it may name a function.
pub fn is_good_name(heap: &Heap, syms: &Symbols, x: Word) -> bool
    requires { Lies heap.now x }
    ensures { result ≡ is_good_name syms.now.symbols (object_of heap.now x) }
{
    match heap.look(x) {
        Seen::Symbol(s) => may_be_defined(syms, s),
        Seen::Integer(_) => false,
        Seen::Text(_) => false,
        Seen::Pair(_, _) => false,
    }
}
