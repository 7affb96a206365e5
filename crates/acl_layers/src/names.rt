//! Names of symbols, and which symbols may be variables.

ghost use Rattle.std.specs.Prelude.{◌≡◌, ◌==◌, slice_index, option_map};
ghost use Rattle.model_symbols.specs.Symbols.{symbol_at};
ghost use Rattle.model_expansion.specs.Forms.{symbol_name, home_of, is_keyword, is_key, has_stars, is_out_of_sight, may_be_variable, variable_name, is_self_evaluating};
ghost use Rattle.acl_heap.specs.Objects.{object_of, Lies};

use crate::words;
use acl_base::{SymId, Word};
use acl_heap::{Heap, Seen};
use acl_syms::Symbols;

/// The name of a symbol; "" of one that is not known.
pub fn symbol_name<'a>(syms: &'a Symbols, s: SymId) -> &'a [u8]
    ensures { result.now ≡ symbol_name syms.now.symbols s.0 }
{
    if s.0 < syms.count() {
        syms.name(s)
    } else {
        &[]
    }
}

/// The name of a symbol's package; "" of one that is not known.
#[tactic(auto, using(crate::proofs::NameLemmas::home_is))]
pub fn home_of<'a>(syms: &'a Symbols, s: SymId) -> &'a [u8]
    ensures { result.now ≡ home_of syms.now.symbols s.0 }
{
    if s.0 < syms.count() {
        syms.package_name(syms.package(s))
    } else {
        &[]
    }
}

pub fn is_keyword(syms: &Symbols, s: SymId) -> bool
    ensures { result ≡ is_keyword syms.now.symbols s.0 }
{
    home_of(syms, s) == b"KEYWORD".as_slice()
}

/// Whether it is the keyword of this name.
pub fn is_key(heap: &Heap, syms: &Symbols, name: &[u8], x: Word) -> bool
    requires { Lies heap.now x }
    ensures { result ≡ is_key syms.now.symbols name.now (object_of heap.now x) }
{
    match heap.look(x) {
        Seen::Symbol(s) => is_keyword(syms, s) && symbol_name(syms, s) == name,
        Seen::Integer(_) => false,
        Seen::Text(_) => false,
        Seen::Pair(_, _) => false,
    }
}

#[tactic(auto, using(crate::proofs::NameLemmas::last_is))]
fn has_stars(syms: &Symbols, s: SymId) -> bool
    ensures { result ≡ has_stars syms.now.symbols s.0 }
{
    let name = symbol_name(syms, s);
    if name.len() < 3 {
        return false;
    }
    if name[0] != b'*' {
        return false;
    }
    name[name.len() - 1] == b'*'
}

fn is_out_of_sight(syms: &Symbols, s: SymId) -> bool
    ensures { result ≡ is_out_of_sight syms.now.symbols s.0 }
{
    home_of(syms, s) == b"%".as_slice() && s.0 != words::HIDDEN_VARIABLE.0
}

fn is_lambda_keyword(syms: &Symbols, s: SymId) -> bool
    ensures { result ≡ (slice_index (symbol_name syms.now.symbols s.0) 0 == 38) }
{
    let name = symbol_name(syms, s);
    if name.is_empty() {
        return false;
    }
    name[0] == b'&'
}

/// Whether a form may bind it as a variable.
pub fn may_be_variable(syms: &Symbols, s: SymId) -> bool
    ensures { result ≡ may_be_variable syms.now.symbols s.0 }
{
    if is_keyword(syms, s) {
        return false;
    }
    if s.0 == words::T || s.0 == words::NIL {
        return false;
    }
    if is_out_of_sight(syms, s) {
        return false;
    }
    if is_lambda_keyword(syms, s) {
        return false;
    }
    !has_stars(syms, s)
}

/// The variable that it names, where a form may bind it.
pub fn variable_name(heap: &Heap, syms: &Symbols, x: Word) -> Option<SymId>
    requires { Lies heap.now x }
    ensures { option_map (λ s. s.0) result ≡ variable_name syms.now.symbols (object_of heap.now x) }
{
    match heap.look(x) {
        Seen::Symbol(s) => if may_be_variable(syms, s) {
            Some(s)
        } else {
            None
        },
        Seen::Integer(_) => None,
        Seen::Text(_) => None,
        Seen::Pair(_, _) => None,
    }
}

/// Whether it is `T`, `NIL` or a keyword.
pub fn is_self_evaluating(syms: &Symbols, s: SymId) -> bool
    ensures { result ≡ is_self_evaluating syms.now.symbols s.0 }
{
    s.0 == words::T || s.0 == words::NIL || is_keyword(syms, s)
}
