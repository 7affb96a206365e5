//! Which names may be given.

ghost use Rattle.std.specs.Prelude.{◌≡◌, ◌≤◌, map, length, option_map};
ghost use Rattle.model_objects.specs.Object.{Symbol};
ghost use Rattle.model_expansion.specs.Forms.{has_stars, may_be_defined};
ghost use Rattle.model_expansion.specs.Faults.{BadName};
ghost use Rattle.model_stobjs.specs.Answers.{first_given};
ghost use Rattle.model_stobjs.specs.Heads.{is_good_name, bad_name, bad_name_at};
ghost use Rattle.model_stobjs.specs.Descriptors.{names_tested};
ghost use Rattle.acl_heap.specs.Objects.{object_of, Lies};
ghost use Rattle.acl_layers.specs.Lists.{option_reach};
ghost use Rattle.acl_stobj_read.specs.Written.{stobj_reach, seen_stobj, field_names, renamed_names};

use crate::written::{WrittenField, WrittenStobj};
use acl_base::{SymId, Word};
use acl_heap::{Heap, Seen};
use acl_layers::{home_of, is_keyword, symbol_name};
use acl_syms::Symbols;

#[tactic(auto, using(acl_layers::proofs::NameLemmas::last_is))]
fn has_stars(syms: &Symbols, s: SymId) -> bool
    ensures { result ≡ has_stars syms.now.symbols s.0 }
{
    let name = symbol_name(syms, s);
    if name.len() < 3 {
        return false;
    }
    if name[0] != b'*' {
        return false;
    }
    name[name.len() - 1] == b'*'
}

/// Whether a symbol may name a function, a macro or a stobj.
pub fn may_be_defined(syms: &Symbols, s: SymId) -> bool
    ensures { result ≡ may_be_defined syms.now.symbols s.0 }
{
    if home_of(syms, s) == b"COMMON-LISP".as_slice() {
        return false;
    }
    if is_keyword(syms, s) {
        return false;
    }
    if home_of(syms, s) == b"%".as_slice() {
        return false;
    }
    !has_stars(syms, s)
}

fn is_good_name(heap: &Heap, syms: &Symbols, x: Word) -> bool
    requires { Lies heap.now x }
    ensures { result ≡ is_good_name syms.now.symbols (object_of heap.now x) }
{
    match heap.look(x) {
        Seen::Symbol(s) => may_be_defined(syms, s),
        Seen::Integer(_) => false,
        Seen::Text(_) => false,
        Seen::Pair(_, _) => false,
    }
}

/// The first field whose name may not be given.
#[tactic(auto, using(crate::proofs::NameLemmas::field_good, crate::proofs::NameLemmas::field_bad, crate::proofs::NameLemmas::field_end))]
fn bad_field(syms: &Symbols, fields: &[WrittenField]) -> Option<SymId>
    ensures { first_given (bad_name_at syms.now.symbols) (field_names fields.now) ≡ option_map (λ s. BadName (Symbol s.0)) result }
{
    let mut rest = fields;
    'fields: while let Some((field, others)) = rest.split_first() {
        if !may_be_defined(syms, field.name) {
            return Some(field.name);
        }
        rest = others;
    }
    None
}

/// The first name to be put for another that may not be given.
#[tactic(auto, using(crate::proofs::NameLemmas::renamed_good, crate::proofs::NameLemmas::renamed_bad, crate::proofs::NameLemmas::renamed_end))]
fn bad_renamed(syms: &Symbols, renaming: &[(SymId, SymId)]) -> Option<SymId>
    ensures { first_given (bad_name_at syms.now.symbols) (renamed_names renaming.now) ≡ option_map (λ s. BadName (Symbol s.0)) result }
{
    let mut rest = renaming;
    'names: while let Some((pair, others)) = rest.split_first() {
        if !may_be_defined(syms, pair.1) {
            return Some(pair.1);
        }
        rest = others;
    }
    None
}

/// The first name that may not be given: the stobj's, a field's, or one that is to be put for another.
#[tactic(auto, using(crate::proofs::NameLemmas::stobj_bad, crate::proofs::NameLemmas::then_field, crate::proofs::NameLemmas::then_renamed))]
pub fn bad_name(heap: &Heap, syms: &Symbols, stobj: &WrittenStobj) -> Option<Word>
    requires { stobj_reach stobj.now ≤ length heap.now }
    ensures is { bad_name syms.now.symbols (names_tested (seen_stobj heap.now stobj.now)) ≡ option_map (λ x. BadName (object_of heap.now x)) result }
    ensures lies { option_reach result ≤ length heap.now }
{
    if !is_good_name(heap, syms, stobj.name) {
        return Some(stobj.name);
    }
    match bad_field(syms, stobj.fields.as_slice()) {
        Some(name) => Some(Word::Sym(name)),
        None => match bad_renamed(syms, stobj.renaming.as_slice()) {
            Some(name) => Some(Word::Sym(name)),
            None => None,
        },
    }
}
