//! Fields as they are written.

ghost use Rattle.std.specs.Prelude.{◌≡◌, ◌≤◌, [], ◌∷◌, ◌++◌, length, max, option_map, option_and_then, unwrap_or, codes, IfOk, OnOk};
ghost use Rattle.model_objects.specs.Object.{Symbol};
ghost use Rattle.model_expansion.specs.Forms.{each, is_keyword_object};
ghost use Rattle.model_stobjs.specs.Keys.{keys_in};
ghost use Rattle.model_stobjs.specs.Descriptors.{flag_or_false, field_keys, written_field_of, written_field, before_first, from_first};
ghost use Rattle.acl_heap.specs.Objects.{object_of, Lies};
ghost use Rattle.acl_layers.specs.Lists.{items_along, option_reach};
ghost use Rattle.acl_stobj_read.specs.Keys.{value_along};
ghost use Rattle.acl_stobj_read.specs.Written.{seen_written, written_reach, seen_fields, fields_reach};
ghost use Rattle.acl_stobj_written.specs.Fields.{SeenField, SeenFields};

use acl_base::{SymId, Word};
use acl_heap::{Heap, Seen};
use acl_layers::{is_keyword, is_symbol, is_true_list};
use acl_stobj_read::{Key, WrittenField, are_field_keys, key_value, symbol};
use acl_syms::Symbols;
use sqlite_items::Items;
use std::alloc::{AllocError, Global};

const TRUE: u32 = 0;

const NIL: u32 = 1;

/// `T`.
const TRUE_WORD: Word = Word::Sym(SymId(0));

/// Whether a flag is `T`; it is `NIL` where it is not given.
fn flag_or_false(heap: &Heap, x: Option<Word>) -> Option<bool>
    requires { option_reach x ≤ length heap.now }
    ensures { flag_or_false (option_map (object_of heap.now) x) ≡ result }
{
    let Some(x) = x else {
        return Some(false);
    };
    if is_symbol(heap, x, TRUE) {
        return Some(true);
    }
    if is_symbol(heap, x, NIL) {
        Some(false)
    } else {
        None
    }
}

/// The type of a field; each value meets it where it is not given.
fn type_of(heap: &Heap, syms: &Symbols, keys: Word) -> Word
    requires { Lies heap.now keys }
    ensures is { object_of heap.now result ≡ unwrap_or (value_along syms.now.symbols (codes "TYPE") (items_along (object_of heap.now keys))) (Symbol 0) }
    ensures lies { Lies heap.now result }
{
    match key_value(heap, syms, Key::Type, keys) {
        Some(spec) => spec,
        None => TRUE_WORD,
    }
}

fn initial_of(heap: &Heap, syms: &Symbols, keys: Word) -> Option<Word>
    requires { Lies heap.now keys }
    ensures is { value_along syms.now.symbols (codes "INITIALLY") (items_along (object_of heap.now keys)) ≡ option_map (object_of heap.now) result }
    ensures lies { option_reach result ≤ length heap.now }
{
    key_value(heap, syms, Key::Initially, keys)
}

fn is_resizable(heap: &Heap, syms: &Symbols, keys: Word) -> Option<bool>
    requires { Lies heap.now keys }
    ensures { flag_or_false (value_along syms.now.symbols (codes "RESIZABLE") (items_along (object_of heap.now keys))) ≡ result }
{
    flag_or_false(heap, key_value(heap, syms, Key::Resizable, keys))
}

/// The field of a name and of keys with values.
#[tactic(auto, using(crate::proofs::FieldLemmas::no_keys, crate::proofs::FieldLemmas::no_flag, crate::proofs::FieldLemmas::field_is))]
fn field_with(heap: &Heap, syms: &Symbols, name: SymId, keys: Word) -> Option<WrittenField>
    requires { Lies heap.now keys }
    ensures { SeenField heap.now result (option_and_then (written_field_of name.0) (keys_in syms.now.symbols field_keys (items_along (object_of heap.now keys)))) }
{
    if !are_field_keys(heap, syms, keys) {
        return None;
    }
    match is_resizable(heap, syms, keys) {
        None => None,
        Some(resizable) => Some(WrittenField {
            name,
            spec: type_of(heap, syms, keys),
            initial: initial_of(heap, syms, keys),
            resizable,
        }),
    }
}

/// A field: a symbol, or a list of a symbol and keys.
#[tactic(auto, using(crate::proofs::FieldLemmas::plain, crate::proofs::FieldLemmas::not_listed, crate::proofs::FieldLemmas::listed_other, crate::proofs::FieldLemmas::listed))]
fn written_field(heap: &Heap, syms: &Symbols, x: Word) -> Option<WrittenField>
    requires { Lies heap.now x }
    ensures { SeenField heap.now result (written_field syms.now.symbols (object_of heap.now x)) }
{
    match heap.look(x) {
        Seen::Symbol(name) => Some(WrittenField {
            name,
            spec: TRUE_WORD,
            initial: None,
            resizable: false,
        }),
        Seen::Pair(head, keys) => {
            if !is_true_list(heap, keys) {
                return None;
            }
            match symbol(heap, head) {
                None => None,
                Some(name) => field_with(heap, syms, name, keys),
            }
        }
        Seen::Integer(_) => None,
        Seen::Text(_) => None,
    }
}

fn is_keyword_object(heap: &Heap, syms: &Symbols, x: Word) -> bool
    requires { Lies heap.now x }
    ensures { result ≡ is_keyword_object syms.now.symbols (object_of heap.now x) }
{
    match heap.look(x) {
        Seen::Symbol(s) => is_keyword(syms, s),
        Seen::Integer(_) => false,
        Seen::Text(_) => false,
        Seen::Pair(_, _) => false,
    }
}

#[tactic(auto, using(crate::proofs::FieldLemmas::field_pushed, crate::proofs::FieldLemmas::reach_pushed))]
fn push_field(
    _heap: &Heap,
    all: &mut Items<WrittenField>,
    field: WrittenField,
) -> Result<(), AllocError>
    ensures at { OnOk result (seen_fields _heap.now all.new ≡ seen_fields _heap.now all.old ++ seen_written _heap.now field ∷ []) }
    ensures reach { OnOk result (fields_reach all.new ≡ max (fields_reach all.old) (written_reach field)) }
{
    all.push(field)?;
    Ok(())
}

/// The fields of a list up to the first keyword, and the list from there on.
#[tactic(auto, using(crate::proofs::FieldLemmas::fields_more, crate::proofs::FieldLemmas::fields_bad, crate::proofs::FieldLemmas::fields_key, crate::proofs::FieldLemmas::fields_end, crate::proofs::FieldLemmas::behind_more, crate::proofs::FieldLemmas::behind_key, crate::proofs::FieldLemmas::behind_end, crate::proofs::FieldLemmas::start))]
pub fn fields_of(
    alloc: Global,
    heap: &Heap,
    syms: &Symbols,
    list: Word,
) -> Result<Option<(Items<WrittenField>, Word)>, AllocError>
    requires { Lies heap.now list }
    ensures { IfOk result (λ r. SeenFields heap.now r (each (written_field syms.now.symbols) (before_first (is_keyword_object syms.now.symbols) (items_along (object_of heap.now list)))) (from_first (is_keyword_object syms.now.symbols) (items_along (object_of heap.now list)))) }
{
    let mut found = Items::new(alloc);
    let mut rest = list;
    'fields: while let Seen::Pair(first, next) = heap.look(rest) {
        if is_keyword_object(heap, syms, first) {
            return Ok(Some((found, rest)));
        }
        match written_field(heap, syms, first) {
            Some(field) => push_field(heap, &mut found, field)?,
            None => return Ok(None),
        }
        rest = next;
    }
    Ok(Some((found, rest)))
}
