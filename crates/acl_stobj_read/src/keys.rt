//! Keys with values.

ghost use Rattle.std.specs.Prelude.{◌≡◌, ◌≤◌, length, map, option_map, is_some};
ghost use Rattle.model_stobjs.specs.Keys.{known_key, keys_in};
ghost use Rattle.model_stobjs.specs.Descriptors.{field_keys, stobj_keys};
ghost use Rattle.acl_heap.specs.Objects.{object_of, Lies};
ghost use Rattle.acl_layers.specs.Lists.{items_along, option_reach};
ghost use Rattle.acl_stobj_read.specs.Keys.{key_name, value_along};

use acl_base::Word;
use acl_heap::{Heap, Seen};
use acl_layers::is_key;
use acl_syms::Symbols;

/// A key of a field, or of a stobj.
#[derive(Clone, Copy, Debug, PartialEq, Eq)]
pub enum Key {
    Type,
    Initially,
    Resizable,
    Renaming,
    Inline,
    NonMemoizable,
    NonExecutable,
    CongruentTo,
}

impl Key {
    pub fn name(self) -> &'static [u8]
        ensures { result.now ≡ key_name self }
    {
        match self {
            Key::Type => b"TYPE",
            Key::Initially => b"INITIALLY",
            Key::Resizable => b"RESIZABLE",
            Key::Renaming => b"RENAMING",
            Key::Inline => b"INLINE",
            Key::NonMemoizable => b"NON-MEMOIZABLE",
            Key::NonExecutable => b"NON-EXECUTABLE",
            Key::CongruentTo => b"CONGRUENT-TO",
        }
    }
}

/// Which of these keys an object is.
#[tactic(auto, using(crate::proofs::KeyLemmas::known_step, crate::proofs::KeyLemmas::known_found, crate::proofs::KeyLemmas::known_end))]
fn known_key(heap: &Heap, syms: &Symbols, known: &[Key], x: Word) -> Option<Key>
    requires { Lies heap.now x }
    ensures { known_key syms.now.symbols (map key_name known.now) (object_of heap.now x) ≡ option_map key_name result }
{
    let mut rest = known;
    'keys: while let Some((key, others)) = rest.split_first() {
        if is_key(heap, syms, key.name(), x) {
            return Some(*key);
        }
        rest = others;
    }
    None
}

/// The value of a key, where a list has it.
#[tactic(auto, using(crate::proofs::KeyLemmas::value_other, crate::proofs::KeyLemmas::value_found, crate::proofs::KeyLemmas::value_odd, crate::proofs::KeyLemmas::value_end))]
pub fn key_value(heap: &Heap, syms: &Symbols, key: Key, list: Word) -> Option<Word>
    requires { Lies heap.now list }
    ensures is { value_along syms.now.symbols (key_name key) (items_along (object_of heap.now list)) ≡ option_map (object_of heap.now) result }
    ensures lies { option_reach result ≤ length heap.now }
{
    let mut at = list;
    'pairs: while let Seen::Pair(name, rest) = heap.look(at) {
        match heap.look(rest) {
            Seen::Pair(value, next) => {
                if is_key(heap, syms, key.name(), name) {
                    return Some(value);
                }
                at = next;
            }
            Seen::Symbol(_) => return None,
            Seen::Integer(_) => return None,
            Seen::Text(_) => return None,
        }
    }
    None
}

/// Whether a list is one of these keys with values, no key twice.
#[tactic(auto, using(crate::proofs::KeyLemmas::keys_more, crate::proofs::KeyLemmas::keys_twice, crate::proofs::KeyLemmas::keys_unknown, crate::proofs::KeyLemmas::keys_odd, crate::proofs::KeyLemmas::keys_end))]
fn are_keys(heap: &Heap, syms: &Symbols, known: &[Key], list: Word) -> bool
    requires { Lies heap.now list }
    ensures { result ≡ is_some (keys_in syms.now.symbols (map key_name known.now) (items_along (object_of heap.now list))) }
{
    let mut at = list;
    'pairs: while let Seen::Pair(name, rest) = heap.look(at) {
        let Seen::Pair(_, next) = heap.look(rest) else {
            return false;
        };
        let Some(key) = known_key(heap, syms, known, name) else {
            return false;
        };
        match key_value(heap, syms, key, next) {
            Some(_) => return false,
            None => at = next,
        }
    }
    true
}

/// Whether a list is one of keys that a field may have, with values, no key twice.
pub fn are_field_keys(heap: &Heap, syms: &Symbols, list: Word) -> bool
    requires { Lies heap.now list }
    ensures { result ≡ is_some (keys_in syms.now.symbols field_keys (items_along (object_of heap.now list))) }
{
    are_keys(
        heap,
        syms,
        &[Key::Type, Key::Initially, Key::Resizable],
        list,
    )
}

/// Whether a list is one of keys that a stobj may have, with values, no key twice.
pub fn are_stobj_keys(heap: &Heap, syms: &Symbols, list: Word) -> bool
    requires { Lies heap.now list }
    ensures { result ≡ is_some (keys_in syms.now.symbols stobj_keys (items_along (object_of heap.now list))) }
{
    let keys = [
        Key::Renaming,
        Key::Inline,
        Key::NonMemoizable,
        Key::NonExecutable,
        Key::CongruentTo,
    ];
    are_keys(heap, syms, &keys, list)
}
