//! The primitives on symbols and strings.

ghost use Rattle.std.specs.Prelude.{◌≡◌, ◌<◌, ◌++◌, length, IfOk, OnErr};
ghost use Rattle.model_objects.specs.Named.{Knows};
ghost use Rattle.model_symbols.specs.Symbols.{symbol_at};
ghost use Rattle.model_symbols.specs.Growth as growth;
ghost use Rattle.acl_heap.specs.Objects.{object_of, Lies, Extends};
ghost use Rattle.model_objects.specs.Object.{Text};
ghost use Rattle.acl_prims.specs.Made.{Holds};
ghost use Rattle.acl_numbers.specs.Answers.{IsAnswer};
ghost use Rattle.model_prims.specs.Kinds.{by_number};
ghost use Rattle.model_prims.specs.Values.{named_by, name_of, bytes_of, interned_beside, Interned};
ghost use Rattle.model_prims.specs.Applied.{bounded};

use crate::NIL;
use acl_base::{SymId, Word};
use acl_heap::{Heap, HeapFault, Seen};
use acl_numbers::{PrimStop, answer};
use acl_syms::{SymFault, Symbols};
use model_prims::Naming;
use std::alloc::{AllocError, Global};

/// The name of a symbol; "" of other objects.
fn name(x: Word, heap: &mut Heap, syms: &Symbols) -> Result<Word, HeapFault>
    requires lies { Lies heap.old x }
    requires known { Knows (length syms.now.symbols) (object_of heap.old x) }
    ensures made { Holds heap.new (name_of by_number (λ s. (symbol_at syms.now.symbols s).name) (object_of heap.old x)) result }
    ensures grows { Extends heap.old heap.new }
{
    match heap.look(x) {
        Seen::Symbol(s) => heap.string(syms.name(s)),
        Seen::Integer(_) => heap.string(&[]),
        Seen::Text(_) => heap.string(&[]),
        Seen::Pair(_, _) => heap.string(&[]),
    }
}

/// The name of a symbol's package.
#[tactic(auto, using(crate::proofs::Names::home_of))]
fn home<'a>(s: SymId, syms: &'a Symbols) -> &'a [u8]
    requires { s.0 < length syms.now.symbols }
    ensures { result.now ≡ (symbol_at syms.now.symbols s.0).home }
{
    syms.package_name(syms.package(s))
}

/// The name of a symbol's package; "" of other objects.
fn package_name(x: Word, heap: &mut Heap, syms: &Symbols) -> Result<Word, HeapFault>
    requires lies { Lies heap.old x }
    requires known { Knows (length syms.now.symbols) (object_of heap.old x) }
    ensures made { Holds heap.new (name_of by_number (λ s. (symbol_at syms.now.symbols s).home) (object_of heap.old x)) result }
    ensures grows { Extends heap.old heap.new }
{
    match heap.look(x) {
        Seen::Symbol(s) => heap.string(home(s, syms)),
        Seen::Integer(_) => heap.string(&[]),
        Seen::Text(_) => heap.string(&[]),
        Seen::Pair(_, _) => heap.string(&[]),
    }
}

/// The bytes of a string, and none of another object.
fn bytes<'a>(x: Word, heap: &'a Heap) -> &'a [u8]
    requires { Lies heap.now x }
    ensures { result.now ≡ bytes_of (object_of heap.now x) }
{
    match heap.look(x) {
        Seen::Text(bytes) => bytes,
        Seen::Integer(_) => &[],
        Seen::Symbol(_) => &[],
        Seen::Pair(_, _) => &[],
    }
}

fn joined(alloc: Global, x: Word, y: Word, heap: &Heap) -> Result<Vec<u8>, AllocError>
    requires x { Lies heap.now x }
    requires y { Lies heap.now y }
    ensures { IfOk result (λ v. v.items ≡ bytes_of (object_of heap.now x) ++ bytes_of (object_of heap.now y)) }
{
    let mut all = Vec::from_slice(alloc, bytes(x, heap))?;
    all.extend_from_slice(bytes(y, heap))?;
    Ok(all)
}

/// The two strings joined.
fn append(alloc: Global, x: Word, y: Word, heap: &mut Heap) -> Result<Word, HeapFault>
    requires x { Lies heap.old x }
    requires y { Lies heap.old y }
    ensures made { Holds heap.new (Text (bytes_of (object_of heap.old x) ++ bytes_of (object_of heap.old y))) result }
    ensures grows { Extends heap.old heap.new }
{
    match joined(alloc, x, y, heap) {
        Ok(all) => heap.string(all.as_slice()),
        Err(_) => Err(HeapFault::Memory),
    }
}

/// The symbol of a string in a symbol's package; `NIL` for other objects.
#[tactic(auto, unfolding(model_prims::specs::Applied::bounded))]
fn intern(name: Word, beside: Word, heap: &Heap, syms: &mut Symbols) -> Result<Word, PrimStop>
    requires name { Lies heap.now name }
    requires beside { Lies heap.now beside }
    requires known { Knows (length syms.old.symbols) (object_of heap.now beside) }
    ensures answer { IsAnswer heap.now syms.new.symbols (bounded syms.old (interned_beside by_number (object_of heap.now name) (object_of heap.now beside))) result }
    ensures grows { growth.Extends syms.old syms.new }
    ensures packages { syms.new.packages ≡ syms.old.packages }
    ensures err { OnErr result (syms.new ≡ syms.old) }
{
    match heap.look(name) {
        Seen::Text(bytes) => match heap.look(beside) {
            Seen::Symbol(s) => interned(bytes, s, heap, syms),
            Seen::Integer(_) => Ok(NIL),
            Seen::Text(_) => Ok(NIL),
            Seen::Pair(_, _) => Ok(NIL),
        },
        Seen::Integer(_) => Ok(NIL),
        Seen::Symbol(_) => Ok(NIL),
        Seen::Pair(_, _) => Ok(NIL),
    }
}

/// The symbol of a name in a symbol's package.
#[tactic(auto, using(crate::proofs::Names::interning))]
fn interned(name: &[u8], s: SymId, _heap: &Heap, syms: &mut Symbols) -> Result<Word, PrimStop>
    requires { s.0 < length syms.old.symbols }
    ensures answer { IsAnswer _heap.now syms.new.symbols (bounded syms.old (Interned name.now s.0)) result }
    ensures grows { growth.Extends syms.old syms.new }
    ensures packages { syms.new.packages ≡ syms.old.packages }
    ensures err { OnErr result (syms.new ≡ syms.old) }
{
    let home = syms.package(s);
    match syms.intern_in(home, name) {
        Ok(symbol) => {
            syms.is_table();
            Ok(Word::Sym(symbol))
        }
        Err(SymFault::TooMany) => Err(PrimStop::SymbolLimit),
        Err(SymFault::Memory) => Err(PrimStop::Memory),
        Err(SymFault::UnknownPackage) => unreachable!(),
        Err(SymFault::PackageExists) => unreachable!(),
        Err(
            SymFault::ImportClash {
                first: _,
                second: _,
            },
        ) => unreachable!(),
    }
}

#[tactic(auto, using(crate::proofs::Given::given), unfolding(model_prims::specs::Applied::bounded, model_prims::specs::Values::named_by))]
pub fn named_by(
    alloc: Global,
    prim: Naming,
    x: Word,
    y: Word,
    heap: &mut Heap,
    syms: &mut Symbols,
) -> Result<Word, PrimStop>
    requires x { Lies heap.old x }
    requires y { Lies heap.old y }
    requires x_known { Knows (length syms.old.symbols) (object_of heap.old x) }
    requires y_known { Knows (length syms.old.symbols) (object_of heap.old y) }
    ensures answer { IsAnswer heap.new syms.new.symbols (bounded syms.old (named_by by_number (symbol_at syms.old.symbols) prim (object_of heap.old x) (object_of heap.old y))) result }
    ensures grows { Extends heap.old heap.new }
    ensures symbols { growth.Extends syms.old syms.new }
    ensures packages { syms.new.packages ≡ syms.old.packages }
    ensures err { OnErr result (syms.new ≡ syms.old) }
{
    match prim {
        Naming::SymbolName => answer(name(x, heap, syms)),
        Naming::SymbolPackageName => answer(package_name(x, heap, syms)),
        Naming::Intern => intern(x, y, heap, syms),
        Naming::StringAppend => answer(append(alloc, x, y, heap)),
    }
}
