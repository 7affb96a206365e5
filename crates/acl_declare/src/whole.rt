//! What all declarations of a definition say.

ghost use Rattle.std.specs.Prelude.{◌≡◌, ◌≤◌, length, Some, None, IfOk, OnOk, if◌then◌else◌};
ghost use Rattle.model_events.specs.Declarations.{headed_declared, item_declared, declarations};
ghost use Rattle.acl_heap.specs.Objects.{object_of, Lies, Extends};
ghost use Rattle.acl_terms.specs.Forms.{numbers};
ghost use Rattle.acl_layers.specs.Lists.{items_along};
ghost use Rattle.acl_declare.specs.Quiet.{is_quiet};
ghost use Rattle.acl_declare.specs.Said.{seen_declared, declared_reach, SeenDeclared, after_said, words_at, words_reach};

use crate::said::{Declared, nothing};
use crate::table::table_of;
use crate::typed::typed;
use crate::words;
use crate::xargs::xargs;
use acl_base::{SymId, Word};
use acl_heap::{Heap, Seen};
use acl_layers::{is_symbol, is_true_list};
use acl_names::Names;
use acl_syms::Symbols;
use std::alloc::{AllocError, Global};

/// Whether it is a head of which nothing is asked here.
fn is_quiet(heap: &Heap, head: Word) -> bool
    requires { Lies heap.now head }
    ensures { result ≡ is_quiet (object_of heap.now head) }
{
    if is_symbol(heap, head, words::IGNORE) {
        return true;
    }
    if is_symbol(heap, head, words::IGNORABLE) {
        return true;
    }
    is_symbol(heap, head, words::OPTIMIZE)
}

/// What stands behind a head. False where it is wrong.
#[tactic(auto, using(crate::proofs::ItemLemmas::headed_xargs, crate::proofs::ItemLemmas::headed_type, crate::proofs::ItemLemmas::headed_other))]
fn headed(
    alloc: Global,
    heap: &mut Heap,
    syms: &Symbols,
    table: &Names,
    said: &mut Declared,
    head: Word,
    rest: Word,
) -> Result<bool, AllocError>
    requires head { Lies heap.old head }
    requires rest { Lies heap.old rest }
    requires said { declared_reach said.old ≤ length heap.old }
    ensures grows { Extends heap.old heap.new }
    ensures is { IfOk result (λ b. after_said (seen_declared heap.old said.old) (headed_declared syms.now.symbols table.now (object_of heap.old head) (items_along (object_of heap.old rest))) ≡ (if b then Some (seen_declared heap.new said.new) else None)) }
    ensures reach { OnOk result (declared_reach said.new ≤ length heap.new) }
{
    if is_symbol(heap, head, words::XARGS) {
        let added = xargs(alloc, heap, syms, said, rest)?;
        return Ok(added);
    }
    if is_symbol(heap, head, words::TYPE) {
        match typed(alloc, heap, syms, table, said, rest) {
            Err(refused) => return Err(refused),
            Ok(added) => return Ok(added),
        }
    }
    Ok(is_quiet(heap, head))
}

/// An item of a declaration. False where it is wrong.
#[tactic(auto, using(crate::proofs::ItemLemmas::item_bad, crate::proofs::ItemLemmas::item_headed, crate::proofs::ItemLemmas::item_empty))]
fn add_item(
    alloc: Global,
    heap: &mut Heap,
    syms: &Symbols,
    table: &Names,
    said: &mut Declared,
    item: Word,
) -> Result<bool, AllocError>
    requires item { Lies heap.old item }
    requires said { declared_reach said.old ≤ length heap.old }
    ensures grows { Extends heap.old heap.new }
    ensures is { IfOk result (λ b. after_said (seen_declared heap.old said.old) (item_declared syms.now.symbols table.now (object_of heap.old item)) ≡ (if b then Some (seen_declared heap.new said.new) else None)) }
    ensures reach { OnOk result (declared_reach said.new ≤ length heap.new) }
{
    if !is_true_list(heap, item) {
        return Ok(false);
    }
    match heap.look(item) {
        Seen::Pair(head, rest) => {
            match headed(alloc, heap, syms, table, said, head, rest) {
                Err(refused) => Err(refused),
                Ok(added) => Ok(added),
            }
        }
        Seen::Symbol(_) => Ok(false),
        Seen::Integer(_) => Ok(false),
        Seen::Text(_) => Ok(false),
    }
}

#[tactic(auto, using(crate::proofs::ItemLemmas::items_more, crate::proofs::ItemLemmas::items_wrong, crate::proofs::ItemLemmas::items_end, crate::proofs::ItemLemmas::first_lies, crate::proofs::ItemLemmas::others_lie))]
fn add_items(
    alloc: Global,
    heap: &mut Heap,
    syms: &Symbols,
    table: &Names,
    said: &mut Declared,
    items: &[Word],
) -> Result<bool, AllocError>
    requires items { words_reach items.now ≤ length heap.old }
    requires said { declared_reach said.old ≤ length heap.old }
    ensures grows { Extends heap.old heap.new }
    ensures is { IfOk result (λ b. after_said (seen_declared heap.old said.old) (declarations syms.now.symbols table.now (words_at heap.old items.now)) ≡ (if b then Some (seen_declared heap.new said.new) else None)) }
    ensures reach { OnOk result (declared_reach said.new ≤ length heap.new) }
{
    let mut rest = items;
    'items: while let Some((item, others)) = rest.split_first() {
        if !add_item(alloc, heap, syms, table, said, *item)? {
            return Ok(false);
        }
        rest = others;
    }
    Ok(true)
}

/// What the items of declarations say over these formals. None where one is wrong.
#[tactic(auto, using(crate::proofs::ItemLemmas::all_said, crate::proofs::ItemLemmas::one_wrong))]
pub fn declarations(
    alloc: Global,
    heap: &mut Heap,
    syms: &Symbols,
    formals: &[SymId],
    items: &[Word],
) -> Result<Option<Declared>, AllocError>
    requires { words_reach items.now ≤ length heap.old }
    ensures grows { Extends heap.old heap.new }
    ensures ok { IfOk result (λ d. SeenDeclared heap.new d (declarations syms.now.symbols (numbers formals.now) (words_at heap.old items.now))) }
{
    let table = table_of(alloc, formals)?;
    let mut said = nothing(alloc, heap);
    match add_items(alloc, heap, syms, &table, &mut said, items) {
        Err(refused) => Err(refused),
        Ok(added) => {
            if !added {
                return Ok(None);
            }
            Ok(Some(said))
        }
    }
}
