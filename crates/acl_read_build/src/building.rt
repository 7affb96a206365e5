// Lexemes, one after the other.

ghost use Rattle.std.specs.Prelude.{◌≡◌, ℕ, ◌+◌, ◌<◌, ◌≤◌, ◌∷◌, [], length, IfErr, IfOk, OnOk, MatchOption};
ghost use Rattle.model_symbols.specs.Symbols.{symbol_at};
ghost use Rattle.model_objects.specs.Object.{Integer, Symbol, Text, weight, max_weight};
ghost use Rattle.model_text.specs.Backquote.{Plain, item_form, item_expansion, quoted_item};
ghost use Rattle.model_text.specs.Parts.{Parts, put, put_all, delivered, closed, dotted};
ghost use Rattle.acl_forms.specs.Forms.{form_at, IsWhole, StandsFor, Grown};
ghost use Rattle.acl_read_lexemes.specs.Lexemes.{lexeme_at, form_of, IsKnown};
ghost use Rattle.acl_read_lexemes.specs.Opening.{IsForm};
ghost use Rattle.acl_read_build.specs.Slots.{item_at, part_at, parts_at, IsWholeItem, IsWholeSlot, AreWholeSlots, Grows, Popped, Pushed, IsGood, put_weight};
ghost use Rattle.acl_read_build.specs.Building.{HasNames, Refuses, Builds};
ghost use Rattle.acl_read_build.specs.declared.Refusal.TheVariants.{Memory};

use crate::joining::{expansion, join, join_all};
use crate::making::{nil, quote};
use crate::{Item, Refusal, Slot};
use acl_base::{SymId, Word};
use acl_heap::{Heap, HeapFault};
use acl_read_lexemes::{Lexeme, Placed};
use acl_syms::Symbols;
use std::alloc::Global;

// Takes the innermost part off.
fn pop(slots: &mut Vec<Slot>, _heap: &Heap, _syms: &Symbols) -> Option<Slot>
    requires { AreWholeSlots _syms.now _heap.now slots.old.items }
    ensures { MatchOption result (parts_at _syms.now _heap.now slots.old.items ≡ []) (λ s. Popped _syms.now _heap.now slots.old.items slots.new.items s) }
{
    match slots.pop() {
        None => None,
        Some(slot) => Some(slot),
    }
}

// Puts a part on.
fn push(slots: &mut Vec<Slot>, _heap: &Heap, _syms: &Symbols, slot: Slot) -> Result<(), Refusal>
    requires slots { AreWholeSlots _syms.now _heap.now slots.old.items }
    requires slot { IsWholeSlot _syms.now _heap.now slot }
    ensures ok { OnOk result (Pushed _syms.now _heap.now slots.old.items slots.new.items slot) }
    ensures fault { IfErr result (λ e. e ≡ Memory) }
{
    slots.push(slot)?;
    Ok(())
}

fn word_of(item: Item, _heap: &Heap, _syms: &Symbols) -> Word
    requires { IsWholeItem _syms.now _heap.now item }
    ensures { StandsFor _syms.now _heap.now result (item_form (item_at _syms.now _heap.now item)) }
{
    match item {
        Item::Plain(w) => w,
        Item::Made(w) => w,
        Item::Spliced(w) => w,
    }
}

// The list of a quote and an item.
fn quote_item(heap: &mut Heap, syms: &Symbols, item: Item) -> Result<Item, Refusal>
    requires names { HasNames syms.now }
    requires whole { IsWholeItem syms.now heap.old item }
    ensures grows { Grows syms.now heap.old heap.new }
    ensures ok { IfOk result (λ i. (item_at syms.now heap.new i ≡ quoted_item (item_at syms.now heap.old item)) × IsWholeItem syms.now heap.new i) }
    ensures fault { IfErr result (Refuses (weight (item_form (quoted_item (item_at syms.now heap.old item))))) }
{
    let end = Item::Plain(nil(heap, syms));
    let rest = join(heap, syms, item, end)?;
    let head = Item::Plain(quote(heap, syms));
    join(heap, syms, head, rest)
}

// Puts what was read where it belongs.
#[tactic(auto, using(crate::proofs::WeightLemmas::heavy))]
fn deliver(
    slots: &mut Vec<Slot>,
    heap: &mut Heap,
    syms: &Symbols,
    mut item: Item,
) -> Result<Option<Word>, Refusal>
    requires names { HasNames syms.now }
    requires whole { IsWholeItem syms.now heap.old item }
    requires slots { AreWholeSlots syms.now heap.old slots.old.items }
    requires good { IsGood (delivered (item_at syms.now heap.old item) (parts_at syms.now heap.old slots.old.items)) }
    ensures grows { Grows syms.now heap.old heap.new }
    ensures builds { Builds syms.now heap.new slots.new.items (delivered (item_at syms.now heap.old item) (parts_at syms.now heap.old slots.old.items)) result }
{
    while let Some(slot) = pop(slots, heap, syms) {
        match slot {
            Slot::Quoted => item = quote_item(heap, syms, item)?,
            Slot::Backquoted => item = Item::Plain(expansion(heap, syms, item)?),
            Slot::Unquoted => item = Item::Made(word_of(item, heap, syms)),
            Slot::Splicing => item = Item::Spliced(word_of(item, heap, syms)),
            Slot::Opened(mut items) => {
                items.push(item)?;
                push(slots, heap, syms, Slot::Opened(items))?;
                return Ok(None);
            }
            Slot::Dotted(items, dot) => {
                push(slots, heap, syms, Slot::Ended(items, dot, item))?;
                return Ok(None);
            }
            Slot::Ended(_, _, _) => unreachable!(),
        }
    }
    Ok(Some(word_of(item, heap, syms)))
}

// A part opens.
fn open(
    slots: &mut Vec<Slot>,
    heap: &mut Heap,
    syms: &Symbols,
    slot: Slot,
) -> Result<Option<Word>, Refusal>
    requires slots { AreWholeSlots syms.now heap.old slots.old.items }
    requires slot { IsWholeSlot syms.now heap.old slot }
    ensures heap { heap.new ≡ heap.old }
    ensures builds { Builds syms.now heap.old slots.new.items (Parts (part_at syms.now heap.old slot ∷ parts_at syms.now heap.old slots.old.items)) result }
{
    push(slots, heap, syms, slot)?;
    Ok(None)
}

// A list closes.
#[tactic(auto, using(crate::proofs::WeightLemmas::heavy))]
fn close(
    slots: &mut Vec<Slot>,
    heap: &mut Heap,
    syms: &Symbols,
    at: u64,
) -> Result<Option<Word>, Refusal>
    requires names { HasNames syms.now }
    requires slots { AreWholeSlots syms.now heap.old slots.old.items }
    requires good { IsGood (closed at (parts_at syms.now heap.old slots.old.items)) }
    ensures grows { Grows syms.now heap.old heap.new }
    ensures builds { Builds syms.now heap.new slots.new.items (closed at (parts_at syms.now heap.old slots.old.items)) result }
{
    let _ = at;
    match pop(slots, heap, syms) {
        Some(Slot::Opened(items)) => {
            let end = Item::Plain(nil(heap, syms));
            let item = join_all(heap, syms, items, end)?;
            deliver(slots, heap, syms, item)
        }
        Some(Slot::Ended(items, _, end)) => {
            let item = join_all(heap, syms, items, end)?;
            deliver(slots, heap, syms, item)
        }
        Some(Slot::Dotted(_, _)) => unreachable!(),
        Some(Slot::Quoted) => unreachable!(),
        Some(Slot::Backquoted) => unreachable!(),
        Some(Slot::Unquoted) => unreachable!(),
        Some(Slot::Splicing) => unreachable!(),
        None => unreachable!(),
    }
}

// A dot stands behind the first elements of a list.
fn put_dot(
    slots: &mut Vec<Slot>,
    heap: &mut Heap,
    syms: &Symbols,
    at: u64,
) -> Result<Option<Word>, Refusal>
    requires slots { AreWholeSlots syms.now heap.old slots.old.items }
    requires good { IsGood (dotted at (parts_at syms.now heap.old slots.old.items)) }
    ensures heap { heap.new ≡ heap.old }
    ensures builds { Builds syms.now heap.old slots.new.items (dotted at (parts_at syms.now heap.old slots.old.items)) result }
{
    match pop(slots, heap, syms) {
        Some(Slot::Opened(items)) => {
            push(slots, heap, syms, Slot::Dotted(items, at))?;
            Ok(None)
        }
        Some(Slot::Ended(_, _, _)) => unreachable!(),
        Some(Slot::Dotted(_, _)) => unreachable!(),
        Some(Slot::Quoted) => unreachable!(),
        Some(Slot::Backquoted) => unreachable!(),
        Some(Slot::Unquoted) => unreachable!(),
        Some(Slot::Splicing) => unreachable!(),
        None => unreachable!(),
    }
}

// An integer.
fn integer(heap: &mut Heap, _syms: &Symbols, n: i128) -> Result<Item, Refusal>
    ensures grows { Grows _syms.now heap.old heap.new }
    ensures ok { IfOk result (λ i. (item_at _syms.now heap.new i ≡ Plain (Integer n)) × IsWholeItem _syms.now heap.new i) }
    ensures fault { IfErr result (λ e. e ≡ Memory) }
{
    match heap.int(n) {
        Ok(w) => Ok(Item::Plain(w)),
        Err(_) => Err(Refusal::Memory),
    }
}

// A string.
fn string(heap: &mut Heap, _syms: &Symbols, bytes: &[u8]) -> Result<Item, Refusal>
    ensures grows { Grows _syms.now heap.old heap.new }
    ensures ok { IfOk result (λ i. (item_at _syms.now heap.new i ≡ Plain (Text bytes.now)) × IsWholeItem _syms.now heap.new i) }
    ensures fault { IfErr result (Refuses (1 + length bytes.now)) }
{
    match heap.string(bytes) {
        Ok(w) => Ok(Item::Plain(w)),
        Err(HeapFault::TooLarge { .. }) => Err(Refusal::TooLarge),
        Err(HeapFault::Memory) => Err(Refusal::Memory),
    }
}

fn symbol(_heap: &Heap, _syms: &Symbols, s: SymId) -> Item
    requires { s.0 < length _syms.now.symbols }
    ensures is { item_at _syms.now _heap.now result ≡ Plain (Symbol (symbol_at _syms.now.symbols s.0)) }
    ensures whole { IsWholeItem _syms.now _heap.now result }
{
    Item::Plain(Word::Sym(s))
}

// A lexeme.
#[tactic(auto, using(crate::proofs::GrowthLemmas::unmoved, crate::proofs::WeightLemmas::heavy, crate::proofs::WeightLemmas::put_open, crate::proofs::WeightLemmas::put_quote, crate::proofs::WeightLemmas::put_backquote, crate::proofs::WeightLemmas::put_comma, crate::proofs::WeightLemmas::put_comma_at))]
fn put(
    alloc: Global,
    slots: &mut Vec<Slot>,
    heap: &mut Heap,
    syms: &Symbols,
    placed: &Placed,
) -> Result<Option<Word>, Refusal>
    requires names { HasNames syms.now }
    requires slots { AreWholeSlots syms.now heap.old slots.old.items }
    requires known { IsKnown (length syms.now.symbols) placed.now.lexeme }
    requires good { IsGood (put (lexeme_at syms.now.symbols placed.now.lexeme) placed.now.at (parts_at syms.now heap.old slots.old.items)) }
    ensures grows { Grows syms.now heap.old heap.new }
    ensures builds { Builds syms.now heap.new slots.new.items (put (lexeme_at syms.now.symbols placed.now.lexeme) placed.now.at (parts_at syms.now heap.old slots.old.items)) result }
{
    match &placed.lexeme {
        Lexeme::Number(n) => {
            let item = integer(heap, syms, *n)?;
            deliver(slots, heap, syms, item)
        }
        Lexeme::Name(s) => {
            let item = symbol(heap, syms, *s);
            deliver(slots, heap, syms, item)
        }
        Lexeme::Text(bytes) => {
            let item = string(heap, syms, bytes.as_slice())?;
            deliver(slots, heap, syms, item)
        }
        Lexeme::Open => open(slots, heap, syms, Slot::Opened(Vec::new(alloc))),
        Lexeme::Close => close(slots, heap, syms, placed.at),
        Lexeme::Dot => put_dot(slots, heap, syms, placed.at),
        Lexeme::Quote => open(slots, heap, syms, Slot::Quoted),
        Lexeme::Backquote => open(slots, heap, syms, Slot::Backquoted),
        Lexeme::Comma => open(slots, heap, syms, Slot::Unquoted),
        Lexeme::CommaAt => open(slots, heap, syms, Slot::Splicing),
    }
}

fn build_all(
    alloc: Global,
    lexemes: &[Placed],
    heap: &mut Heap,
    syms: &Symbols,
) -> Result<Word, Refusal>
    requires names { HasNames syms.now }
    requires form { IsForm syms.now.symbols lexemes.now }
    ensures grows { Grows syms.now heap.old heap.new }
    ensures ok { IfOk result (λ w. StandsFor syms.now heap.new w (form_of syms.now.symbols lexemes.now)) }
    ensures fault { IfErr result (Refuses (weight (form_of syms.now.symbols lexemes.now))) }
{
    let mut slots = Vec::new(alloc);
    for placed in lexemes {
        match put(alloc, &mut slots, heap, syms, placed) {
            Ok(built) => match built {
                Some(w) => return Ok(w),
                None => {}
            },
            Err(refusal) => return Err(refusal),
        }
    }
    unreachable!()
}

/// The word of the form that the lexemes are.
#[tactic(auto, using(crate::proofs::GrowthLemmas::not_heavy))]
pub fn build(
    alloc: Global,
    lexemes: &[Placed],
    heap: &mut Heap,
    syms: &Symbols,
) -> Result<Word, Refusal>
    requires names { HasNames syms.now }
    requires form { IsForm syms.now.symbols lexemes.now }
    ensures grows { Grown syms.now syms.now heap.old heap.new }
    ensures ok { IfOk result (λ w. StandsFor syms.now heap.new w (form_of syms.now.symbols lexemes.now)) }
    ensures fits { OnOk result (weight (form_of syms.now.symbols lexemes.now) ≤ max_weight) }
    ensures fault { IfErr result (Refuses (weight (form_of syms.now.symbols lexemes.now))) }
{
    let w = build_all(alloc, lexemes, heap, syms)?;
    heap.is_heap();
    Ok(w)
}
