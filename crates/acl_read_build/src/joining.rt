// Pairs and lists of what was read.

ghost use Rattle.std.specs.Prelude.{◌≡◌, ℕ, ◌≤◌, List, ◌∷◌, [], IfOk, IfErr};
ghost use Rattle.model_objects.specs.Object.{weight};
ghost use Rattle.model_text.specs.Backquote.{item_form, item_expansion, joined, joined_onto, quote_form, cons_form, append_form};
ghost use Rattle.acl_forms.specs.Forms.{form_at, IsWhole, StandsFor};
ghost use Rattle.acl_read_build.specs.Slots.{item_at, items_at, IsWholeItem, AreWholeItems, Grows};
ghost use Rattle.acl_read_build.specs.Building.{HasNames, Refuses};

use crate::making::{append_call, cons_call, pair, quoted};
use crate::{Item, Refusal};
use acl_base::Word;
use acl_heap::Heap;
use acl_syms::Symbols;

/// The form that a backquote before the item is short for.
pub fn expansion(heap: &mut Heap, syms: &Symbols, item: Item) -> Result<Word, Refusal>
    requires names { HasNames syms.now }
    requires whole { IsWholeItem syms.now heap.old item }
    ensures grows { Grows syms.now heap.old heap.new }
    ensures ok { IfOk result (λ w. StandsFor syms.now heap.new w (item_expansion (item_at syms.now heap.old item))) }
    ensures fault { IfErr result (Refuses (weight (item_expansion (item_at syms.now heap.old item)))) }
{
    match item {
        Item::Plain(w) => quoted(heap, syms, w),
        Item::Made(w) => Ok(w),
        Item::Spliced(w) => Ok(w),
    }
}

// A form without commas before what has some.
fn join_plain(heap: &mut Heap, syms: &Symbols, a: Word, d: Word) -> Result<Word, Refusal>
    requires names { HasNames syms.now }
    requires first { IsWhole syms.now heap.old a }
    requires second { IsWhole syms.now heap.old d }
    ensures grows { Grows syms.now heap.old heap.new }
    ensures ok { IfOk result (λ w. StandsFor syms.now heap.new w (cons_form (quote_form (form_at syms.now heap.old a)) (form_at syms.now heap.old d))) }
    ensures fault { IfErr result (Refuses (weight (cons_form (quote_form (form_at syms.now heap.old a)) (form_at syms.now heap.old d)))) }
{
    let first = quoted(heap, syms, a)?;
    cons_call(heap, syms, first, d)
}

// What has commas before an item.
fn join_made(heap: &mut Heap, syms: &Symbols, a: Word, d: Item) -> Result<Word, Refusal>
    requires names { HasNames syms.now }
    requires first { IsWhole syms.now heap.old a }
    requires second { IsWholeItem syms.now heap.old d }
    ensures grows { Grows syms.now heap.old heap.new }
    ensures ok { IfOk result (λ w. StandsFor syms.now heap.new w (cons_form (form_at syms.now heap.old a) (item_expansion (item_at syms.now heap.old d)))) }
    ensures fault { IfErr result (Refuses (weight (cons_form (form_at syms.now heap.old a) (item_expansion (item_at syms.now heap.old d))))) }
{
    let second = expansion(heap, syms, d)?;
    cons_call(heap, syms, a, second)
}

// What is spliced before an item.
fn join_spliced(heap: &mut Heap, syms: &Symbols, a: Word, d: Item) -> Result<Word, Refusal>
    requires names { HasNames syms.now }
    requires first { IsWhole syms.now heap.old a }
    requires second { IsWholeItem syms.now heap.old d }
    ensures grows { Grows syms.now heap.old heap.new }
    ensures ok { IfOk result (λ w. StandsFor syms.now heap.new w (append_form (form_at syms.now heap.old a) (item_expansion (item_at syms.now heap.old d)))) }
    ensures fault { IfErr result (Refuses (weight (append_form (form_at syms.now heap.old a) (item_expansion (item_at syms.now heap.old d))))) }
{
    let second = expansion(heap, syms, d)?;
    append_call(heap, syms, a, second)
}

/// A pair of two items.
pub fn join(heap: &mut Heap, syms: &Symbols, a: Item, d: Item) -> Result<Item, Refusal>
    requires names { HasNames syms.now }
    requires first { IsWholeItem syms.now heap.old a }
    requires second { IsWholeItem syms.now heap.old d }
    ensures grows { Grows syms.now heap.old heap.new }
    ensures ok { IfOk result (λ i. (item_at syms.now heap.new i ≡ joined (item_at syms.now heap.old a) (item_at syms.now heap.old d)) × IsWholeItem syms.now heap.new i) }
    ensures fault { IfErr result (Refuses (weight (item_form (joined (item_at syms.now heap.old a) (item_at syms.now heap.old d))))) }
{
    match a {
        Item::Plain(car) => match d {
            Item::Plain(cdr) => {
                let w = pair(heap, syms, car, cdr)?;
                Ok(Item::Plain(w))
            }
            Item::Made(cdr) => {
                let w = join_plain(heap, syms, car, cdr)?;
                Ok(Item::Made(w))
            }
            Item::Spliced(cdr) => {
                let w = join_plain(heap, syms, car, cdr)?;
                Ok(Item::Made(w))
            }
        },
        Item::Made(car) => {
            let w = join_made(heap, syms, car, d)?;
            Ok(Item::Made(w))
        }
        Item::Spliced(car) => {
            let w = join_spliced(heap, syms, car, d)?;
            Ok(Item::Made(w))
        }
    }
}

/// The list of the items, before an end.
pub fn join_all(
    heap: &mut Heap,
    syms: &Symbols,
    mut items: Vec<Item>,
    mut end: Item,
) -> Result<Item, Refusal>
    requires names { HasNames syms.now }
    requires items { AreWholeItems syms.now heap.old items.items }
    requires end { IsWholeItem syms.now heap.old end }
    ensures grows { Grows syms.now heap.old heap.new }
    ensures ok { IfOk result (λ i. (item_at syms.now heap.new i ≡ joined_onto (items_at syms.now heap.old items.items) (item_at syms.now heap.old end)) × IsWholeItem syms.now heap.new i) }
    ensures fault { IfErr result (Refuses (weight (item_form (joined_onto (items_at syms.now heap.old items.items) (item_at syms.now heap.old end))))) }
{
    while let Some(item) = items.pop() {
        match join(heap, syms, item, end) {
            Ok(joined) => end = joined,
            Err(refusal) => return Err(refusal),
        }
    }
    Ok(end)
}
