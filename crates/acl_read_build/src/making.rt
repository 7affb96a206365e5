// Short lists.

ghost use Rattle.std.specs.Prelude.{◌≡◌, ℕ, ◌+◌, ◌∷◌, [], IfOk, IfErr};
ghost use Rattle.model_objects.specs.Object.{Symbol, Pair, weight};
ghost use Rattle.model_text.specs.Backquote.{nil_form, quote_form, cons_form, append_form, cons_name, append_name};
ghost use Rattle.model_symbols.specs.Opening.{quote_name};
ghost use Rattle.acl_forms.specs.Forms.{form_at, IsWhole, StandsFor};
ghost use Rattle.acl_read_build.specs.Slots.{Grows};
ghost use Rattle.acl_read_build.specs.Building.{HasNames, Refuses};

use crate::Refusal;
use acl_base::{SymId, Word};
use acl_heap::{Heap, HeapFault};
use acl_syms::Symbols;

/// A pair.
#[tactic(auto, using(crate::proofs::GrowthLemmas::grown, crate::proofs::GrowthLemmas::paired, crate::proofs::GrowthLemmas::refused_pair))]
pub fn pair(heap: &mut Heap, syms: &Symbols, a: Word, d: Word) -> Result<Word, Refusal>
    requires car { IsWhole syms.now heap.old a }
    requires cdr { IsWhole syms.now heap.old d }
    ensures grows { Grows syms.now heap.old heap.new }
    ensures ok { IfOk result (λ w. StandsFor syms.now heap.new w (Pair (form_at syms.now heap.old a) (form_at syms.now heap.old d))) }
    ensures fault { IfErr result (Refuses (1 + (weight (form_at syms.now heap.old a) + weight (form_at syms.now heap.old d)))) }
{
    let _ = syms;
    match heap.cons(a, d) {
        Ok(w) => Ok(w),
        Err(HeapFault::TooLarge { .. }) => Err(Refusal::TooLarge),
        Err(HeapFault::Memory) => Err(Refusal::Memory),
    }
}

/// NIL.
#[tactic(auto, using(crate::proofs::GrowthLemmas::named))]
pub fn nil(_heap: &Heap, _syms: &Symbols) -> Word
    requires { HasNames _syms.now }
    ensures { StandsFor _syms.now _heap.now result nil_form }
{
    Word::Sym(SymId(1))
}

#[tactic(auto, using(crate::proofs::GrowthLemmas::named))]
pub fn quote(_heap: &Heap, _syms: &Symbols) -> Word
    requires { HasNames _syms.now }
    ensures { StandsFor _syms.now _heap.now result (Symbol quote_name) }
{
    Word::Sym(SymId(2))
}

#[tactic(auto, using(crate::proofs::GrowthLemmas::named))]
fn cons(_heap: &Heap, _syms: &Symbols) -> Word
    requires { HasNames _syms.now }
    ensures { StandsFor _syms.now _heap.now result (Symbol cons_name) }
{
    Word::Sym(SymId(8))
}

#[tactic(auto, using(crate::proofs::GrowthLemmas::named))]
fn append(_heap: &Heap, _syms: &Symbols) -> Word
    requires { HasNames _syms.now }
    ensures { StandsFor _syms.now _heap.now result (Symbol append_name) }
{
    Word::Sym(SymId(144))
}

/// The list of a quote and a form.
pub fn quoted(heap: &mut Heap, syms: &Symbols, w: Word) -> Result<Word, Refusal>
    requires names { HasNames syms.now }
    requires whole { IsWhole syms.now heap.old w }
    ensures grows { Grows syms.now heap.old heap.new }
    ensures ok { IfOk result (λ q. StandsFor syms.now heap.new q (quote_form (form_at syms.now heap.old w))) }
    ensures fault { IfErr result (Refuses (weight (quote_form (form_at syms.now heap.old w)))) }
{
    let end = nil(heap, syms);
    let rest = pair(heap, syms, w, end)?;
    let head = quote(heap, syms);
    pair(heap, syms, head, rest)
}

// The call of a function with two arguments.
fn call(heap: &mut Heap, syms: &Symbols, head: Word, a: Word, d: Word) -> Result<Word, Refusal>
    requires names { HasNames syms.now }
    requires head { IsWhole syms.now heap.old head }
    requires first { IsWhole syms.now heap.old a }
    requires second { IsWhole syms.now heap.old d }
    ensures grows { Grows syms.now heap.old heap.new }
    ensures ok { IfOk result (λ w. StandsFor syms.now heap.new w (Pair (form_at syms.now heap.old head) (Pair (form_at syms.now heap.old a) (Pair (form_at syms.now heap.old d) nil_form)))) }
    ensures fault { IfErr result (Refuses (weight (Pair (form_at syms.now heap.old head) (Pair (form_at syms.now heap.old a) (Pair (form_at syms.now heap.old d) nil_form))))) }
{
    let end = nil(heap, syms);
    let last = pair(heap, syms, d, end)?;
    let rest = pair(heap, syms, a, last)?;
    pair(heap, syms, head, rest)
}

/// `(CONS a d)`.
pub fn cons_call(heap: &mut Heap, syms: &Symbols, a: Word, d: Word) -> Result<Word, Refusal>
    requires names { HasNames syms.now }
    requires first { IsWhole syms.now heap.old a }
    requires second { IsWhole syms.now heap.old d }
    ensures grows { Grows syms.now heap.old heap.new }
    ensures ok { IfOk result (λ w. StandsFor syms.now heap.new w (cons_form (form_at syms.now heap.old a) (form_at syms.now heap.old d))) }
    ensures fault { IfErr result (Refuses (weight (cons_form (form_at syms.now heap.old a) (form_at syms.now heap.old d)))) }
{
    let head = cons(heap, syms);
    call(heap, syms, head, a, d)
}

/// `(BINARY-APPEND a d)`.
pub fn append_call(heap: &mut Heap, syms: &Symbols, a: Word, d: Word) -> Result<Word, Refusal>
    requires names { HasNames syms.now }
    requires first { IsWhole syms.now heap.old a }
    requires second { IsWhole syms.now heap.old d }
    ensures grows { Grows syms.now heap.old heap.new }
    ensures ok { IfOk result (λ w. StandsFor syms.now heap.new w (append_form (form_at syms.now heap.old a) (form_at syms.now heap.old d))) }
    ensures fault { IfErr result (Refuses (weight (append_form (form_at syms.now heap.old a) (form_at syms.now heap.old d)))) }
{
    let head = append(heap, syms);
    call(heap, syms, head, a, d)
}
