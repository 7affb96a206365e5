//! The trait of keepers.

ghost use Rattle.std.specs.Prelude.{◌≡◌, ◌≤◌, ◌<◌, ◌^◌, ℕ, List, ◌∷◌, Option, OnOk, OnErr, length, option_map};
ghost use Rattle.model_symbols.specs.Symbols.{Table};
ghost use Rattle.model_terms.specs.Worlds as worlds;
ghost use Rattle.model_eval.specs.Keeping as keepings;
ghost use Rattle.model_eval.specs.Keeping.{Keeping};
ghost use Rattle.model_eval.specs.StobjLayouts.{new_list};
ghost use Rattle.acl_forms.specs.Forms.{AreWhole};
ghost use Rattle.acl_heap.specs.Objects.{Objects, object_of, Extends};
ghost use Rattle.acl_terms.specs.Forms.{numbers};
ghost use Rattle.acl_terms.specs.Definitions.{seen_generated};
ghost use Rattle.acl_worlds.specs.Contents.{Content, seen_world, WorldLies};
ghost use Rattle.acl_keep.specs.Seen.{all_seen, seen_loan, seen_loans, words_in, answer_words, index_words, loan_words};
ghost use Rattle.acl_keep.specs.Calls.{Called, has_child, IsAnswered, MayBe};

use crate::effect::{Effect, Loan};
use acl_base::{SymId, Word};
use acl_heap::Heap;
use acl_syms::Symbols;
use acl_terms::{GeneratedFunction, Shown};
use acl_worlds::World;
use std::alloc::AllocError;

/// What the objects in scope are kept in, as lists or in place.
///
/// `Keeps` says what a keeper may stand for: what is kept, as the definition of evaluation has it (`keeping`), and what the calls
/// that are open have left behind, the innermost first. Each call says what is kept after it for everything that may have been kept
/// before. A call that is refused memory changes nothing of this.
///
/// `IsSound` says that a keeper goes with a world as it stands in a heap, and that the symbols of what it holds have numbers below
/// this one. Every call keeps it.
///
/// Where a keeper cannot do everything that the definition does with any list, the members whose names begin with `May` say what
/// it is asked for; a keeper of lists asks for nothing.
pub trait Keeper: Drop {
    ghost Kept: { Type 0 };

    ghost Left: { Type 0 };

    ghost keeping: { Keeping ℕ Kept Left };

    ghost Keeps: { Self → Kept → List Left → Type 0 };

    ghost IsSound: { Self → Objects → Content → ℕ → Type 0 };

    /// Whether a function of an object may be called on what is kept.
    ghost MayCall: { Called → Kept → List Left → Type 0 };

    /// Whether this field of a parent may be asked for a child.
    ghost MayReach: { ℕ → ℕ → Kept → List Left → Type 0 };

    /// Whether these children may be lent.
    ghost MayLend: { List (keepings.Loan ℕ) → Kept → List Left → Type 0 };

    /// Whether an object of a world may be made.
    ghost MayMake: { worlds.World → ℕ → Kept → List Left → Type 0 };

    /// Whether the object that was made last may be taken away.
    ghost MayUnmake: { Kept → List Left → Type 0 };

    /// Whether what an export did may be undone.
    ghost MayAbandon: { Kept → List Left → Type 0 };

    /// Whether this call was prepared, in this heap.
    ghost IsPrepared: { Self → Objects → Called → Type 0 };

    /// Makes ready a call of a function that an object comes with: what the call reads is read, and what it will write has its
    /// memory. What is kept stays as it is.
    fn prepare(
        &mut self,
        world: &World,
        heap: &mut Heap,
        syms: &Symbols,
        function: &GeneratedFunction,
        values: &[Shown],
    ) -> Result<(), AllocError>
        requires world { WorldLies heap.old world.now }
        requires whole { AreWhole syms.now heap.old (words_in values.now) }
        requires sound { IsSound self.old heap.old world.now (length syms.now.symbols) }
        requires may { MayBe (Keeps self.old) (MayCall (record { world = seen_world heap.old world.now; function = seen_generated function.now; values = all_seen heap.old values.now })) }
        ensures keeps { (k : Kept) (ls : List Left) → Keeps self.old k ls → Keeps self.new k ls }
        ensures sound { IsSound self.new heap.new world.now (length syms.now.symbols) }
        ensures grows { Extends heap.old heap.new }
        ensures ok { OnOk result (IsPrepared self.new heap.new (record { world = seen_world heap.new world.now; function = seen_generated function.now; values = all_seen heap.new values.now })) };

    /// The call that was prepared last, by the definition. It takes no memory.
    fn call(
        &mut self,
        world: &World,
        heap: &Heap,
        syms: &Symbols,
        function: &GeneratedFunction,
        values: &[Shown],
    ) -> Effect
        requires sound { IsSound self.old heap.now world.now (length syms.now.symbols) }
        requires prepared { IsPrepared self.old heap.now (record { world = seen_world heap.now world.now; function = seen_generated function.now; values = all_seen heap.now values.now }) }
        ensures answers { (k : Kept) (ls : List Left) → Keeps self.old k ls → IsAnswered keeping (Keeps self.new) heap.now (record { world = seen_world heap.now world.now; function = seen_generated function.now; values = all_seen heap.now values.now }) result k ls }
        ensures whole { AreWhole syms.now heap.now (answer_words result) }
        ensures sound { IsSound self.new heap.now world.now (length syms.now.symbols) };

    /// Hands the objects among the actuals over to a call, by the names of its formals. What is in scope stays behind.
    fn hand_over(
        &mut self,
        heap: &Heap,
        formals: &[SymId],
        actuals: &[Shown],
    ) -> Result<(), AllocError>
        ensures ok { OnOk result ((k : Kept) (ls : List Left) → Keeps self.old k ls → Keeps self.new (keeping.hand_over (numbers formals.now) (all_seen heap.now actuals.now) k) (keeping.behind k ∷ ls)) }
        ensures err { OnErr result ((k : Kept) (ls : List Left) → Keeps self.old k ls → Keeps self.new k ls) }
        ensures sound { (h : Objects) (w : Content) (n : ℕ) → IsSound self.old h w n → IsSound self.new h w n };

    /// Leaves a call: what it left behind is in scope again.
    fn hand_back(&mut self, heap: &Heap, formals: &[SymId], actuals: &[Shown])
        ensures keeps { (k : Kept) (left : Left) (ls : List Left) → Keeps self.old k (left ∷ ls) → Keeps self.new (keeping.hand_back (numbers formals.now) (all_seen heap.now actuals.now) k left) ls }
        ensures sound { (h : Objects) (w : Content) (n : ℕ) → IsSound self.old h w n → IsSound self.new h w n };

    /// Remembers what is in scope at the call of an export.
    fn remember(&mut self) -> Result<(), AllocError>
        ensures ok { OnOk result ((k : Kept) (ls : List Left) → Keeps self.old k ls → Keeps self.new k (keeping.behind k ∷ ls)) }
        ensures err { OnErr result ((k : Kept) (ls : List Left) → Keeps self.old k ls → Keeps self.new k ls) }
        ensures sound { (h : Objects) (w : Content) (n : ℕ) → IsSound self.old h w n → IsSound self.new h w n };

    /// Forgets what was remembered last.
    fn forget(&mut self)
        ensures keeps { (k : Kept) (left : Left) (ls : List Left) → Keeps self.old k (left ∷ ls) → Keeps self.new k ls }
        ensures sound { (h : Objects) (w : Content) (n : ℕ) → IsSound self.old h w n → IsSound self.new h w n };

    /// The function begins that does the work of an export. No more than 2^64 - 1 run inside each other.
    fn begin_export(&mut self)
        ensures keeps { (k : Kept) (ls : List Left) → Keeps self.old k ls → length ls < 2 ^ 64 → Keeps self.new (keeping.begin_export k) ls }
        ensures sound { (h : Objects) (w : Content) (n : ℕ) → IsSound self.old h w n → IsSound self.new h w n };

    /// Takes the beginning of an export back inside which nothing was done.
    fn cancel_export(&mut self)
        ensures keeps { (k : Kept) (ls : List Left) → Keeps self.old (keeping.begin_export k) ls → Keeps self.new k ls }
        ensures sound { (h : Objects) (w : Content) (n : ℕ) → IsSound self.old h w n → IsSound self.new h w n };

    /// It has ended: what was written stays, and what was remembered last is forgotten.
    fn commit(&mut self)
        ensures keeps { (k : Kept) (left : Left) (ls : List Left) → Keeps self.old k (left ∷ ls) → Keeps self.new (keeping.commit k) ls }
        ensures sound { (h : Objects) (w : Content) (n : ℕ) → IsSound self.old h w n → IsSound self.new h w n };

    /// It has stopped: the object of the export, of whose call these are the actuals, is as it was when that was remembered.
    fn abandon(&mut self, heap: &Heap, actuals: &[Shown])
        requires may { MayBe (Keeps self.old) MayAbandon }
        ensures keeps { (k : Kept) (left : Left) (ls : List Left) → Keeps self.old k (left ∷ ls) → Keeps self.new (keeping.abandon (all_seen heap.now actuals.now) left k) ls }
        ensures sound { (h : Objects) (w : Content) (n : ℕ) → IsSound self.old h w n → IsSound self.new h w n };

    /// Whether a field of a parent has a child of this index; without an index it has.
    fn is_reached(
        &self,
        heap: &Heap,
        syms: &Symbols,
        parent: SymId,
        field: u32,
        index: Option<Word>,
    ) -> bool
        requires whole { AreWhole syms.now heap.now (index_words index) }
        requires may { MayBe (Keeps self.now) (MayReach parent.0 field) }
        ensures { (k : Kept) (ls : List Left) → Keeps self.now k ls → result ≡ has_child keeping (option_map (object_of heap.now) index) parent.0 field k };

    /// Lends children: each is an object in scope.
    fn lend(&mut self, heap: &Heap, syms: &Symbols, loans: &[Loan]) -> Result<(), AllocError>
        requires whole { AreWhole syms.now heap.now (loan_words loans.now) }
        requires may { MayBe (Keeps self.old) (MayLend (seen_loans heap.now loans.now)) }
        ensures ok { OnOk result ((k : Kept) (ls : List Left) → Keeps self.old k ls → Keeps self.new (keeping.lend (seen_loans heap.now loans.now) k) ls) }
        ensures err { OnErr result ((k : Kept) (ls : List Left) → Keeps self.old k ls → Keeps self.new k ls) }
        ensures sound { (h : Objects) (w : Content) (n : ℕ) → IsSound self.old h w n → IsSound self.new h w n };

    /// Puts a child into its parent.
    fn put(&mut self, heap: &Heap, syms: &Symbols, loan: Loan) -> Result<(), AllocError>
        requires whole { AreWhole syms.now heap.now (index_words loan.index) }
        ensures ok { OnOk result ((k : Kept) (ls : List Left) → Keeps self.old k ls → Keeps self.new (keeping.put (seen_loan heap.now loan) k) ls) }
        ensures err { OnErr result ((k : Kept) (ls : List Left) → Keeps self.old k ls → Keeps self.new k ls) }
        ensures sound { (h : Objects) (w : Content) (n : ℕ) → IsSound self.old h w n → IsSound self.new h w n };

    /// Takes the objects that were lent last out of the scope, so many.
    fn end_loans(&mut self, n: usize)
        ensures keeps { (k : Kept) (ls : List Left) → Keeps self.old k ls → Keeps self.new (keeping.end_loans n k) ls }
        ensures sound { (h : Objects) (w : Content) (m : ℕ) → IsSound self.old h w m → IsSound self.new h w m };

    /// Makes a local object, as it begins.
    fn make(
        &mut self,
        world: &World,
        heap: &Heap,
        syms: &Symbols,
        stobj: SymId,
    ) -> Result<(), AllocError>
        requires world { WorldLies heap.now world.now }
        requires sound { IsSound self.old heap.now world.now (length syms.now.symbols) }
        requires may { MayBe (Keeps self.old) (MayMake (seen_world heap.now world.now) stobj.0) }
        ensures ok { OnOk result ((k : Kept) (ls : List Left) → Keeps self.old k ls → Keeps self.new (keeping.make stobj.0 (new_list (seen_world heap.now world.now) stobj.0) k) ls) }
        ensures err { OnErr result ((k : Kept) (ls : List Left) → Keeps self.old k ls → Keeps self.new k ls) }
        ensures sound { IsSound self.new heap.now world.now (length syms.now.symbols) };

    /// Takes the local object away that was made last.
    fn unmake(&mut self)
        requires may { MayBe (Keeps self.old) MayUnmake }
        ensures keeps { (k : Kept) (ls : List Left) → Keeps self.old k ls → Keeps self.new (keeping.unmake k) ls }
        ensures sound { (h : Objects) (w : Content) (n : ℕ) → IsSound self.old h w n → IsSound self.new h w n };

    /// It goes with a world also as the heap grows, and as more symbols are known.
    ghost stays_sound: { (s : Self) (h h' : Objects) (w : Content) (n n' : ℕ) → Extends h h' → n ≤ n' → IsSound s h w n → IsSound s h' w n' };
}
