//! The engine of an expansion.

ghost use Rattle.std.specs.Prelude.{◌≡◌, ℕ, ◌+◌, ◌≤◌, [], length};
ghost use Rattle.acl_base.specs.Limits.{AreLimits};
ghost use Rattle.acl_forms.specs.Forms.{Grown, AreWhole};
ghost use Rattle.acl_heap.specs.Objects.{Objects, Extends};
ghost use Rattle.acl_terms.specs.Definitions.{seen_formals};
ghost use Rattle.acl_worlds.specs.Contents.{Content, seen_world, WorldLies};
ghost use Rattle.model_eval.specs.Outcomes.{Stobjs};
ghost use Rattle.model_symbols.specs.Growth as tables;
ghost use Rattle.model_symbols.specs.Symbols.{Table};
ghost use Rattle.model_terms.specs.Faults.{formal_names};
ghost use Rattle.acl_engine.specs.Outcomes.{macro_value, seen_body, IsOutcome, IsMacroOf, words_at, outcome_words};

use crate::outcome::Outcome;
use acl_base::{Limits, Word};
use acl_heap::Heap;
use acl_syms::Symbols;
use acl_terms::Macro;
use acl_worlds::World;

/// What evaluates the bodies of macros.
pub trait Engine {
    /// The list of each live object under its name.
    ghost live: { Self → Stobjs ℕ };

    /// The engine has what it needs to evaluate in this world as it stands in a heap, with these symbols and packages known, as the
    /// terms of its definitions.
    ghost fits: { Self → Objects → Content → Table → Type 0 };

    /// The body of a macro of the world, over a value of each formal in their order, with no object in scope; so many calls are
    /// counted before. The outcome is that of checked evaluation, unless memory is refused. Heap and symbols only grow, and the
    /// symbols are those that the evaluation knows at its end. Packages and the lists of live objects stay, also where memory is
    /// refused. What it gives is whole, and so are the arguments at which it stops.
    fn apply(
        &mut self,
        world: &World,
        heap: &mut Heap,
        syms: &mut Symbols,
        definition: &Macro,
        actuals: &[Word],
        used: u64,
        limits: Limits,
    ) -> Outcome
        requires fits { fits self.old heap.old world.now syms.old }
        requires world { WorldLies heap.old world.now }
        requires definition { IsMacroOf world.now definition.now }
        requires actuals { AreWhole syms.old heap.old actuals.now }
        requires count { length actuals.now ≡ length (formal_names (seen_formals heap.old definition.now.formals)) }
        requires limits { AreLimits limits.steps limits.depth }
        requires used { used ≤ limits.steps }
        ensures grows { Grown syms.old syms.new heap.old heap.new }
        ensures packages { syms.new.packages ≡ syms.old.packages }
        ensures live { live self.new ≡ live self.old }
        ensures fits { fits self.new heap.new world.now syms.new }
        ensures most { result.calls ≤ limits.steps }
        ensures outer { used + result.outer ≤ result.calls }
        ensures whole { AreWhole syms.new heap.new (outcome_words result) }
        ensures outcome { IsOutcome heap.new syms.new.symbols [] result (macro_value (seen_world heap.old world.now) syms.old limits.steps limits.depth (seen_formals heap.old definition.now.formals) (seen_body heap.old definition.now) (words_at heap.old actuals.now) used) };

    /// It has that also as the heap and the symbols grow.
    ghost stays_fit: { (s : Self) (h h' : Objects) (w : Content) (t t' : Table) → Extends h h' → tables.Extends t t' → fits s h w t → fits s h' w t' };
}
