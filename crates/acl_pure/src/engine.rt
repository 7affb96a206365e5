//! The engine.

ghost use Rattle.std.specs.Prelude.{◌≡◌, []};
ghost use Rattle.acl_evaluate.specs.Evaluating.{lists_in, IsAtRest};
ghost use Rattle.acl_pure.specs.Fitting.{Fits};
ghost use Rattle.acl_pure.specs.Stays.{fits_later};

use crate::alone::evaluate_alone;
use acl_base::{Limits, Word};
use acl_code::Terms;
use acl_engine::{Engine, Outcome};
use acl_heap::Heap;
use acl_list_keeper::ListKeeper;
use acl_machine::known_constants_are_whole;
use acl_syms::Symbols;
use acl_terms::Macro;
use acl_worlds::World;
use model_macro_bodies::{macro_bodies_end, plain_forms_count};
use std::alloc::Global;

/// The terms of a world's functions and macros, and the live objects as lists.
#[derive(Drop)]
pub struct PureEngine {
    pub alloc: Global,
    pub terms: Terms,
    pub keeper: ListKeeper,
}

impl PureEngine {
    /// An engine without terms and without live objects. It takes no memory.
    #[tactic(auto, using(crate::proofs::AloneLemmas::nothing_in, crate::proofs::AloneLemmas::empty_rests))]
    pub fn new(alloc: Global) -> PureEngine
        ensures terms { result.terms ≡ [] }
        ensures live { lists_in result.keeper.scoped ≡ [] }
        ensures rests { IsAtRest result.keeper.scoped }
    {
        PureEngine {
            alloc,
            terms: Terms::new(alloc),
            keeper: ListKeeper::new(alloc),
        }
    }
}

impl Engine for PureEngine {
    ghost live = { λ s. lists_in s.keeper.scoped };

    ghost fits = { λ s h w t. Fits s.terms h w t };

    #[tactic(auto, using(crate::proofs::ApplyLemmas::surrounds_of, crate::proofs::ApplyLemmas::world_of, crate::proofs::ApplyLemmas::fits_grown, crate::proofs::ApplyLemmas::whole_words, crate::proofs::ApplyLemmas::calls_within, crate::proofs::ApplyLemmas::outer_within, crate::proofs::ApplyLemmas::is_outcome))]
    fn apply(
        &mut self,
        world: &World,
        heap: &mut Heap,
        syms: &mut Symbols,
        definition: &Macro,
        actuals: &[Word],
        used: u64,
        limits: Limits,
    ) -> Outcome {
        known_constants_are_whole();
        macro_bodies_end();
        plain_forms_count();
        evaluate_alone(
            self.alloc,
            world,
            &self.terms,
            heap,
            syms,
            definition.body_term,
            actuals,
            used,
            limits,
        )
    }

    ghost stays_fit = { λ s h h' w t t' e g f. fits_later s.terms h h' w t t' e g f };
}
