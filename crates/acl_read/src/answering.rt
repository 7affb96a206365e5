// What stands first in the bytes that have come.

ghost use Rattle.std.specs.Prelude.{◌≡◌, ℕ, ◌+◌, ◌<◌, ◌≤◌, length, IfOk, IfErr, IfSome};
ghost use Rattle.model_symbols.specs.Growth.{Extends};
ghost use Rattle.model_symbols.specs.Opening.{opening};
ghost use Rattle.model_text.specs.Next.{Gives, Fails, run};
ghost use Rattle.acl_forms.specs.Forms.{form_at, IsWhole, Grown};
ghost use Rattle.acl_read_lexemes.specs.Opening.{IsFault, IsForm};
ghost use Rattle.acl_read_scan.specs.Built.{state_at, IsBuilt, packages_of};
ghost use Rattle.acl_read_scan.specs.Scanning.{form_step};
ghost use Rattle.acl_read.specs.Answering.{Answers, IsFoundNear};

use crate::{TextCause, TextFault};
use acl_base::{PkgId, Word};
use acl_heap::Heap;
use acl_read_build::{Refusal, build};
use acl_read_scan::{Built, Progress, advance};
use acl_syms::Symbols;
use std::alloc::Global;

// The word of the form that was read.
#[tactic(auto, using(crate::proofs::AnswerLemmas::names_of, crate::proofs::AnswerLemmas::light_form, crate::proofs::AnswerLemmas::heavy_form))]
fn form_word(
    alloc: Global,
    built: &Built,
    heap: &mut Heap,
    syms: &Symbols,
) -> Result<Word, TextFault>
    requires opening { Extends opening syms.now }
    requires form { IsForm syms.now.symbols built.now.lexemes.items }
    ensures grows { Grown syms.now syms.now heap.old heap.new }
    ensures whole { IfOk result (IsWhole syms.now heap.new) }
    ensures gives { IfOk result (λ w. form_step syms.now built.now ≡ Gives (form_at syms.now heap.new w) built.now.at syms.now.symbols) }
    ensures fault { IfErr result (IsFault (form_step syms.now built.now) Fails) }
{
    match build(alloc, built.lexemes.as_slice(), heap, syms) {
        Ok(w) => Ok(w),
        Err(Refusal::TooLarge) => Err(TextFault {
            cause: TextCause::TooLarge,
            offset: built.first,
        }),
        Err(Refusal::Memory) => Err(TextFault {
            cause: TextCause::Memory,
            offset: 0,
        }),
    }
}

/// More bytes, and the end of the input where it has ended.
#[tactic(auto, using(crate::proofs::AnswerLemmas::grown_scan, crate::proofs::AnswerLemmas::grown_after, crate::proofs::AnswerLemmas::opened_later))]
pub fn next_word(
    alloc: Global,
    bytes: &[u8],
    ended: bool,
    built: &mut Built,
    heap: &mut Heap,
    syms: &mut Symbols,
    current: PkgId,
) -> Result<Option<Word>, TextFault>
    requires built { IsBuilt syms.old built.old }
    requires package { current.0 < length syms.old.packages }
    requires opening { Extends opening syms.old }
    ensures grows { Grown syms.old syms.new heap.old heap.new }
    ensures packages { syms.new.packages ≡ syms.old.packages }
    ensures answers { Answers (packages_of syms.old current) syms.new heap.new (run (packages_of syms.old current) (state_at syms.old built.old) bytes.now) ended built.new result }
    ensures at { IfOk result (IsFoundNear built.old.at built.new.at (length bytes.now)) }
{
    match advance(alloc, bytes, ended, built, syms, current) {
        Ok(progress) => match progress {
            Progress::Going => Ok(None),
            Progress::Ended => match form_word(alloc, built, heap, syms) {
                Ok(w) => Ok(Some(w)),
                Err(fault) => Err(fault),
            },
        },
        Err(fault) => Err(fault),
    }
}
