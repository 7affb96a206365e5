//! The core forms that ready parts stand for.

ghost use Rattle.std.specs.Prelude.{◌≡◌, ◌≤◌, [], length, IfOk};
ghost use Rattle.model_expansion.specs.Layers.{key_test};
ghost use Rattle.acl_heap.specs.Objects.{object_of, Lies, Extends};
ghost use Rattle.acl_types.specs.Shapes.{IsCore};
ghost use Rattle.acl_layers.specs.Layers.{seen_ready, ready_reach, hidden_test};

use crate::layer::Ready;
use crate::lists::is_pair;
use crate::words::{self, HIDDEN_VARIABLE, NIL_WORD};
use acl_base::{SymId, Word};
use acl_heap::Heap;
use acl_terms::Core;
use acl_types::{call_two, constant, type_test, variable};
use std::alloc::{AllocError, Global};

fn key_test(alloc: Global, heap: &Heap, key: Word) -> Result<Core, AllocError>
    requires { Lies heap.now key }
    ensures { IfOk result (λ f. IsCore heap.now f (key_test [] (object_of heap.now key))) }
{
    let name = variable(heap, HIDDEN_VARIABLE);
    let value = constant(heap, key);
    if is_pair(heap, key) {
        call_two(alloc, heap, SymId(words::MEMBER_EQUAL), name, value)
    } else {
        call_two(alloc, heap, SymId(words::EQL), name, value)
    }
}

#[tactic(auto, using(crate::proofs::TypedLemmas::hidden_some, crate::proofs::TypedLemmas::hidden_none))]
fn hidden_test(alloc: Global, heap: &mut Heap, written: Word) -> Result<Core, AllocError>
    requires { Lies heap.old written }
    ensures grows { Extends heap.old heap.new }
    ensures ok { IfOk result (λ f. IsCore heap.new f (hidden_test (object_of heap.old written))) }
{
    match type_test(alloc, heap, HIDDEN_VARIABLE, written) {
        Err(refused) => Err(refused),
        Ok(test) => match test {
            Some(test) => Ok(test),
            None => Ok(constant(heap, NIL_WORD)),
        },
    }
}

/// The core form that a ready part stands for.
pub fn core_of(alloc: Global, heap: &mut Heap, ready: Ready) -> Result<Core, AllocError>
    requires { ready_reach ready ≤ length heap.old }
    ensures grows { Extends heap.old heap.new }
    ensures ok { IfOk result (λ f. IsCore heap.new f (seen_ready heap.old ready)) }
{
    match ready {
        Ready::Variable(name) => Ok(variable(heap, name)),
        Ready::Constant(value) => Ok(constant(heap, value)),
        Ready::KeyTest(key) => key_test(alloc, heap, key),
        Ready::TypeTest(written) => hidden_test(alloc, heap, written),
    }
}
