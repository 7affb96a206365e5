//! An object that begins to be live.

ghost use Rattle.std.specs.Prelude.{◌≡◌, [], ◌∷◌, ◌++◌, length, IfOk, OnOk, OnErr};
ghost use Rattle.model_eval.specs.StobjLayouts.{new_list};
ghost use Rattle.acl_worlds.specs.Contents.{seen_world};
ghost use Rattle.acl_live_lists.specs.Live.{live_lists, AreLive};

use acl_base::SymId;
use acl_heap::Heap;
use acl_list_keeper::ListKeeper;
use acl_list_scope::Binding;
use acl_new_lists::new_list;
use acl_syms::Symbols;
use acl_worlds::World;
use std::alloc::{AllocError, Global};

/// One more binding before others, as the outermost.
fn with_outermost(
    alloc: Global,
    outermost: Binding,
    bindings: &[Binding],
) -> Result<Vec<Binding>, AllocError>
    ensures { IfOk result (λ made. made.items ≡ outermost ∷ bindings.now) }
{
    let mut made = Vec::new(alloc);
    made.push(outermost)?;
    made.extend_from_slice(bindings)?;
    Ok(made)
}

/// An object that has entered the world becomes live, behind the others, with the list that it begins as. A refusal leaves the live
/// objects as they were, and may leave cells in the table that nothing stands on.
#[tactic(auto, using(crate::proofs::CreateLemmas::lists_created, crate::proofs::CreateLemmas::live_created, crate::proofs::CreateLemmas::lists_refused, crate::proofs::CreateLemmas::live_refused))]
pub fn create(
    alloc: Global,
    keeper: &mut ListKeeper,
    world: &World,
    heap: &Heap,
    _syms: &Symbols,
    stobj: SymId,
) -> Result<(), AllocError>
    requires { AreLive keeper.old heap.now world.now (length _syms.now.symbols) }
    ensures ok { OnOk result (live_lists keeper.new ≡ live_lists keeper.old ++ (stobj.0, new_list (seen_world heap.now world.now) stobj.0) ∷ []) }
    ensures err { OnErr result (live_lists keeper.new ≡ live_lists keeper.old) }
    ensures live { AreLive keeper.new heap.now world.now (length _syms.now.symbols) }
{
    keeper.ready = None;
    let list = new_list(alloc, &mut keeper.scoped.lists, world, heap, stobj)?;
    let outermost = Binding {
        variable: stobj,
        list: Some(list),
    };
    let bindings = keeper.scoped.bindings.as_slice();
    match with_outermost(alloc, outermost, bindings) {
        Ok(made) => {
            keeper.scoped.bindings = made;
            Ok(())
        }
        Err(refused) => Err(refused),
    }
}
