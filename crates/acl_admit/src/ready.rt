//! Whether functions are small enough to be checked and to be made into terms.

ghost use Rattle.std.specs.Prelude.{◌≡◌};
ghost use Rattle.std.specs.List.{list_all};
ghost use Rattle.acl_check.specs.Members.{seen_member, seen_members};
ghost use Rattle.acl_admit.specs.Ready.{is_ready, are_ready};

use acl_check::Member;
use acl_heap::Heap;
use acl_narrow::is_narrow;

/// How many places a list has at most.
const MOST: usize = 4_294_967_296;

/// How deep a form is at most.
const DEEPEST: u32 = 2048;

/// Whether a function has at most 2^32 formals, its guard and its body are at most 2,048 deep, and no list in them has more
/// than 2^32 places. It takes no memory.
pub fn is_ready(heap: &Heap, member: &Member) -> bool
    ensures { result ≡ is_ready (seen_member heap.now member.now) }
{
    let few = member.formals.len() <= MOST;
    let guard = is_narrow(heap, &member.guard, DEEPEST);
    let body = is_narrow(heap, &member.body, DEEPEST);
    few & (guard & body)
}

#[tactic(auto, using(crate::proofs::ReadyLemmas::ready_step, crate::proofs::ReadyLemmas::ready_end))]
fn all_ready(heap: &Heap, members: &[Member]) -> bool
    ensures { result ≡ list_all is_ready (seen_members heap.now members.now) }
{
    for member in members {
        if !is_ready(heap, member) {
            return false;
        }
    }
    true
}

/// Whether all functions are, and there are at most 2^32 of them. It takes no memory.
#[tactic(auto, using(crate::proofs::ReadyLemmas::as_many))]
pub fn are_ready(heap: &Heap, members: &[Member]) -> bool
    ensures { result ≡ are_ready (seen_members heap.now members.now) }
{
    let few = members.len() <= MOST;
    let all = all_ready(heap, members);
    few & all
}
