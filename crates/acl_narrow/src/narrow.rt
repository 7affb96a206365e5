//! Whether a core form is narrow.

ghost use Rattle.std.specs.Prelude.{◌≡◌, ◌&&◌};
ghost use Rattle.model_terms.specs.Cores as cores;
ghost use Rattle.acl_terms.specs.Forms.{seen_core, seen_cores, seen_bound};
ghost use Rattle.acl_narrow.specs.Narrow.{is_narrow, are_narrow};

use acl_base::SymId;
use acl_heap::Heap;
use acl_terms::Core;

/// How many places a list has at most.
const MOST: usize = 4_294_967_296;

/// Whether a form is at most so deep, and no list of names or of parts in it has more than 2^32 places.
#[cycle(narrow)]
pub fn is_narrow(heap: &Heap, core: &Core, left: u32) -> bool
    ensures { result ≡ is_narrow left (seen_core heap.now core.now) }
{
    if left == 0 {
        return false;
    }
    let under = left - 1;
    match core {
        Core::Var(_) => true,
        Core::Const(_) => true,
        Core::If(a, b, c) => {
            let first = is_narrow(heap, a.get(), under);
            let others = two_narrow(heap, b.get(), c.get(), under);
            first & others
        }
        Core::Let(bindings, body) => {
            let few = bindings.len() < MOST;
            let bound = bound_narrow(heap, bindings.as_slice(), under);
            let last = is_narrow(heap, body.get(), under);
            few & (bound & last)
        }
        Core::Mv(parts) => {
            let few = parts.len() <= MOST;
            let all = parts_narrow(heap, parts.as_slice(), under);
            few & all
        }
        Core::MvLet(names, given, body) => {
            let few = names.len() <= MOST;
            let both = two_narrow(heap, given.get(), body.get(), under);
            few & both
        }
        Core::StobjLet {
            bindings,
            vars,
            producer,
            consumer,
        } => {
            let few = bindings.len() < MOST;
            let named = vars.len() <= MOST;
            let bound = bound_narrow(heap, bindings.as_slice(), under);
            let both = two_narrow(heap, producer.get(), consumer.get(), under);
            few & (named & (bound & both))
        }
        Core::WithLocal {
            stobj: _,
            names,
            producer,
            body,
        } => {
            let few = names.len() <= MOST;
            let both = two_narrow(heap, producer.get(), body.get(), under);
            few & both
        }
        Core::MustBeEqual(logic, exec) => two_narrow(heap, logic.get(), exec.get(), under),
        Core::Call(_, actuals) => {
            let few = actuals.len() <= MOST;
            let all = parts_narrow(heap, actuals.as_slice(), under);
            few & all
        }
    }
}

/// The same of two forms.
#[cycle(narrow)]
fn two_narrow(heap: &Heap, first: &Core, second: &Core, left: u32) -> bool
    ensures { result ≡ (is_narrow left (seen_core heap.now first.now) && is_narrow left (seen_core heap.now second.now)) }
{
    let one = is_narrow(heap, first, left);
    let other = is_narrow(heap, second, left);
    one & other
}

/// The same of forms in a row.
#[cycle(narrow)]
fn parts_narrow(heap: &Heap, parts: &[Core], left: u32) -> bool
    ensures { result ≡ are_narrow left (cores.cores (seen_cores heap.now parts.now)) }
{
    'parts: for part in parts {
        if !is_narrow(heap, part, left) {
            return false;
        }
    }
    true
}

/// The same of what is bound.
#[cycle(narrow)]
fn bound_narrow(heap: &Heap, bindings: &[(SymId, Core)], left: u32) -> bool
    ensures { result ≡ are_narrow left (cores.cores (seen_bound heap.now bindings.now)) }
{
    'bindings: for binding in bindings {
        if !is_narrow(heap, &binding.1, left) {
            return false;
        }
    }
    true
}
