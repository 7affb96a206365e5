//! What a row makes of what stands behind its head.

ghost use Rattle.std.specs.Prelude.{◌≡◌, IfOk};
ghost use Rattle.model_expansion.specs.Layers.{made_of};
ghost use Rattle.acl_layers.specs.Lists.{seen_left, LeftLies};
ghost use Rattle.acl_layers.specs.Layers.{StandsMade, RestFits};
ghost use Rattle.acl_layers.specs.Rows.{seen_row};

use crate::chained::{and, chain, list_star, listing, or, or_test, several};
use crate::clauses::{case, clauses, cond, cond_rest, cond_test};
use crate::counted::{
    added, binary, conditional, minus, must_be_equal, must_be_equal_keys, must_be_true, negated,
    path, quote, then,
};
use crate::layer::{Left, Made};
use crate::rows::Row;
use crate::scoping::{let_row, let_star, let_star_rest, mv_let, stobj_let, with_local};
use crate::typed::{checked, the};
use acl_heap::Heap;
use acl_syms::Symbols;
use std::alloc::{AllocError, Global};

/// What a row makes of what stands behind its head. None where the shape is wrong. The cost is linear in what the row
/// looks at, but for the names that a form binds, whose number it squares.
pub fn made_of(
    alloc: Global,
    heap: &Heap,
    syms: &Symbols,
    row: Row,
    left: Left,
) -> Result<Option<Made>, AllocError>
    requires lies { LeftLies heap.now left }
    requires fits { RestFits heap.now row left }
    ensures { IfOk result (λ m. StandsMade heap.now m (made_of syms.now.symbols (seen_row row) (seen_left heap.now left))) }
{
    match row {
        Row::Quote => Ok(quote(heap, syms, left)),
        Row::If => conditional(alloc, heap, syms, left),
        Row::Let => let_row(alloc, heap, syms, left),
        Row::Mv => several(alloc, heap, syms, left),
        Row::MvLet => mv_let(alloc, heap, syms, left),
        Row::StobjLet => stobj_let(alloc, heap, syms, left),
        Row::WithLocal => with_local(alloc, heap, syms, left),
        Row::MustBeEqual => must_be_equal(alloc, heap, syms, left),
        Row::And => and(alloc, heap, syms, left),
        Row::Or => or(alloc, heap, syms, left),
        Row::Cond => cond(alloc, heap, syms, left),
        Row::Case => case(alloc, heap, syms, left),
        Row::LetStar => let_star(alloc, heap, syms, left),
        Row::Listing => listing(alloc, heap, syms, left),
        Row::ListStar => list_star(alloc, heap, syms, left),
        Row::Chain(f, unit) => chain(alloc, heap, syms, f, unit, left),
        Row::Minus => minus(alloc, heap, syms, left),
        Row::Added(n) => added(alloc, heap, syms, n, left),
        Row::Two(f) => binary(alloc, heap, syms, f, left),
        Row::Negated(f) => negated(alloc, heap, syms, f, left),
        Row::Path(letters) => path(alloc, heap, syms, letters, left),
        Row::Then => then(alloc, heap, syms, left),
        Row::Mbt => Ok(must_be_true(heap, syms, left)),
        Row::Mbe => must_be_equal_keys(alloc, heap, syms, left),
        Row::The => the(alloc, heap, syms, left),
        Row::OrTest => or_test(alloc, heap, syms, left),
        Row::CondTest => cond_test(alloc, heap, syms, left),
        Row::CondRest => cond_rest(alloc, heap, syms, left),
        Row::Clauses => clauses(alloc, heap, syms, left),
        Row::Bindings => let_star_rest(alloc, heap, syms, left),
        Row::Checked => checked(alloc, heap, syms, left),
    }
}
