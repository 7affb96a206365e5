//! Rows that take a given number of forms.

ghost use Rattle.std.specs.Prelude.{◌≡◌, ◌&&◌, [], ◌∷◌, IfOk};
ghost use Rattle.model_expansion.specs.Forms.{is_key};
ghost use Rattle.model_expansion.specs.Layers as layers;
ghost use Rattle.model_expansion.specs.Layers.{made_of, path_made, letter_function};
ghost use Rattle.acl_heap.specs.Objects.{object_of, Lies};
ghost use Rattle.acl_layers.specs.Lists.{seen_left, LeftLies};
ghost use Rattle.acl_layers.specs.Layers.{StandsMade};
ghost use Rattle.acl_layers.specs.Rows.{seen_row, seen_binary, seen_letter, seen_path};

use crate::layer::{Found, Kind, Left, Made, Part, Ready};
use crate::lists::{four, is_end, one, take, three, two};
use crate::making::{HIDDEN, call_one, call_two, hidden_let, if_made, leaf};
use crate::names::is_key;
use crate::rows::{Binary, Letter, Path, Row};
use crate::words;
use acl_base::{SymId, Word};
use acl_heap::Heap;
use acl_syms::Symbols;
use sqlite_items::Items;
use std::alloc::{AllocError, Global};

#[tactic(auto, using(crate::proofs::RowLemmas::quote_one, crate::proofs::RowLemmas::quote_none))]
pub fn quote(heap: &Heap, _syms: &Symbols, left: Left) -> Option<Made>
    requires { LeftLies heap.now left }
    ensures { StandsMade heap.now result (made_of _syms.now.symbols layers.Quote (seen_left heap.now left)) }
{
    let value = one(heap, left)?;
    Some(leaf(value))
}

#[tactic(auto, using(crate::proofs::RowLemmas::if_three, crate::proofs::RowLemmas::if_none))]
pub fn conditional(
    alloc: Global,
    heap: &Heap,
    _syms: &Symbols,
    left: Left,
) -> Result<Option<Made>, AllocError>
    requires { LeftLies heap.now left }
    ensures { IfOk result (λ m. StandsMade heap.now m (made_of _syms.now.symbols layers.If (seen_left heap.now left))) }
{
    match three(heap, left) {
        Some((test, yes, no)) => Ok(Some(if_made(
            alloc,
            Part::Form(test),
            Part::Form(yes),
            Part::Form(no),
        )?)),
        None => Ok(None),
    }
}

fn must_be_equal_made(alloc: Global, logic: Word, exec: Word) -> Result<Made, AllocError>
    ensures { IfOk result (λ m. m ≡ Made.Stays (Found.Node Kind.MustBeEqual (Part.Form logic ∷ Part.Form exec ∷ []))) }
{
    let parts = Items::from_slice(alloc, &[Part::Form(logic), Part::Form(exec)])?;
    Ok(Made::Stays(Found::Node(Kind::MustBeEqual, parts)))
}

#[tactic(auto, using(crate::proofs::RowLemmas::must_two, crate::proofs::RowLemmas::must_none))]
pub fn must_be_equal(
    alloc: Global,
    heap: &Heap,
    _syms: &Symbols,
    left: Left,
) -> Result<Option<Made>, AllocError>
    requires { LeftLies heap.now left }
    ensures { IfOk result (λ m. StandsMade heap.now m (made_of _syms.now.symbols layers.MustBeEqual (seen_left heap.now left))) }
{
    match two(heap, left) {
        Some((logic, exec)) => Ok(Some(must_be_equal_made(alloc, logic, exec)?)),
        None => Ok(None),
    }
}

#[tactic(auto, using(crate::proofs::RowLemmas::added_one, crate::proofs::RowLemmas::added_none))]
pub fn added(
    alloc: Global,
    heap: &Heap,
    _syms: &Symbols,
    n: i64,
    left: Left,
) -> Result<Option<Made>, AllocError>
    requires { LeftLies heap.now left }
    ensures { IfOk result (λ m. StandsMade heap.now m (made_of _syms.now.symbols (layers.Added n) (seen_left heap.now left))) }
{
    match one(heap, left) {
        Some(x) => {
            let n = Part::Ready(Ready::Constant(Word::Small(n)));
            Ok(Some(call_two(alloc, SymId(words::BINARY_PLUS), n, Part::Form(x))?))
        }
        None => Ok(None),
    }
}

#[tactic(auto, using(crate::proofs::RowLemmas::minus_end, crate::proofs::RowLemmas::minus_one, crate::proofs::RowLemmas::minus_two, crate::proofs::RowLemmas::minus_none))]
pub fn minus(
    alloc: Global,
    heap: &Heap,
    _syms: &Symbols,
    left: Left,
) -> Result<Option<Made>, AllocError>
    requires { LeftLies heap.now left }
    ensures { IfOk result (λ m. StandsMade heap.now m (made_of _syms.now.symbols layers.Minus (seen_left heap.now left))) }
{
    match take(heap, left) {
        None => Ok(None),
        Some((x, rest)) => {
            if is_end(heap, rest) {
                return Ok(Some(call_one(alloc, SymId(words::UNARY_MINUS), Part::Form(x))?));
            }
            match one(heap, rest) {
                None => Ok(None),
                Some(_) => {
                    let taken = Part::Rest(Row::Minus, rest);
                    Ok(Some(call_two(alloc, SymId(words::BINARY_PLUS), Part::Form(x), taken)?))
                }
            }
        }
    }
}

#[tactic(auto, using(crate::proofs::RowLemmas::straight_two, crate::proofs::RowLemmas::straight_none))]
fn straight(
    alloc: Global,
    heap: &Heap,
    _syms: &Symbols,
    f: SymId,
    left: Left,
) -> Result<Option<Made>, AllocError>
    requires { LeftLies heap.now left }
    ensures { IfOk result (λ m. StandsMade heap.now m (made_of _syms.now.symbols (layers.Two f.0) (seen_left heap.now left))) }
{
    match two(heap, left) {
        Some((a, b)) => Ok(Some(call_two(alloc, f, Part::Form(a), Part::Form(b))?)),
        None => Ok(None),
    }
}

#[tactic(auto, using(crate::proofs::RowLemmas::turned_two, crate::proofs::RowLemmas::turned_none))]
fn turned(
    alloc: Global,
    heap: &Heap,
    _syms: &Symbols,
    f: SymId,
    left: Left,
) -> Result<Option<Made>, AllocError>
    requires { LeftLies heap.now left }
    ensures { IfOk result (λ m. StandsMade heap.now m (made_of _syms.now.symbols (layers.Turned f.0) (seen_left heap.now left))) }
{
    match two(heap, left) {
        Some((a, b)) => Ok(Some(call_two(alloc, f, Part::Form(b), Part::Form(a))?)),
        None => Ok(None),
    }
}

/// A function of two.
pub fn binary(
    alloc: Global,
    heap: &Heap,
    syms: &Symbols,
    binary: Binary,
    left: Left,
) -> Result<Option<Made>, AllocError>
    requires { LeftLies heap.now left }
    ensures { IfOk result (λ m. StandsMade heap.now m (made_of syms.now.symbols (seen_binary binary) (seen_left heap.now left))) }
{
    match binary {
        Binary::Straight(f) => straight(alloc, heap, syms, f, left),
        Binary::Turned(f) => turned(alloc, heap, syms, f, left),
    }
}

#[tactic(auto, using(crate::proofs::RowLemmas::negated_two, crate::proofs::RowLemmas::negated_none))]
pub fn negated(
    alloc: Global,
    heap: &Heap,
    _syms: &Symbols,
    binary: Binary,
    left: Left,
) -> Result<Option<Made>, AllocError>
    requires { LeftLies heap.now left }
    ensures { IfOk result (λ m. StandsMade heap.now m (made_of _syms.now.symbols (layers.Negated (seen_binary binary)) (seen_left heap.now left))) }
{
    match two(heap, left) {
        Some(_) => {
            let denied = Part::Rest(Row::Two(binary), left);
            Ok(Some(call_one(alloc, SymId(words::NOT), denied)?))
        }
        None => Ok(None),
    }
}

fn letter_function(letter: Letter) -> SymId
    ensures { result.0 ≡ letter_function [] (seen_letter letter) }
{
    match letter {
        Letter::A => SymId(words::CAR),
        Letter::D => SymId(words::CDR),
    }
}

#[tactic(auto, using(crate::proofs::RowLemmas::path_last, crate::proofs::RowLemmas::path_more, crate::proofs::RowLemmas::path_none))]
pub fn path(
    alloc: Global,
    heap: &Heap,
    _syms: &Symbols,
    path: Path,
    left: Left,
) -> Result<Option<Made>, AllocError>
    requires { LeftLies heap.now left }
    ensures { IfOk result (λ m. StandsMade heap.now m (made_of _syms.now.symbols (layers.Path (seen_path path)) (seen_left heap.now left))) }
{
    let Some(x) = one(heap, left) else {
        return Ok(None);
    };
    let (letter, part) = match path {
        Path::One(a) => (a, Part::Form(x)),
        Path::Two(a, b) => (a, Part::Rest(Row::Path(Path::One(b)), left)),
        Path::Three(a, b, c) => (a, Part::Rest(Row::Path(Path::Two(b, c)), left)),
        Path::Four(a, b, c, d) => (a, Part::Rest(Row::Path(Path::Three(b, c, d)), left)),
        Path::Five(a, b, c, d, e) => (a, Part::Rest(Row::Path(Path::Four(b, c, d, e)), left)),
    };
    Ok(Some(call_one(alloc, letter_function(letter), part)?))
}

#[tactic(auto, using(crate::proofs::RowLemmas::then_two, crate::proofs::RowLemmas::then_none))]
pub fn then(
    alloc: Global,
    heap: &Heap,
    _syms: &Symbols,
    left: Left,
) -> Result<Option<Made>, AllocError>
    requires { LeftLies heap.now left }
    ensures { IfOk result (λ m. StandsMade heap.now m (made_of _syms.now.symbols layers.Then (seen_left heap.now left))) }
{
    match two(heap, left) {
        Some((first, second)) => Ok(Some(hidden_let(alloc, first, Part::Form(second))?)),
        None => Ok(None),
    }
}

#[tactic(auto, using(crate::proofs::RowLemmas::mbt_one, crate::proofs::RowLemmas::mbt_none))]
pub fn must_be_true(heap: &Heap, _syms: &Symbols, left: Left) -> Option<Made>
    requires { LeftLies heap.now left }
    ensures { StandsMade heap.now result (made_of _syms.now.symbols layers.Mbt (seen_left heap.now left)) }
{
    let form = one(heap, left)?;
    Some(Made::Again(form))
}

/// Whether the two are the keywords of these names.
fn keys_are(heap: &Heap, syms: &Symbols, first: &[u8], a: Word, second: &[u8], b: Word) -> bool
    requires a { Lies heap.now a }
    requires b { Lies heap.now b }
    ensures { result ≡ (is_key syms.now.symbols first.now (object_of heap.now a) && is_key syms.now.symbols second.now (object_of heap.now b)) }
{
    is_key(heap, syms, first, a) && is_key(heap, syms, second, b)
}

#[tactic(auto, using(crate::proofs::RowLemmas::mbe_straight, crate::proofs::RowLemmas::mbe_turned, crate::proofs::RowLemmas::mbe_other, crate::proofs::RowLemmas::mbe_none))]
pub fn must_be_equal_keys(
    alloc: Global,
    heap: &Heap,
    syms: &Symbols,
    left: Left,
) -> Result<Option<Made>, AllocError>
    requires { LeftLies heap.now left }
    ensures { IfOk result (λ m. StandsMade heap.now m (made_of syms.now.symbols layers.Mbe (seen_left heap.now left))) }
{
    let Some((a, x, b, y)) = four(heap, left) else {
        return Ok(None);
    };
    if keys_are(heap, syms, b"LOGIC", a, b"EXEC", b) {
        return Ok(Some(must_be_equal_made(alloc, x, y)?));
    }
    if keys_are(heap, syms, b"EXEC", a, b"LOGIC", b) {
        return Ok(Some(must_be_equal_made(alloc, y, x)?));
    }
    Ok(None)
}
