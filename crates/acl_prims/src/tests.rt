ghost use Rattle.std.specs.Prelude.{◌<◌, length, IfOk, IfSome};
ghost use Rattle.model_symbols.specs.Growth as growth;
ghost use Rattle.model_symbols.specs.Opening.{opening};
ghost use Rattle.model_prims.specs.Rows as rows;
ghost use Rattle.acl_heap.specs.Objects.{Extends};
ghost use Rattle.acl_forms.specs.Forms.{IsWhole};

use super::*;
use acl_heap::HeapFault;
use std::process::Abort;
use std::test::Fail;

/// An argument, or a value.
#[derive(Clone, Copy)]
enum Given {
    /// None at all.
    No,
    Int(i128),
    Text(&'static [u8]),
    T,
    Nil,
    /// A true list of integers.
    Ints(&'static [i128]),
    /// A pair of integers.
    Dotted(i128, i128),
    /// A list of one pair of integers.
    Alist(i128, i128),
}

use Given::{Alist, Dotted, Int, Ints, Nil, No, T, Text};

#[derive(Clone, Copy)]
enum Expected {
    Value(Given),
    Stop(PrimStop),
}

use Expected::{Stop, Value};

#[derive(Clone, Copy)]
struct Case(&'static [u8], Given, Given, Given, Expected);

const MAX: i128 = i128::MAX;

const MIN: i128 = i128::MIN;

#[tactic(auto, using(crate::proofs::Cases::wholes))]
fn ints(items: &[i128], heap: &mut Heap, syms: &Symbols) -> Result<Word, HeapFault>
    requires { growth.Extends opening syms.now }
    ensures whole { IfOk result (IsWhole syms.now heap.new) }
    ensures grows { Extends heap.old heap.new }
{
    let mut done = NIL;
    let mut left = items.len();
    while left > 0 {
        left -= 1;
        let item = heap.int(items[left])?;
        done = heap.cons(item, done)?;
    }
    Ok(done)
}

#[tactic(auto, using(crate::proofs::Cases::whole_of))]
fn dotted(first: i128, second: i128, heap: &mut Heap, _syms: &Symbols) -> Result<Word, HeapFault>
    ensures whole { IfOk result (IsWhole _syms.now heap.new) }
    ensures grows { Extends heap.old heap.new }
{
    let car = heap.int(first)?;
    let cdr = heap.int(second)?;
    let pair = heap.cons(car, cdr)?;
    Ok(pair)
}

#[tactic(auto, using(crate::proofs::Cases::wholes))]
fn made(given: Given, heap: &mut Heap, syms: &Symbols) -> Result<Word, HeapFault>
    requires { growth.Extends opening syms.now }
    ensures whole { IfOk result (IsWhole syms.now heap.new) }
    ensures grows { Extends heap.old heap.new }
{
    match given {
        No => Ok(NIL),
        Int(n) => {
            let word = heap.int(n)?;
            Ok(word)
        }
        Text(bytes) => {
            let word = heap.string(bytes)?;
            Ok(word)
        }
        T => Ok(TRUTH),
        Nil => Ok(NIL),
        Ints(items) => ints(items, heap, syms),
        Dotted(first, second) => dotted(first, second, heap, syms),
        Alist(first, second) => {
            let pair = dotted(first, second, heap, syms)?;
            let list = heap.cons(pair, NIL)?;
            Ok(list)
        }
    }
}

/// The row of a name, which no two packages share here.
fn row_of(name: &[u8]) -> Option<u8>
    ensures { IfSome result (λ row. row < length rows.table) }
{
    match find(name, b"COMMON-LISP") {
        Some(row) => Some(row),
        None => find(name, b"ACL2"),
    }
}

#[tactic(auto, using(crate::proofs::Cases::later))]
fn answer(
    alloc: Global,
    row: u8,
    case: Case,
    heap: &mut Heap,
    syms: &mut Symbols,
) -> Result<Result<Word, PrimStop>, HeapFault>
    requires row { row < length rows.table }
    requires opening { growth.Extends opening syms.old }
    ensures whole { IfOk result (λ r. IfOk r (IsWhole syms.new heap.new)) }
    ensures opening { growth.Extends opening syms.new }
{
    let x = made(case.1, heap, syms)?;
    let y = made(case.2, heap, syms)?;
    let z = made(case.3, heap, syms)?;
    let given = match (case.2, case.3) {
        (No, _) => apply(alloc, row, &[x], heap, syms),
        (_, No) => apply(alloc, row, &[x, y], heap, syms),
        _ => apply(alloc, row, &[x, y, z], heap, syms),
    };
    Ok(given)
}

#[tactic(auto, using(crate::proofs::Cases::later))]
fn is_right(alloc: Global, case: Case) -> Result<bool, Fail> {
    let mut syms = Symbols::new(alloc)?;
    let mut heap = Heap::new(alloc);
    let Some(row) = row_of(case.0) else {
        return Ok(false);
    };
    let given = answer(alloc, row, case, &mut heap, &mut syms)?;
    match (given, case.4) {
        (Ok(word), Value(value)) => {
            let wanted = made(value, &mut heap, &syms)?;
            let same = heap.equal(word, wanted)?;
            Ok(same)
        }
        (Err(stop), Stop(wanted)) => Ok(stop == wanted),
        (Ok(_), Stop(_)) => Ok(false),
        (Err(_), Value(_)) => Ok(false),
    }
}

fn all_right(rt: &impl Abort, alloc: Global, cases: &[Case]) -> Result<(), Fail> {
    for case in cases {
        let right = is_right(alloc, *case)?;
        assert!(rt; right, "{:?}", case.0);
    }
    Ok(())
}

const GUARD: Expected = Stop(PrimStop::Guard);

const RANGE: Expected = Stop(PrimStop::Range);

const LARGE: Expected = Stop(PrimStop::TooLarge);

const YES: Expected = Value(T);

const NO: Expected = Value(Nil);

fn int(n: i128) -> Expected {
    Value(Int(n))
}

#[test]
fn recognizers(rt: HostRuntime) -> Result<(), Fail> {
    all_right(
        &rt,
        rt.alloc(),
        &[
            Case(b"CONSP", Nil, No, No, NO),
            Case(b"ATOM", Nil, No, No, YES),
            Case(b"NULL", Int(0), No, No, NO),
            Case(b"NOT", Nil, No, No, YES),
            Case(b"SYMBOLP", Nil, No, No, YES),
            Case(b"STRINGP", Text(b""), No, No, YES),
            Case(b"INTEGERP", Int(MIN), No, No, YES),
            Case(b"NATP", Int(-1), No, No, NO),
            Case(b"POSP", Int(0), No, No, NO),
            Case(b"BOOLEANP", Int(0), No, No, NO),
            Case(b"TRUE-LISTP", Dotted(1, 2), No, No, NO),
            Case(b"ALISTP", Ints(&[1, 2]), No, No, NO),
            Case(b"ALISTP", Alist(1, 2), No, No, YES),
            Case(b"ENDP", T, No, No, GUARD),
            Case(b"ZEROP", Nil, No, No, GUARD),
            Case(b"ZP", Int(-1), No, No, GUARD),
            Case(b"ZIP", Int(-1), No, No, NO),
        ],
    )
}

#[test]
fn relations(rt: HostRuntime) -> Result<(), Fail> {
    all_right(
        &rt,
        rt.alloc(),
        &[
            Case(b"EQ", Int(5), Int(5), No, GUARD),
            Case(b"EQL", Text(b"A"), Text(b"A"), No, GUARD),
            Case(b"EQUAL", Ints(&[1, MIN]), Ints(&[1, MIN]), No, YES),
            Case(b"<", Int(MIN), Int(MAX), No, YES),
            Case(b"=", Int(MAX), Int(MAX), No, YES),
            Case(b"/=", T, Int(5), No, GUARD),
            Case(b"IMPLIES", Int(5), Nil, No, NO),
            Case(b"IFF", Nil, T, No, NO),
            Case(b"THE-CHECK", Nil, Int(1), Int(2), GUARD),
            Case(b"THE-CHECK", Int(0), Int(1), Int(2), int(2)),
        ],
    )
}

#[test]
fn sums(rt: HostRuntime) -> Result<(), Fail> {
    all_right(
        &rt,
        rt.alloc(),
        &[
            Case(b"BINARY-+", Int(MAX), Int(1), No, RANGE),
            Case(b"BINARY-+", Int(MAX), Int(MIN), No, int(-1)),
            Case(b"BINARY-*", Int(MIN), Int(-1), No, RANGE),
            Case(b"BINARY-*", Int(-(1 << 64)), Int(1 << 63), No, int(MIN)),
            Case(b"UNARY--", Int(MIN), No, No, RANGE),
            Case(b"NFIX", Int(-1), No, No, int(0)),
            Case(b"IFIX", Nil, No, No, int(0)),
            Case(b"ABS", Int(MIN), No, No, RANGE),
            Case(b"MIN", Int(-1), Int(-2), No, int(-2)),
            Case(b"MAX", Int(MIN), Int(MAX), No, int(MAX)),
        ],
    )
}

#[test]
fn divisions(rt: HostRuntime) -> Result<(), Fail> {
    all_right(
        &rt,
        rt.alloc(),
        &[
            Case(b"FLOOR", Int(7), Int(2), No, int(3)),
            Case(b"FLOOR", Int(-7), Int(2), No, int(-4)),
            Case(b"FLOOR", Int(7), Int(-2), No, int(-4)),
            Case(b"FLOOR", Int(-7), Int(-2), No, int(3)),
            Case(b"FLOOR", Int(MIN), Int(-1), No, RANGE),
            Case(b"FLOOR", Int(1), Int(0), No, GUARD),
            Case(b"MOD", Int(7), Int(2), No, int(1)),
            Case(b"MOD", Int(-7), Int(2), No, int(1)),
            Case(b"MOD", Int(7), Int(-2), No, int(-1)),
            Case(b"MOD", Int(-7), Int(-2), No, int(-1)),
            Case(b"MOD", Int(MIN), Int(-1), No, int(0)),
            Case(b"TRUNCATE", Int(7), Int(-2), No, int(-3)),
            Case(b"TRUNCATE", Int(-7), Int(2), No, int(-3)),
            Case(b"TRUNCATE", Int(MIN), Int(-1), No, RANGE),
            Case(b"REM", Int(7), Int(-2), No, int(1)),
            Case(b"REM", Int(-7), Int(2), No, int(-1)),
            Case(b"REM", Int(MIN), Int(-1), No, int(0)),
        ],
    )
}

#[test]
fn powers_and_bits(rt: HostRuntime) -> Result<(), Fail> {
    all_right(
        &rt,
        rt.alloc(),
        &[
            Case(b"EXPT", Int(-2), Int(127), No, int(MIN)),
            Case(b"EXPT", Int(2), Int(127), No, RANGE),
            Case(b"EXPT", Int(2), Int(MAX), No, RANGE),
            Case(b"EXPT", Int(0), Int(MAX), No, int(0)),
            Case(b"EXPT", Int(-1), Int(MAX), No, int(-1)),
            Case(b"EXPT", Int(3), Int(-1), No, GUARD),
            Case(b"ASH", Int(-1), Int(127), No, int(MIN)),
            Case(b"ASH", Int(1), Int(127), No, RANGE),
            Case(b"ASH", Int(0), Int(MAX), No, int(0)),
            Case(b"ASH", Int(-5), Int(-1), No, int(-3)),
            Case(b"ASH", Int(-1), Int(MIN), No, int(-1)),
            Case(b"ASH", Int(1), Int(MIN), No, int(0)),
            Case(b"LOGNOT", Int(MIN), No, No, int(MAX)),
            Case(b"BINARY-LOGAND", Int(-4), Int(-6), No, int(-8)),
            Case(b"BINARY-LOGIOR", Int(-4), Int(1), No, int(-3)),
            Case(b"BINARY-LOGXOR", Int(-1), Int(5), No, int(-6)),
        ],
    )
}

#[test]
fn lists(rt: HostRuntime) -> Result<(), Fail> {
    all_right(
        &rt,
        rt.alloc(),
        &[
            Case(b"CAR", Int(5), No, No, GUARD),
            Case(b"CDR", Dotted(1, 2), No, No, int(2)),
            Case(b"CONS", Int(1), Ints(&[2]), No, Value(Ints(&[1, 2]))),
            Case(b"LEN", Dotted(1, 2), No, No, int(1)),
            Case(b"LENGTH", Text(b"ABC"), No, No, int(3)),
            Case(b"LENGTH", Dotted(1, 2), No, No, GUARD),
            Case(b"NTH", Int(MAX), Ints(&[1, 2]), No, NO),
            Case(b"NTH", Int(1), Ints(&[1, 2]), No, int(2)),
            Case(
                b"UPDATE-NTH",
                Int(1),
                Int(9),
                Ints(&[1, 2, 3]),
                Value(Ints(&[1, 9, 3])),
            ),
            Case(b"UPDATE-NTH", Int(MAX), Int(9), Nil, LARGE),
            Case(
                b"BINARY-APPEND",
                Ints(&[1, 2]),
                Ints(&[3]),
                No,
                Value(Ints(&[1, 2, 3])),
            ),
            Case(b"BINARY-APPEND", Dotted(1, 2), Nil, No, GUARD),
            Case(
                b"REVAPPEND",
                Ints(&[1, 2]),
                Ints(&[3]),
                No,
                Value(Ints(&[2, 1, 3])),
            ),
            Case(
                b"MEMBER-EQUAL",
                Int(2),
                Ints(&[1, 2, 3]),
                No,
                Value(Ints(&[2, 3])),
            ),
            Case(b"ASSOC-EQUAL", Int(1), Alist(1, 2), No, Value(Dotted(1, 2))),
            Case(b"ASSOC-EQUAL", Int(1), Ints(&[1]), No, GUARD),
            Case(
                b"UNION-EQUAL",
                Ints(&[1, 2, 1]),
                Ints(&[2, 3]),
                No,
                Value(Ints(&[1, 1, 2, 3])),
            ),
        ],
    )
}

#[test]
fn names(rt: HostRuntime) -> Result<(), Fail> {
    all_right(
        &rt,
        rt.alloc(),
        &[
            Case(b"SYMBOL-NAME", Nil, No, No, Value(Text(b"NIL"))),
            Case(b"SYMBOL-NAME", Text(b"T"), No, No, GUARD),
            Case(
                b"SYMBOL-PACKAGE-NAME",
                T,
                No,
                No,
                Value(Text(b"COMMON-LISP")),
            ),
            Case(b"INTERN-IN-PACKAGE-OF-SYMBOL", Text(b"NIL"), T, No, NO),
            Case(
                b"INTERN-IN-PACKAGE-OF-SYMBOL",
                Text(b"NIL"),
                Int(5),
                No,
                GUARD,
            ),
            Case(
                b"STRING-APPEND",
                Text(b"AB"),
                Text(b"C"),
                No,
                Value(Text(b"ABC")),
            ),
            Case(b"STRING-APPEND", Text(b"AB"), T, No, GUARD),
        ],
    )
}

#[test]
fn imports(rt: HostRuntime) -> Result<(), Fail> {
    let mut syms = Symbols::new(rt.alloc())?;
    let mut heap = Heap::new(rt.alloc());
    let beside = syms.intern(b"ACL2", b"MV")?;
    let name = heap.string(b"CAR")?;
    let Some(row) = row_of(b"INTERN-IN-PACKAGE-OF-SYMBOL") else {
        return Ok(());
    };
    let args = [name, Word::Sym(beside)];
    let given = apply(rt.alloc(), row, &args, &mut heap, &mut syms);
    assert_eq!(rt; given, Ok(Word::Sym(SymId(6))));
    Ok(())
}
