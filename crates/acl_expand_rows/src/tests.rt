//! Rows: a form, its core form or its fault, and how many uses of macros are counted. V is the hidden variable, `%::V`.

use crate::rows::{expansion_of, uses};
use std::alloc::{AllocError, Global};
use std::process::Abort;
use std::test::Fail;

/// A form as text, what it is expanded to, and the count.
type Row = (&'static [u8], &'static [u8], u64);

/// Each row, with so many steps at most.
fn rows(rt: &impl Abort, alloc: Global, steps: u64, rows: &[Row]) -> Result<(), Fail> {
    for row in rows {
        let found = expansion_of(alloc, row.0, steps)?;
        assert_eq!(rt; found.text.as_slice(), row.1);
        assert_eq!(rt; found.progress.calls, row.2);
        assert_eq!(rt; found.progress.outer, row.2);
    }
    Ok(())
}

const CORE: &[Row] = &[
    (b"X", b"X", 0),
    (b"7", b"'7", 0),
    (b"NIL", b"'NIL", 0),
    (b":KEY", b"'KEY", 0),
    (b"\"text\"", b"'\"text\"", 0),
    (b"*C*", b"'3", 0),
    (b"*D*", b"*D*", 0),
    (b"'(A . 2)", b"'(A . 2)", 0),
    (b"(IF X Y Z)", b"(IF X Y Z)", 0),
    (
        b"(LET ((X 1) (Y X)) (DECLARE (IGNORE Y)) X)",
        b"(LET ((X '1) (Y X)) X)",
        0,
    ),
    (b"(MV X 2 Y)", b"(MV X '2 Y)", 0),
    (
        b"(MV-LET (X Y) (MV 1 2) Y)",
        b"(MV-LET (X Y) (MV '1 '2) Y)",
        0,
    ),
    (
        b"(STOBJ-LET ((KID (TWO ST 0))) (X KID) (MV 1 KID) (TWO X ST))",
        b"(STOBJ-LET ((KID (TWO ST '0))) (X KID) (MV '1 KID) (TWO X ST))",
        0,
    ),
    (
        b"(WITH-LOCAL-STOBJ ST (MV-LET (X ST) (MV 1 ST) X))",
        b"(WITH-LOCAL-STOBJ ST (X ST) (MV '1 ST) X)",
        0,
    ),
    (b"(MUST-BE-EQUAL X Y)", b"(MUST-BE-EQUAL X Y)", 0),
    (b"(TWO X (TWO 1 2))", b"(TWO X (TWO '1 '2))", 0),
];

const LOGICAL: &[Row] = &[
    (b"(AND)", b"'T", 1),
    (b"(AND X)", b"X", 1),
    (b"(AND X Y Z)", b"(IF X (IF Y Z 'NIL) 'NIL)", 1),
    (b"(OR)", b"'NIL", 1),
    (b"(OR X)", b"X", 1),
    (
        b"(OR X Y Z)",
        b"(LET ((V X)) (IF V V (LET ((V Y)) (IF V V Z))))",
        1,
    ),
    (b"(COND)", b"'NIL", 1),
    (
        b"(COND (X 1) ((AND Y Z) 2))",
        b"(IF X '1 (IF (IF Y Z 'NIL) '2 'NIL))",
        2,
    ),
    (b"(COND (X) (T 2))", b"(LET ((V X)) (IF V V '2))", 1),
    (
        b"(CASE X (A 1) ((B 2) 3) (OTHERWISE Y))",
        b"(LET ((V X)) (IF (EQL V 'A) '1 (IF (MEMBER-EQUAL V '(B 2)) '3 Y)))",
        1,
    ),
    (b"(CASE X (T 1))", b"(LET ((V X)) '1)", 1),
    (
        b"(CASE X (7 1))",
        b"(LET ((V X)) (IF (EQL V '7) '1 'NIL))",
        1,
    ),
    (
        b"(LET* ((X 1) (X X) (Y X)) (DECLARE (IGNORE Y)) Y)",
        b"(LET ((X '1)) (LET ((X X)) (LET ((Y X)) Y)))",
        1,
    ),
    (b"(LET* () X)", b"X", 1),
];

const LISTS: &[Row] = &[
    (b"(LIST)", b"'NIL", 1),
    (b"(LIST X Y)", b"(CONS X (CONS Y 'NIL))", 1),
    (b"(LIST* X)", b"X", 1),
    (b"(LIST* X Y Z)", b"(CONS X (CONS Y Z))", 1),
    (b"(APPEND)", b"'NIL", 1),
    (b"(APPEND X)", b"X", 1),
    (
        b"(APPEND X Y Z)",
        b"(BINARY-APPEND X (BINARY-APPEND Y Z))",
        1,
    ),
    (b"(MEMBER X Y)", b"(MEMBER-EQUAL X Y)", 1),
    (b"(MEMBER-EQ X Y)", b"(MEMBER-EQUAL X Y)", 1),
    (b"(ASSOC X Y)", b"(ASSOC-EQUAL X Y)", 1),
    (b"(ASSOC-EQ X Y)", b"(ASSOC-EQUAL X Y)", 1),
    (b"(UNION-EQ X Y)", b"(UNION-EQUAL X Y)", 1),
];

const PATHS: &[Row] = &[
    (b"(CAAR X)", b"(CAR (CAR X))", 1),
    (b"(CADR X)", b"(CAR (CDR X))", 1),
    (b"(CDAR X)", b"(CDR (CAR X))", 1),
    (b"(CDDR X)", b"(CDR (CDR X))", 1),
    (b"(CAAAR X)", b"(CAR (CAR (CAR X)))", 1),
    (b"(CAADR X)", b"(CAR (CAR (CDR X)))", 1),
    (b"(CADAR X)", b"(CAR (CDR (CAR X)))", 1),
    (b"(CADDR X)", b"(CAR (CDR (CDR X)))", 1),
    (b"(CDAAR X)", b"(CDR (CAR (CAR X)))", 1),
    (b"(CDADR X)", b"(CDR (CAR (CDR X)))", 1),
    (b"(CDDAR X)", b"(CDR (CDR (CAR X)))", 1),
    (b"(CDDDR X)", b"(CDR (CDR (CDR X)))", 1),
    (b"(CAAAAR X)", b"(CAR (CAR (CAR (CAR X))))", 1),
    (b"(CAAADR X)", b"(CAR (CAR (CAR (CDR X))))", 1),
    (b"(CAADAR X)", b"(CAR (CAR (CDR (CAR X))))", 1),
    (b"(CAADDR X)", b"(CAR (CAR (CDR (CDR X))))", 1),
    (b"(CADAAR X)", b"(CAR (CDR (CAR (CAR X))))", 1),
    (b"(CADADR X)", b"(CAR (CDR (CAR (CDR X))))", 1),
    (b"(CADDAR X)", b"(CAR (CDR (CDR (CAR X))))", 1),
    (b"(CADDDR X)", b"(CAR (CDR (CDR (CDR X))))", 1),
    (b"(CDAAAR X)", b"(CDR (CAR (CAR (CAR X))))", 1),
    (b"(CDAADR X)", b"(CDR (CAR (CAR (CDR X))))", 1),
    (b"(CDADAR X)", b"(CDR (CAR (CDR (CAR X))))", 1),
    (b"(CDADDR X)", b"(CDR (CAR (CDR (CDR X))))", 1),
    (b"(CDDAAR X)", b"(CDR (CDR (CAR (CAR X))))", 1),
    (b"(CDDADR X)", b"(CDR (CDR (CAR (CDR X))))", 1),
    (b"(CDDDAR X)", b"(CDR (CDR (CDR (CAR X))))", 1),
    (b"(CDDDDR X)", b"(CDR (CDR (CDR (CDR X))))", 1),
    (b"(FIRST X)", b"(CAR X)", 1),
    (b"(SECOND X)", b"(CAR (CDR X))", 1),
    (b"(THIRD X)", b"(CAR (CDR (CDR X)))", 1),
    (b"(FOURTH X)", b"(CAR (CDR (CDR (CDR X))))", 1),
    (b"(FIFTH X)", b"(CAR (CDR (CDR (CDR (CDR X)))))", 1),
    (b"(REST X)", b"(CDR X)", 1),
];

const ARITHMETIC: &[Row] = &[
    (b"(+)", b"'0", 1),
    (b"(+ X)", b"X", 1),
    (b"(+ X Y 3)", b"(BINARY-+ X (BINARY-+ Y '3))", 1),
    (b"(*)", b"'1", 1),
    (b"(* X Y Z)", b"(BINARY-* X (BINARY-* Y Z))", 1),
    (b"(- X)", b"(UNARY-- X)", 1),
    (b"(- X Y)", b"(BINARY-+ X (UNARY-- Y))", 1),
    (b"(1+ X)", b"(BINARY-+ '1 X)", 1),
    (b"(1- X)", b"(BINARY-+ '-1 X)", 1),
    (b"(> X Y)", b"(< Y X)", 1),
    (b"(<= X Y)", b"(NOT (< Y X))", 1),
    (b"(>= X Y)", b"(NOT (< X Y))", 1),
    (b"(LOGAND)", b"'-1", 1),
    (b"(LOGAND X Y)", b"(BINARY-LOGAND X Y)", 1),
    (b"(LOGIOR)", b"'0", 1),
    (
        b"(LOGIOR X Y Z)",
        b"(BINARY-LOGIOR X (BINARY-LOGIOR Y Z))",
        1,
    ),
    (b"(LOGXOR)", b"'0", 1),
    (b"(LOGXOR X Y)", b"(BINARY-LOGXOR X Y)", 1),
];

const OTHERS: &[Row] = &[
    (b"(PROG2$ X Y)", b"(LET ((V X)) Y)", 1),
    (b"(MBT X)", b"X", 1),
    (b"(MBE :LOGIC X :EXEC Y)", b"(MUST-BE-EQUAL X Y)", 1),
    (b"(MBE :EXEC Y :LOGIC X)", b"(MUST-BE-EQUAL X Y)", 1),
    (b"(THE T X)", b"(LET ((V X)) (THE-CHECK 'T 'T V))", 1),
    (
        b"(THE (INTEGER 0 *) X)",
        b"(LET ((V X)) (THE-CHECK (IF (INTEGERP V) (NOT (< V '0)) 'NIL) '(INTEGER 0 *) V))",
        1,
    ),
    (
        b"(THE BIT X)",
        b"(LET ((V X)) (THE-CHECK (IF (INTEGERP V) (IF (NOT (< V '0)) (NOT (< '1 V)) 'NIL) 'NIL) 'BIT V))",
        1,
    ),
    (
        b"(THE (OR (MEMBER A B) (NOT INTEGER)) X)",
        b"(LET ((V X)) (THE-CHECK (IF (MEMBER-EQUAL V '(A B)) 'T (NOT (INTEGERP V))) '(OR (MEMBER A B) (NOT INTEGER)) V))",
        1,
    ),
    (b"(THE SYMBOL X)", b"UnknownFunction SYMBOLP", 1),
    (
        b"(AND (OR X Y) (LIST 1))",
        b"(IF (LET ((V X)) (IF V V Y)) (CONS '1 'NIL) 'NIL)",
        3,
    ),
];

const MACROS: &[Row] = &[
    (b"(SAME (AND X Y))", b"(IF X Y 'NIL)", 2),
    (b"(SAME (SAME 7))", b"'7", 2),
    (b"(SAME *C*)", b"'3", 1),
    (b"(SAME '(AND))", b"'(AND)", 1),
    (b"(SEVEN)", b"'7", 1),
    (b"(ALL LIST X (ALL AND Y))", b"(CONS X (CONS Y 'NIL))", 4),
    (b"(ALL)", b"'NIL", 1),
    (b"(MAYBE)", b"'5", 1),
    (b"(MAYBE NIL)", b"'NIL", 1),
    (b"(MAYBE X)", b"X", 1),
    (b"(GIVEN)", b"'NIL", 1),
    (b"(GIVEN NIL)", b"'T", 1),
    (b"(KEYED)", b"'5", 1),
    (b"(KEYED :X NIL)", b"'NIL", 1),
    (b"(KEYED :X Y)", b"Y", 1),
    (b"(REFUSED)", b"Memory", 1),
    (b"(LIST (REFUSED) (UNKNOWN))", b"Memory", 2),
    (b"(SAME)", b"MacroArgs SAME", 1),
    (b"(SAME 1 2)", b"MacroArgs SAME", 1),
    (b"(MAYBE 1 2)", b"MacroArgs MAYBE", 1),
    (b"(KEYED :X)", b"MacroArgs KEYED", 1),
    (b"(KEYED :Y 1)", b"MacroArgs KEYED", 1),
    (b"(KEYED :X 1 :X 2)", b"MacroArgs KEYED", 1),
    (b"(SAME . 1)", b"BadShape SAME", 1),
];

const FAULTS: &[Row] = &[
    (b"(QUOTE)", b"BadShape QUOTE", 0),
    (b"(IF X Y)", b"BadShape IF", 0),
    (b"(LET ((X 1) (X 2)) X)", b"BadShape LET", 0),
    (b"(LET ((T 1)) X)", b"BadShape LET", 0),
    (b"(MV X)", b"BadShape MV", 0),
    (b"(MV-LET (X) Y Z)", b"BadShape MV-LET", 0),
    (b"(MV-LET (X X) Y Z)", b"BadShape MV-LET", 0),
    (b"(STOBJ-LET () (X) Y Z)", b"BadShape STOBJ-LET", 0),
    (b"(WITH-LOCAL-STOBJ ST X)", b"BadShape WITH-LOCAL-STOBJ", 0),
    (b"(7 X)", b"BadShape NIL", 0),
    (b"(UNKNOWN . X)", b"UnknownFunction UNKNOWN", 0),
    (b"(*C* X)", b"UnknownFunction *C*", 0),
    (b"(TWO . X)", b"BadShape TWO", 0),
    (b"(TWO X)", b"Arity TWO", 0),
    (b"(AND . X)", b"BadShape AND", 1),
    (b"(COND (T 1) (X 2))", b"BadShape COND", 1),
    (b"(COND X)", b"BadShape COND", 1),
    (b"(CASE X (T 1) (Y 2))", b"BadShape CASE", 1),
    (b"(CASE)", b"BadShape CASE", 1),
    (b"(LET* ((X)) X)", b"BadShape LET*", 1),
    (b"(LIST*)", b"BadShape LIST*", 1),
    (b"(-)", b"BadShape -", 1),
    (b"(< X Y Z)", b"Arity <", 0),
    (b"(> X)", b"BadShape >", 1),
    (b"(CADR)", b"BadShape CADR", 1),
    (b"(MBE :LOGIC X)", b"BadShape MBE", 1),
    (b"(THE CHARACTER X)", b"BadShape THE", 1),
    (b"(IF (TWO X) (UNKNOWN) (IF))", b"Arity TWO", 0),
    (b"(AND X (TWO X) (UNKNOWN))", b"Arity TWO", 1),
    (b"(LIST (AND) (OR . 1) (UNKNOWN))", b"BadShape OR", 3),
];

const STEPS: &[Row] = &[
    (b"(AND X (OR Y))", b"(IF X Y 'NIL)", 2),
    (b"(LIST (AND X) (OR Y))", b"MacroStopped Steps", 2),
    (b"(LIST (AND X) (SAME))", b"MacroStopped Steps", 2),
    (b"(SAME (SAME (SAME X)))", b"MacroStopped Steps", 2),
    (b"(LIST (AND X) (OR . Y))", b"MacroStopped Steps", 2),
    (b"(LIST (TWO X) (AND X) (OR Y))", b"Arity TWO", 1),
];

#[test]
fn core_forms(rt: HostRuntime) -> Result<(), Fail> {
    rows(&rt, rt.alloc(), 1_000, CORE)
}

#[test]
fn logical_macros(rt: HostRuntime) -> Result<(), Fail> {
    rows(&rt, rt.alloc(), 1_000, LOGICAL)
}

#[test]
fn lists(rt: HostRuntime) -> Result<(), Fail> {
    rows(&rt, rt.alloc(), 1_000, LISTS)
}

#[test]
fn paths(rt: HostRuntime) -> Result<(), Fail> {
    rows(&rt, rt.alloc(), 1_000, PATHS)
}

#[test]
fn arithmetic(rt: HostRuntime) -> Result<(), Fail> {
    rows(&rt, rt.alloc(), 1_000, ARITHMETIC)
}

#[test]
fn other_macros(rt: HostRuntime) -> Result<(), Fail> {
    rows(&rt, rt.alloc(), 1_000, OTHERS)
}

#[test]
fn macros_of_the_world(rt: HostRuntime) -> Result<(), Fail> {
    rows(&rt, rt.alloc(), 1_000, MACROS)
}

#[test]
fn faults(rt: HostRuntime) -> Result<(), Fail> {
    rows(&rt, rt.alloc(), 1_000, FAULTS)
}

#[test]
fn want_of_steps(rt: HostRuntime) -> Result<(), Fail> {
    rows(&rt, rt.alloc(), 2, STEPS)
}

/// An AND of so many X.
fn and_of(alloc: Global, parts: u64) -> Result<Vec<u8>, AllocError> {
    let mut bytes = Vec::new(alloc);
    bytes.extend_from_slice(b"(AND")?;
    for _ in 0..parts {
        bytes.extend_from_slice(b" X")?;
    }
    bytes.push(b')')?;
    Ok(bytes)
}

#[test]
fn depth(rt: HostRuntime) -> Result<(), Fail> {
    let deepest = and_of(rt.alloc(), 2_048)?;
    assert_eq!(rt; uses(rt.alloc(), deepest.as_slice(), 1)?, Some(1));
    let deeper = and_of(rt.alloc(), 2_049)?;
    let found = expansion_of(rt.alloc(), deeper.as_slice(), 1_000)?;
    assert_eq!(rt; found.text.as_slice(), b"TooNested".as_slice());
    Ok(())
}
