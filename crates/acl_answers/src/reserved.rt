//! The names that no definition may take: of events and other heads, of built-in macros, of core forms and of primitives.

ghost use Rattle.std.specs.Prelude.{◌≡◌, ◌<◌, length, map};
ghost use Rattle.std.specs.List.{list_any};
ghost use Rattle.std.specs.Str.{bytes_eq};
ghost use Rattle.model_symbols.specs.Symbols.{symbol_at};
ghost use Rattle.model_output_so_far.specs.Reserved as reserved;

use acl_base::SymId;
use acl_commands::home;
use acl_syms::Symbols;

/// Those of `COMMON-LISP`.
static LISP_NAMES: [&[u8]; 95] = [
    b"QUOTE",
    b"IF",
    b"LET",
    b"LET*",
    b"AND",
    b"OR",
    b"COND",
    b"CASE",
    b"LIST",
    b"LIST*",
    b"APPEND",
    b"+",
    b"*",
    b"-",
    b"1+",
    b"1-",
    b">",
    b"<=",
    b">=",
    b"LOGAND",
    b"LOGIOR",
    b"LOGXOR",
    b"MEMBER",
    b"ASSOC",
    b"THE",
    b"FIRST",
    b"SECOND",
    b"THIRD",
    b"FOURTH",
    b"FIFTH",
    b"REST",
    b"CAAR",
    b"CADR",
    b"CDAR",
    b"CDDR",
    b"CAAAR",
    b"CAADR",
    b"CADAR",
    b"CADDR",
    b"CDAAR",
    b"CDADR",
    b"CDDAR",
    b"CDDDR",
    b"CAAAAR",
    b"CAAADR",
    b"CAADAR",
    b"CAADDR",
    b"CADAAR",
    b"CADADR",
    b"CADDAR",
    b"CADDDR",
    b"CDAAAR",
    b"CDAADR",
    b"CDADAR",
    b"CDADDR",
    b"CDDAAR",
    b"CDDADR",
    b"CDDDAR",
    b"CDDDDR",
    b"CAR",
    b"CDR",
    b"CONS",
    b"CONSP",
    b"ATOM",
    b"NULL",
    b"NOT",
    b"SYMBOLP",
    b"STRINGP",
    b"INTEGERP",
    b"ENDP",
    b"EQ",
    b"EQL",
    b"EQUAL",
    b"<",
    b"=",
    b"/=",
    b"ZEROP",
    b"ABS",
    b"MIN",
    b"MAX",
    b"FLOOR",
    b"MOD",
    b"TRUNCATE",
    b"REM",
    b"EXPT",
    b"ASH",
    b"LOGNOT",
    b"LENGTH",
    b"NTH",
    b"REVAPPEND",
    b"SYMBOL-NAME",
    b"DEFUN",
    b"DEFMACRO",
    b"IN-PACKAGE",
    b"PROGN",
];

/// Those of `ACL2`.
static OWN_NAMES: [&[u8]; 73] = [
    b"MV",
    b"MV-LET",
    b"STOBJ-LET",
    b"WITH-LOCAL-STOBJ",
    b"MUST-BE-EQUAL",
    b"MBE",
    b"MBT",
    b"PROG2$",
    b"MEMBER-EQ",
    b"ASSOC-EQ",
    b"UNION-EQ",
    b"THE-CHECK",
    b"BINARY-+",
    b"BINARY-*",
    b"UNARY--",
    b"BINARY-LOGAND",
    b"BINARY-LOGIOR",
    b"BINARY-LOGXOR",
    b"ZP",
    b"ZIP",
    b"NATP",
    b"POSP",
    b"NFIX",
    b"IFIX",
    b"BOOLEANP",
    b"TRUE-LISTP",
    b"ALISTP",
    b"LEN",
    b"BINARY-APPEND",
    b"UPDATE-NTH",
    b"MEMBER-EQUAL",
    b"ASSOC-EQUAL",
    b"UNION-EQUAL",
    b"SYMBOL-PACKAGE-NAME",
    b"INTERN-IN-PACKAGE-OF-SYMBOL",
    b"STRING-APPEND",
    b"IMPLIES",
    b"IFF",
    b"DEFCONST",
    b"DEFPKG",
    b"DEFUND",
    b"DEFUN-NX",
    b"MUTUAL-RECURSION",
    b"DEFSTOBJ",
    b"DEFABSSTOBJ",
    b"DEFTHM",
    b"DEFTHMD",
    b"IN-THEORY",
    b"VERIFY-GUARDS",
    b"TABLE",
    b"LOCAL",
    b"DEFLABEL",
    b"DEFTHEORY",
    b"DEFXDOC",
    b"LOGIC",
    b"PROGRAM",
    b"SET-IGNORE-OK",
    b"SET-IRRELEVANT-FORMALS-OK",
    b"SET-STATE-OK",
    b"SET-VERIFY-GUARDS-EAGERNESS",
    b"SET-WELL-FOUNDED-RELATION",
    b"SET-INHIBIT-WARNINGS",
    b"SET-ENFORCE-REDUNDANCY",
    b"SET-BOGUS-MUTUAL-RECURSION-OK",
    b"INCLUDE-BOOK",
    b"ENCAPSULATE",
    b"MAKE-EVENT",
    b"LD",
    b"DEFSTUB",
    b"DEFCHOOSE",
    b"DEFATTACH",
    b"ER",
    b"CW",
];

#[tactic(auto, unfolding(model_output_so_far::specs::Reserved::reserved_lisp))]
fn lisp_names() -> &'static [&'static [u8]]
    ensures { map (λ name. name.now) result.now ≡ reserved.reserved_lisp }
{
    &LISP_NAMES
}

#[tactic(auto, unfolding(model_output_so_far::specs::Reserved::reserved_own))]
fn own_names() -> &'static [&'static [u8]]
    ensures { map (λ name. name.now) result.now ≡ reserved.reserved_own }
{
    &OWN_NAMES
}

fn is_among(name: &[u8], names: &[&[u8]]) -> bool
    ensures { result ≡ list_any (λ other. bytes_eq name.now other.now) names.now }
{
    names.iter().any(|other| name == *other)
}

fn is_lisp_name(name: &[u8]) -> bool
    ensures { result ≡ list_any (bytes_eq name.now) reserved.reserved_lisp }
{
    is_among(name, lisp_names())
}

fn is_own_name(name: &[u8]) -> bool
    ensures { result ≡ list_any (bytes_eq name.now) reserved.reserved_own }
{
    is_among(name, own_names())
}

/// Whether a symbol is the name of a head, a built-in macro, a core form or a primitive.
#[tactic(auto, unfolding(model_output_so_far::specs::Reserved::is_reserved))]
pub fn is_reserved(syms: &Symbols, s: SymId) -> bool
    requires { s.0 < length syms.now.symbols }
    ensures { result ≡ reserved.is_reserved (symbol_at syms.now.symbols s.0) }
{
    let name = syms.name(s);
    let home = home(syms, s);
    let is_lisp = (home == b"COMMON-LISP".as_slice()) & is_lisp_name(name);
    let is_own = (home == b"ACL2".as_slice()) & is_own_name(name);
    is_lisp | is_own
}
