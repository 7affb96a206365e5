//! The table of the primitives.

ghost use Rattle.std.specs.Prelude.{◌≡◌, ◌<◌, ◌&&◌, length, map, position, IfSome};
ghost use Rattle.std.specs.Str.{bytes_eq};
ghost use Rattle.model_prims.specs.Rows.{table, prim_of, arity_of, row_called};
ghost use Rattle.acl_prims.specs.Tabled.{names_of, named_rows};

use model_prims::{Arithmetic, Listing, Naming, Prim, Recognizer, Relation};

/// A primitive: its symbol, as a name and the name of its package, and how many arguments it takes.
#[derive(Clone, Copy, Debug)]
pub struct PrimRow {
    pub name: &'static [u8],
    pub package: &'static [u8],
    pub arity: u8,
}

/// A row whose name is a symbol of `COMMON-LISP`.
macro_rules! lisp {
    ($name:expr, $arity:expr) => {
        PrimRow {
            name: $name,
            package: b"COMMON-LISP",
            arity: $arity,
        }
    };
}

/// A row whose name is a symbol of `ACL2`.
macro_rules! own {
    ($name:expr, $arity:expr) => {
        PrimRow {
            name: $name,
            package: b"ACL2",
            arity: $arity,
        }
    };
}

static ROWS: [PrimRow; 59] = [
    lisp!(b"CAR", 1),
    lisp!(b"CDR", 1),
    lisp!(b"CONS", 2),
    lisp!(b"CONSP", 1),
    lisp!(b"ATOM", 1),
    lisp!(b"NULL", 1),
    lisp!(b"NOT", 1),
    lisp!(b"SYMBOLP", 1),
    lisp!(b"STRINGP", 1),
    lisp!(b"INTEGERP", 1),
    own!(b"NATP", 1),
    own!(b"POSP", 1),
    own!(b"BOOLEANP", 1),
    own!(b"TRUE-LISTP", 1),
    own!(b"ALISTP", 1),
    lisp!(b"ENDP", 1),
    lisp!(b"EQ", 2),
    lisp!(b"EQL", 2),
    lisp!(b"EQUAL", 2),
    own!(b"BINARY-+", 2),
    own!(b"BINARY-*", 2),
    own!(b"UNARY--", 1),
    lisp!(b"<", 2),
    lisp!(b"=", 2),
    lisp!(b"/=", 2),
    lisp!(b"ZEROP", 1),
    own!(b"ZP", 1),
    own!(b"ZIP", 1),
    own!(b"NFIX", 1),
    own!(b"IFIX", 1),
    lisp!(b"ABS", 1),
    lisp!(b"MIN", 2),
    lisp!(b"MAX", 2),
    lisp!(b"FLOOR", 2),
    lisp!(b"MOD", 2),
    lisp!(b"TRUNCATE", 2),
    lisp!(b"REM", 2),
    lisp!(b"EXPT", 2),
    lisp!(b"ASH", 2),
    lisp!(b"LOGNOT", 1),
    own!(b"BINARY-LOGAND", 2),
    own!(b"BINARY-LOGIOR", 2),
    own!(b"BINARY-LOGXOR", 2),
    own!(b"LEN", 1),
    lisp!(b"LENGTH", 1),
    lisp!(b"NTH", 2),
    own!(b"UPDATE-NTH", 3),
    own!(b"BINARY-APPEND", 2),
    lisp!(b"REVAPPEND", 2),
    own!(b"MEMBER-EQUAL", 2),
    own!(b"ASSOC-EQUAL", 2),
    own!(b"UNION-EQUAL", 2),
    lisp!(b"SYMBOL-NAME", 1),
    own!(b"SYMBOL-PACKAGE-NAME", 1),
    own!(b"INTERN-IN-PACKAGE-OF-SYMBOL", 2),
    own!(b"STRING-APPEND", 2),
    own!(b"IMPLIES", 2),
    own!(b"IFF", 2),
    own!(b"THE-CHECK", 3),
];

const PRIMS: [Prim; 59] = [
    Prim::Listing(Listing::Car),
    Prim::Listing(Listing::Cdr),
    Prim::Listing(Listing::Cons),
    Prim::Recognizer(Recognizer::Consp),
    Prim::Recognizer(Recognizer::Atom),
    Prim::Recognizer(Recognizer::Null),
    Prim::Recognizer(Recognizer::Not),
    Prim::Recognizer(Recognizer::Symbolp),
    Prim::Recognizer(Recognizer::Stringp),
    Prim::Recognizer(Recognizer::Integerp),
    Prim::Recognizer(Recognizer::Natp),
    Prim::Recognizer(Recognizer::Posp),
    Prim::Recognizer(Recognizer::Booleanp),
    Prim::Recognizer(Recognizer::TrueListp),
    Prim::Recognizer(Recognizer::Alistp),
    Prim::Recognizer(Recognizer::Endp),
    Prim::Relation(Relation::Eq),
    Prim::Relation(Relation::Eql),
    Prim::Relation(Relation::Equal),
    Prim::Arithmetic(Arithmetic::Plus),
    Prim::Arithmetic(Arithmetic::Times),
    Prim::Arithmetic(Arithmetic::Minus),
    Prim::Relation(Relation::Below),
    Prim::Relation(Relation::Same),
    Prim::Relation(Relation::Different),
    Prim::Recognizer(Recognizer::Zerop),
    Prim::Recognizer(Recognizer::Zp),
    Prim::Recognizer(Recognizer::Zip),
    Prim::Arithmetic(Arithmetic::Nfix),
    Prim::Arithmetic(Arithmetic::Ifix),
    Prim::Arithmetic(Arithmetic::Abs),
    Prim::Arithmetic(Arithmetic::Min),
    Prim::Arithmetic(Arithmetic::Max),
    Prim::Arithmetic(Arithmetic::Floor),
    Prim::Arithmetic(Arithmetic::Mod),
    Prim::Arithmetic(Arithmetic::Truncate),
    Prim::Arithmetic(Arithmetic::Rem),
    Prim::Arithmetic(Arithmetic::Expt),
    Prim::Arithmetic(Arithmetic::Ash),
    Prim::Arithmetic(Arithmetic::Lognot),
    Prim::Arithmetic(Arithmetic::Logand),
    Prim::Arithmetic(Arithmetic::Logior),
    Prim::Arithmetic(Arithmetic::Logxor),
    Prim::Listing(Listing::Len),
    Prim::Listing(Listing::Length),
    Prim::Listing(Listing::Nth),
    Prim::Listing(Listing::UpdateNth),
    Prim::Listing(Listing::Append),
    Prim::Listing(Listing::Revappend),
    Prim::Listing(Listing::Member),
    Prim::Listing(Listing::Assoc),
    Prim::Listing(Listing::Union),
    Prim::Naming(Naming::SymbolName),
    Prim::Naming(Naming::SymbolPackageName),
    Prim::Naming(Naming::Intern),
    Prim::Naming(Naming::StringAppend),
    Prim::Relation(Relation::Implies),
    Prim::Relation(Relation::Iff),
    Prim::TheCheck,
];

/// The rows of the table, each at its number.
pub fn table() -> &'static [PrimRow]
    ensures rows { map names_of result.now ≡ named_rows }
    ensures count { length result.now ≡ length table }
{
    &ROWS
}

/// The primitive of a row.
pub fn prim_at(row: u8) -> Prim
    requires { row < length table }
    ensures { result ≡ prim_of row }
{
    PRIMS[row as usize]
}

/// How many arguments the primitive of a row takes.
pub fn arity(row: u8) -> u8
    requires { row < length table }
    ensures { result ≡ arity_of row }
{
    table()[row as usize].arity
}

fn place(rows: &[PrimRow], name: &[u8], home: &[u8]) -> Option<usize>
    ensures { result ≡ position (λ r. bytes_eq home.now r.package.now && bytes_eq name.now r.name.now) rows.now }
{
    rows.iter()
        .position(|row| home == row.package && name == row.name)
}

/// The row of the primitive whose symbol has this name and this home package.
pub fn find(name: &[u8], home: &[u8]) -> Option<u8>
    ensures found { result ≡ row_called (record { home = home.now; name = name.now }) }
    ensures row { IfSome result (λ row. row < length table) }
{
    match place(table(), name, home) {
        Some(row) => Some(row as u8),
        None => None,
    }
}
