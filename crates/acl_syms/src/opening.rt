//! The symbols and packages that every table begins with.

ghost use Rattle.std.specs.Prelude.{◌≡◌, ℕ, ◌+◌, ◌<◌, ◌≤◌, [], ◌∷◌, ◌++◌, length, map, IfOk, OnOk};
ghost use Rattle.std.proofs.Common.{get_or};
ghost use Rattle.model_symbols.specs.Symbols.{most_symbols};
ghost use Rattle.model_symbols.specs.Opening.{opening};
ghost use Rattle.model_symbols.specs.Tables.{with_package, with_symbol, symbol_under, no_table};
ghost use Rattle.acl_syms.specs.Answers.{AreKnown, CanTake, package_with};
ghost use Rattle.acl_syms.specs.Opening.{with_all, names_in, lisp_table, full_packages, AreFirst};

use crate::{SymFault, Symbols};
use acl_base::{PkgId, SymId};
use std::alloc::{AllocError, Global};

/// The symbols of `COMMON-LISP`, in the order of their numbers.
static COMMON_LISP_NAMES: [&[u8]; 119] = [
    b"T",
    b"NIL",
    b"QUOTE",
    b"IF",
    b"LET",
    b"LET*",
    b"CAR",
    b"CDR",
    b"CONS",
    b"CONSP",
    b"ATOM",
    b"ENDP",
    b"NULL",
    b"NOT",
    b"EQ",
    b"EQL",
    b"EQUAL",
    b"SYMBOLP",
    b"STRINGP",
    b"INTEGERP",
    b"<",
    b"=",
    b"/=",
    b"<=",
    b">",
    b">=",
    b"+",
    b"*",
    b"-",
    b"1+",
    b"1-",
    b"ZEROP",
    b"ABS",
    b"MIN",
    b"MAX",
    b"FLOOR",
    b"MOD",
    b"REM",
    b"TRUNCATE",
    b"EXPT",
    b"ASH",
    b"LOGAND",
    b"LOGIOR",
    b"LOGXOR",
    b"LOGNOT",
    b"LENGTH",
    b"NTH",
    b"REVAPPEND",
    b"SYMBOL-NAME",
    b"LIST",
    b"LIST*",
    b"APPEND",
    b"MEMBER",
    b"ASSOC",
    b"AND",
    b"OR",
    b"COND",
    b"CASE",
    b"OTHERWISE",
    b"THE",
    b"FIRST",
    b"SECOND",
    b"THIRD",
    b"FOURTH",
    b"FIFTH",
    b"REST",
    b"CAAR",
    b"CADR",
    b"CDAR",
    b"CDDR",
    b"CAAAR",
    b"CAADR",
    b"CADAR",
    b"CADDR",
    b"CDAAR",
    b"CDADR",
    b"CDDAR",
    b"CDDDR",
    b"CAAAAR",
    b"CAAADR",
    b"CAADAR",
    b"CAADDR",
    b"CADAAR",
    b"CADADR",
    b"CADDAR",
    b"CADDDR",
    b"CDAAAR",
    b"CDAADR",
    b"CDADAR",
    b"CDADDR",
    b"CDDAAR",
    b"CDDADR",
    b"CDDDAR",
    b"CDDDDR",
    b"DECLARE",
    b"TYPE",
    b"IGNORE",
    b"IGNORABLE",
    b"OPTIMIZE",
    b"DEFUN",
    b"DEFMACRO",
    b"IN-PACKAGE",
    b"PROGN",
    b"FLET",
    b"LAMBDA",
    b"SATISFIES",
    b"INTEGER",
    b"SIGNED-BYTE",
    b"UNSIGNED-BYTE",
    b"BIT",
    b"SYMBOL",
    b"STRING",
    b"BOOLEAN",
    b"ARRAY",
    b"HASH-TABLE",
    b"&OPTIONAL",
    b"&REST",
    b"&BODY",
    b"&KEY",
];

/// The symbols of `ACL2` itself, in the order of their numbers.
static ACL2_NAMES: [&[u8]; 76] = [
    b"MV",
    b"MV-LET",
    b"STOBJ-LET",
    b"WITH-LOCAL-STOBJ",
    b"MUST-BE-EQUAL",
    b"MBE",
    b"MBT",
    b"PROG2$",
    b"THE-CHECK",
    b"BINARY-+",
    b"BINARY-*",
    b"UNARY--",
    b"BINARY-LOGAND",
    b"BINARY-LOGIOR",
    b"BINARY-LOGXOR",
    b"ZP",
    b"ZIP",
    b"NATP",
    b"POSP",
    b"NFIX",
    b"IFIX",
    b"BOOLEANP",
    b"TRUE-LISTP",
    b"ALISTP",
    b"LEN",
    b"BINARY-APPEND",
    b"UPDATE-NTH",
    b"MEMBER-EQUAL",
    b"MEMBER-EQ",
    b"ASSOC-EQUAL",
    b"ASSOC-EQ",
    b"UNION-EQUAL",
    b"UNION-EQ",
    b"SYMBOL-PACKAGE-NAME",
    b"INTERN-IN-PACKAGE-OF-SYMBOL",
    b"STRING-APPEND",
    b"IMPLIES",
    b"IFF",
    b"XARGS",
    b"DEFCONST",
    b"DEFPKG",
    b"DEFUND",
    b"DEFUN-NX",
    b"MUTUAL-RECURSION",
    b"DEFSTOBJ",
    b"DEFABSSTOBJ",
    b"*ACL2-EXPORTS*",
    b"*COMMON-LISP-SYMBOLS-FROM-MAIN-LISP-PACKAGE*",
    b"DEFTHM",
    b"DEFTHMD",
    b"IN-THEORY",
    b"VERIFY-GUARDS",
    b"TABLE",
    b"LOCAL",
    b"DEFLABEL",
    b"DEFTHEORY",
    b"DEFXDOC",
    b"LOGIC",
    b"PROGRAM",
    b"SET-IGNORE-OK",
    b"SET-IRRELEVANT-FORMALS-OK",
    b"SET-STATE-OK",
    b"SET-VERIFY-GUARDS-EAGERNESS",
    b"SET-WELL-FOUNDED-RELATION",
    b"SET-INHIBIT-WARNINGS",
    b"SET-ENFORCE-REDUNDANCY",
    b"SET-BOGUS-MUTUAL-RECURSION-OK",
    b"INCLUDE-BOOK",
    b"ENCAPSULATE",
    b"MAKE-EVENT",
    b"LD",
    b"DEFSTUB",
    b"DEFCHOOSE",
    b"DEFATTACH",
    b"ER",
    b"CW",
];

impl Symbols {
    /// The table that every session begins with.
    pub fn new(alloc: Global) -> Result<Symbols, AllocError>
        ensures { IfOk result (λ symbols. symbols ≡ opening) }
    {
        let mut symbols = Symbols::empty(alloc);
        symbols.put_common_lisp()?;
        symbols.put_packages()?;
        symbols.put_all(PkgId(2), &ACL2_NAMES)?;
        symbols.put_all(PkgId(3), &[b"V"])?;
        Ok(symbols)
    }

    fn put_common_lisp(&mut self) -> Result<(), AllocError>
        requires { self.old ≡ no_table }
        ensures { OnOk result (self.new ≡ lisp_table) }
    {
        self.begin(b"COMMON-LISP", &[])?;
        self.begin(b"KEYWORD", &[])?;
        self.put_all(PkgId(0), &COMMON_LISP_NAMES)?;
        Ok(())
    }

    fn put_packages(&mut self) -> Result<(), AllocError>
        requires { self.old ≡ lisp_table }
        ensures { OnOk result (self.new ≡ full_packages) }
    {
        let imports = first_symbols(self.alloc, COMMON_LISP_NAMES.len() as u32)?;
        self.begin(b"ACL2", &imports)?;
        self.begin(b"%", &[])?;
        Ok(())
    }

    fn begin(&mut self, name: &[u8], imports: &[SymId]) -> Result<PkgId, AllocError>
        requires known { AreKnown self.old.symbols imports.now }
        requires can { CanTake self.old name.now imports.now }
        ensures { OnOk result (self.new ≡ with_package self.old (package_with self.old.symbols name.now imports.now)) }
    {
        match self.add_package(name, imports) {
            Ok(p) => Ok(p),
            Err(SymFault::Memory) => Err(AllocError),
            Err(SymFault::UnknownPackage) => unreachable!(),
            Err(SymFault::TooMany) => unreachable!(),
            Err(SymFault::PackageExists) => unreachable!(),
            Err(SymFault::ImportClash { .. }) => unreachable!(),
        }
    }

    fn put_one(&mut self, p: PkgId, name: &[u8]) -> Result<SymId, AllocError>
        requires within { p.0 < length self.old.packages }
        requires room { length self.old.symbols < most_symbols }
        ensures { OnOk result (self.new ≡ with_symbol self.old (symbol_under self.old p.0 name.now)) }
    {
        match self.intern_in(p, name) {
            Ok(s) => Ok(s),
            Err(SymFault::Memory) => Err(AllocError),
            Err(SymFault::UnknownPackage) => unreachable!(),
            Err(SymFault::TooMany) => unreachable!(),
            Err(SymFault::PackageExists) => unreachable!(),
            Err(SymFault::ImportClash { .. }) => unreachable!(),
        }
    }

    fn put_all(&mut self, p: PkgId, names: &[&[u8]]) -> Result<(), AllocError>
        requires within { p.0 < length self.old.packages }
        requires room { length self.old.symbols + length names.now ≤ most_symbols }
        ensures { OnOk result (self.new ≡ with_all self.old (names_in self.old p.0 (map (λ n. n.now) names.now))) }
    {
        for name in names {
            self.put_one(p, name)?;
        }
        Ok(())
    }
}

/// The first symbols.
fn first_symbols(alloc: Global, count: u32) -> Result<Vec<SymId>, AllocError>
    ensures { IfOk result (λ ids. AreFirst count ids.items) }
{
    let mut ids = Vec::new(alloc);
    for number in 0..count {
        ids.push(SymId(number))?;
    }
    Ok(ids)
}
