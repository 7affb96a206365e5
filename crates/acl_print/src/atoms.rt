//! Atoms, and the ends of lists.

ghost use Rattle.std.specs.Prelude.{◌≡◌, ◌<◌, [], ◌∷◌, ◌++◌, length, OnOk};
ghost use Rattle.std.specs.Fmt.{signed_decimal};
ghost use Rattle.std.specs.Str.{bytes_eq};
ghost use Rattle.model_symbols.specs.Symbols.{symbol_at};
ghost use Rattle.model_symbols.specs.Opening.{keyword};
ghost use Rattle.model_text.specs.Text.{is_at_home, prefix_text, symbol_text, end_text};
ghost use Rattle.acl_print.specs.Views.{packages_in, seen_text, is_nil_symbol, is_seen_nil};
ghost use Rattle.acl_print.specs.Tasks.{IsSeenKnown};

use crate::names::{put_between, put_name};
use acl_base::{PkgId, SymId};
use acl_heap::Seen;
use acl_syms::Symbols;
use std::alloc::{AllocError, Global};

/// The name of a symbol's package.
fn home(syms: &Symbols, s: SymId) -> &[u8]
    requires { s.0 < length syms.now.symbols }
    ensures { result.now ≡ (symbol_at syms.now.symbols s.0).home }
{
    syms.package_name(syms.package(s))
}

fn is_keyword(syms: &Symbols, s: SymId) -> bool
    requires { s.0 < length syms.now.symbols }
    ensures { result ≡ bytes_eq (symbol_at syms.now.symbols s.0).home keyword }
{
    home(syms, s) == b"KEYWORD".as_slice()
}

fn is_nil(syms: &Symbols, s: SymId) -> bool
    requires { s.0 < length syms.now.symbols }
    ensures { result ≡ is_nil_symbol syms.now.symbols s.0 }
{
    home(syms, s) == b"COMMON-LISP".as_slice() && syms.name(s) == b"NIL".as_slice()
}

/// Whether the current package has this very symbol under its name.
fn is_at_home(syms: &Symbols, current: PkgId, s: SymId) -> bool
    requires known { s.0 < length syms.now.symbols }
    requires current { current.0 < length syms.now.packages }
    ensures { result ≡ is_at_home (packages_in syms.now current.0) (symbol_at syms.now.symbols s.0) }
{
    syms.is_table();
    match syms.find(current, syms.name(s)) {
        Some(found) => found.0 == s.0,
        None => false,
    }
}

/// Puts what stands before the name of a symbol.
fn put_prefix(syms: &Symbols, current: PkgId, out: &mut Vec<u8>, s: SymId) -> Result<(), AllocError>
    requires known { s.0 < length syms.now.symbols }
    requires current { current.0 < length syms.now.packages }
    ensures { OnOk result (out.new.items ≡ out.old.items ++ prefix_text (packages_in syms.now current.0) (symbol_at syms.now.symbols s.0)) }
{
    if is_keyword(syms, s) {
        out.push(b':')?;
    } else if !is_at_home(syms, current, s) {
        put_name(out, home(syms, s))?;
        out.extend_from_slice(b"::")?;
    }
    Ok(())
}

fn put_symbol(syms: &Symbols, current: PkgId, out: &mut Vec<u8>, s: SymId) -> Result<(), AllocError>
    requires known { s.0 < length syms.now.symbols }
    requires current { current.0 < length syms.now.packages }
    ensures { OnOk result (out.new.items ≡ out.old.items ++ symbol_text (packages_in syms.now current.0) (symbol_at syms.now.symbols s.0)) }
{
    put_prefix(syms, current, out, s)?;
    put_name(out, syms.name(s))?;
    Ok(())
}

fn put_integer(alloc: Global, out: &mut Vec<u8>, n: i128) -> Result<(), AllocError>
    ensures { OnOk result (out.new.items ≡ out.old.items ++ signed_decimal n) }
{
    let digits = n.to_string(alloc)?;
    out.extend_from_slice(digits.as_bytes())
}

/// Puts an atom.
pub fn put_atom(
    alloc: Global,
    syms: &Symbols,
    current: PkgId,
    out: &mut Vec<u8>,
    seen: &Seen,
) -> Result<(), AllocError>
    requires known { IsSeenKnown syms.now seen.now }
    requires current { current.0 < length syms.now.packages }
    ensures { OnOk result (out.new.items ≡ out.old.items ++ seen_text syms.now current.0 seen.now) }
{
    match seen {
        Seen::Integer(n) => put_integer(alloc, out, *n),
        Seen::Symbol(s) => put_symbol(syms, current, out, *s),
        Seen::Text(bytes) => put_between(out, b'"', bytes),
        Seen::Pair(_, _) => Ok(()),
    }
}

fn is_seen_nil(syms: &Symbols, seen: &Seen) -> bool
    requires { IsSeenKnown syms.now seen.now }
    ensures { result ≡ is_seen_nil syms.now.symbols seen.now }
{
    match seen {
        Seen::Symbol(s) => is_nil(syms, *s),
        Seen::Integer(_) => false,
        Seen::Text(_) => false,
        Seen::Pair(_, _) => false,
    }
}

/// Puts the end of a list, with its bracket.
pub fn put_end(
    alloc: Global,
    syms: &Symbols,
    current: PkgId,
    out: &mut Vec<u8>,
    seen: &Seen,
) -> Result<(), AllocError>
    requires known { IsSeenKnown syms.now seen.now }
    requires current { current.0 < length syms.now.packages }
    ensures { OnOk result (out.new.items ≡ out.old.items ++ end_text (is_seen_nil syms.now.symbols seen.now) (seen_text syms.now current.0 seen.now)) }
{
    if !is_seen_nil(syms, seen) {
        out.extend_from_slice(b" . ")?;
        put_atom(alloc, syms, current, out, seen)?;
    }
    out.push(b')')?;
    Ok(())
}
