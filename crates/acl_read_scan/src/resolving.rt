// The symbols of tokens.

ghost use Rattle.std.specs.Prelude.{◌≡◌, ℕ, ◌<◌, [], ◌∷◌, length, Some, IfOk};
ghost use Rattle.std.specs.Str.{bytes_eq};
ghost use Rattle.model_symbols.specs.Opening.{hidden};
ghost use Rattle.model_text.specs.Token.{numbered_token, nameable};
ghost use Rattle.acl_read_scan.specs.Built.{packages_of, Grows};
ghost use Rattle.acl_read_scan.specs.Scanning.{Resolves};

use crate::{TextCause, TextFault};
use acl_base::{PkgId, SymId};
use acl_syms::{SymFault, Symbols};

fn fault(cause: TextCause, offset: u64) -> TextFault
    ensures cause { result.cause ≡ cause }
    ensures offset { result.offset ≡ offset }
{
    TextFault { cause, offset }
}

/// The symbol of this name in the current package.
pub fn plain(
    syms: &mut Symbols,
    current: PkgId,
    name: &[u8],
    start: u64,
) -> Result<SymId, TextFault>
    requires { current.0 < length syms.old.packages }
    ensures grows { Grows syms.old syms.new }
    ensures resolves { Resolves syms.old syms.new start (numbered_token (packages_of syms.old current) (Some current.0) name.now) result }
    ensures known { IfOk result (λ s. s.0 < length syms.new.symbols) }
{
    match syms.intern_in(current, name) {
        Ok(s) => Ok(s),
        Err(SymFault::TooMany) => Err(fault(TextCause::TooManySymbols, start)),
        Err(SymFault::Memory) => Err(fault(TextCause::Memory, 0)),
        Err(_) => unreachable!(),
    }
}

fn is_hidden(home: &[u8]) -> bool
    ensures { result ≡ bytes_eq home.now hidden }
{
    match home {
        [b'%'] => true,
        _ => false,
    }
}

/// The symbol of this name in a package.
pub fn qualified(
    syms: &mut Symbols,
    current: PkgId,
    home: &[u8],
    name: &[u8],
    start: u64,
) -> Result<SymId, TextFault>
    requires { current.0 < length syms.old.packages }
    ensures grows { Grows syms.old syms.new }
    ensures resolves { let packages = packages_of syms.old current in Resolves syms.old syms.new start (numbered_token packages (nameable packages home.now) name.now) result }
    ensures known { IfOk result (λ s. s.0 < length syms.new.symbols) }
{
    let _ = current;
    if is_hidden(home) {
        return Err(fault(TextCause::UnknownPackage, start));
    }
    match syms.intern(home, name) {
        Ok(s) => Ok(s),
        Err(SymFault::UnknownPackage) => Err(fault(TextCause::UnknownPackage, start)),
        Err(SymFault::TooMany) => Err(fault(TextCause::TooManySymbols, start)),
        Err(SymFault::Memory) => Err(fault(TextCause::Memory, 0)),
        Err(_) => unreachable!(),
    }
}
