// The end of a token.

ghost use Rattle.std.specs.Prelude.{◌≡◌, ℕ, ◌<◌, [], length, IfOk, OnOk};
ghost use Rattle.model_symbols.specs.Symbols.{Table};
ghost use Rattle.model_text.specs.Token.{token_of};
ghost use Rattle.model_text.specs.Parts.{put};
ghost use Rattle.model_text.specs.Next.{placed, token_ended};
ghost use Rattle.acl_read_tokens.specs.Kinds.{token_in, reading};
ghost use Rattle.acl_read_lexemes.specs.Lexemes.{lexeme_at, parts_of, IsKnown};
ghost use Rattle.acl_read_lexemes.specs.Opening.{LeavesOpen};
ghost use Rattle.acl_read_scan.specs.Built.{state_at, IsBuilt, packages_of, Grows};
ghost use Rattle.acl_read_scan.specs.Scanning.{Does};
ghost use Rattle.acl_read_scan.specs.Tokens.{Stands, IsKnownStanding, lexeme_for};

use crate::resolving::{plain, qualified};
use crate::{Built, Inside, Lexeme, Progress, TextFault};
use acl_base::{PkgId, SymId};
use acl_read_lexemes::add;
use acl_read_tokens::{Kind, kind_of, token_by_reading};
use acl_syms::Symbols;
use std::alloc::Global;

/// What a token stands for.
enum Standing {
    Dot,
    Number(i128),
    Name(SymId),
}

fn lexeme_of(standing: Standing) -> Lexeme
    ensures { result ≡ lexeme_for standing }
{
    match standing {
        Standing::Dot => Lexeme::Dot,
        Standing::Number(n) => Lexeme::Number(n),
        Standing::Name(s) => Lexeme::Name(s),
    }
}

fn standing_of(
    kind: Kind,
    syms: &mut Symbols,
    current: PkgId,
    start: u64,
) -> Result<Standing, TextFault>
    requires { current.0 < length syms.old.packages }
    ensures grows { Grows syms.old syms.new }
    ensures stands { Stands syms.old syms.new start (token_in (packages_of syms.old current) (reading kind)) result }
    ensures known { IfOk result (IsKnownStanding (length syms.new.symbols)) }
{
    match kind {
        Kind::Dot => Ok(Standing::Dot),
        Kind::Number(n) => Ok(Standing::Number(n)),
        Kind::Plain(name) => {
            let s = plain(syms, current, name.as_slice(), start)?;
            Ok(Standing::Name(s))
        }
        Kind::Qualified(home, name) => {
            let s = qualified(syms, current, home.as_slice(), name.as_slice(), start)?;
            Ok(Standing::Name(s))
        }
        Kind::Wrong(cause) => Err(TextFault {
            cause,
            offset: start,
        }),
    }
}

// What the token stands for.
fn read_token(
    alloc: Global,
    token: &[u8],
    syms: &mut Symbols,
    current: PkgId,
    start: u64,
) -> Result<Standing, TextFault>
    requires { current.0 < length syms.old.packages }
    ensures grows { Grows syms.old syms.new }
    ensures stands { Stands syms.old syms.new start (token_of (packages_of syms.old current) token.now) result }
    ensures known { IfOk result (IsKnownStanding (length syms.new.symbols)) }
{
    token_by_reading();
    let kind = kind_of(alloc, token)?;
    standing_of(kind, syms, current, start)
}

// The token is put where it belongs.
fn place(
    built: &mut Built,
    syms: &Symbols,
    lexeme: Lexeme,
    start: u64,
) -> Result<Progress, TextFault>
    requires built { IsBuilt syms.now built.old }
    requires known { IsKnown (length syms.now.symbols) lexeme }
    ensures does { Does syms.now built.new (placed (put (lexeme_at syms.now.symbols lexeme) start (parts_of syms.now.symbols built.old.lexemes.items)) syms.now.symbols (state_at syms.now built.old)) result }
    ensures leaves { LeavesOpen built.new.frames.items result }
    ensures at { OnOk result (built.new.at ≡ built.old.at) }
{
    let progress = add(&mut built.frames, &mut built.lexemes, syms, lexeme, start)?;
    built.inside = Inside::Free;
    built.token.clear();
    Ok(progress)
}

/// The token that has begun ends, if one has.
pub fn end_token(
    alloc: Global,
    built: &mut Built,
    syms: &mut Symbols,
    current: PkgId,
) -> Result<Progress, TextFault>
    requires built { IsBuilt syms.old built.old }
    requires package { current.0 < length syms.old.packages }
    ensures grows { Grows syms.old syms.new }
    ensures does { Does syms.new built.new (token_ended (packages_of syms.old current) (state_at syms.old built.old)) result }
    ensures leaves { 0 < length built.old.token.items → LeavesOpen built.new.frames.items result }
    ensures at { OnOk result (built.new.at ≡ built.old.at) }
{
    if built.token.is_empty() {
        return Ok(Progress::Going);
    }
    let start = built.at.saturating_sub(built.token.len() as u64);
    let standing = read_token(alloc, built.token.as_slice(), syms, current, start)?;
    place(built, syms, lexeme_of(standing), start)
}
