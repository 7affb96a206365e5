// Bytes outside bars, strings and comments.

ghost use Rattle.std.specs.Prelude.{◌≡◌, ℕ, ◌+◌, ◌<◌, [], ◌∷◌, length, IfOk, OnOk};
ghost use Rattle.std.specs.Str.{bytes_eq};
ghost use Rattle.model_text.specs.Token.{is_blank, ends_token};
ghost use Rattle.model_text.specs.Parts.{put};
ghost use Rattle.model_text.specs.Parts as parts;
ghost use Rattle.model_text.specs.Next.{counted, is_open_question, letter, mark, comma_begun, free_byte};
ghost use Rattle.model_text.specs.Next as next;
ghost use Rattle.acl_read_lexemes.specs.Lexemes.{lexeme_at, parts_of, IsKnown};
ghost use Rattle.acl_read_lexemes.specs.Opening.{LeavesOpen};
ghost use Rattle.acl_read_scan.specs.Built.{state_at, IsBuilt, packages_of, Grows};
ghost use Rattle.acl_read_scan.specs.Scanning.{Does, IsNear};

use crate::counting::{count, go_on_bare, go_on_with, room_at};
use crate::tokens::end_token;
use crate::{Built, Inside, Lexeme, Progress, TextCause, TextFault};
use acl_base::PkgId;
use acl_read_lexemes::{add, full_dot, in_backquote};
use acl_syms::Symbols;
use std::alloc::Global;

fn fault(cause: TextCause, offset: u64) -> TextFault
    ensures cause { result.cause ≡ cause }
    ensures offset { result.offset ≡ offset }
{
    TextFault { cause, offset }
}

#[tactic(auto, using(crate::proofs::BuiltLemmas::open_dot))]
fn form_dot(built: &Built, syms: &Symbols) -> Option<u64>
    requires { IsBuilt syms.now built.now }
    ensures { result ≡ parts.full_dot (parts_of syms.now.symbols built.now.lexemes.items) }
{
    let _ = syms;
    full_dot(built.frames.as_slice())
}

#[tactic(auto, using(crate::proofs::BuiltLemmas::open_backquote))]
fn form_backquote(built: &Built, syms: &Symbols) -> bool
    requires { IsBuilt syms.now built.now }
    ensures { result ≡ parts.in_backquote (parts_of syms.now.symbols built.now.lexemes.items) }
{
    let _ = syms;
    in_backquote(built.frames.as_slice())
}

/// The bytes at this offset are a whole lexeme.
pub fn marked_at(
    built: &mut Built,
    syms: &Symbols,
    lexeme: Lexeme,
    at: u64,
) -> Result<Progress, TextFault>
    requires built { IsBuilt syms.now built.old }
    requires known { IsKnown (length syms.now.symbols) lexeme }
    requires within { at < 67108864 }
    ensures does { Does syms.now built.new (counted (put (lexeme_at syms.now.symbols lexeme) at (parts_of syms.now.symbols built.old.lexemes.items)) next.Free [] at (state_at syms.now built.old)) result }
    ensures leaves { LeavesOpen built.new.frames.items result }
    ensures at { OnOk result (built.new.at ≡ at + 1) }
{
    let room = room_at(built, syms, at);
    let progress = add(&mut built.frames, &mut built.lexemes, syms, lexeme, at)?;
    built.token.clear();
    count(built, room, Inside::Free, at)?;
    Ok(progress)
}

fn is_open_question(token: &[u8], byte: u8) -> bool
    ensures { result ≡ is_open_question token.now byte }
{
    token.is_empty() && (byte == b'.' || byte == b'#')
}

fn is_hash(token: &[u8]) -> bool
    ensures { result ≡ bytes_eq token.now (35 ∷ []) }
{
    match token {
        [b'#'] => true,
        _ => false,
    }
}

// A byte of a token, outside its bars.
fn letter(built: &mut Built, syms: &Symbols, byte: u8) -> Result<Progress, TextFault>
    requires built { IsBuilt syms.now built.old }
    requires within { built.old.at < 67108864 }
    ensures does { Does syms.now built.new (letter byte (state_at syms.now built.old)) result }
    ensures at { OnOk result (built.new.at ≡ built.old.at + 1) }
{
    let bar = byte == b'|';
    if bar && is_hash(built.token.as_slice()) {
        return go_on_bare(built, syms, Inside::Block(1));
    }
    if is_open_question(built.token.as_slice(), byte) {
        return go_on_with(built, syms, Inside::Free, byte);
    }
    if let Some(dot) = form_dot(built, syms) {
        return Err(fault(TextCause::BadDot, dot));
    }
    let inside = if bar { Inside::Bars } else { Inside::Free };
    go_on_with(built, syms, inside, byte)
}

// A comma begins.
fn comma(built: &mut Built, syms: &Symbols) -> Result<Progress, TextFault>
    requires built { IsBuilt syms.now built.old }
    requires within { built.old.at < 67108864 }
    ensures does { Does syms.now built.new (comma_begun (state_at syms.now built.old)) result }
    ensures at { OnOk result (built.new.at ≡ built.old.at + 1) }
{
    if let Some(dot) = form_dot(built, syms) {
        return Err(fault(TextCause::BadDot, dot));
    }
    if !form_backquote(built, syms) {
        return Err(fault(TextCause::CommaOutside, built.at));
    }
    built.inside = Inside::AfterComma;
    built.token.clear();
    built.at += 1;
    Ok(Progress::Going)
}

// A string begins.
fn begin_string(built: &mut Built, syms: &Symbols) -> Result<Progress, TextFault>
    requires built { IsBuilt syms.now built.old }
    requires within { built.old.at < 67108864 }
    ensures does { Does syms.now built.new (mark 34 (state_at syms.now built.old)) result }
    ensures at { OnOk result (built.new.at ≡ built.old.at + 1) }
{
    if let Some(dot) = form_dot(built, syms) {
        return Err(fault(TextCause::BadDot, dot));
    }
    go_on_bare(built, syms, Inside::String)
}

// A byte before which a token ends, where none has begun.
fn mark(built: &mut Built, syms: &Symbols, byte: u8) -> Result<Progress, TextFault>
    requires built { IsBuilt syms.now built.old }
    requires within { built.old.at < 67108864 }
    ensures does { Does syms.now built.new (mark byte (state_at syms.now built.old)) result }
    ensures at { OnOk result (built.new.at ≡ built.old.at + 1) }
{
    let at = built.at;
    match byte {
        b'(' => marked_at(built, syms, Lexeme::Open, at),
        b')' => marked_at(built, syms, Lexeme::Close, at),
        b'\'' => marked_at(built, syms, Lexeme::Quote, at),
        b'`' => marked_at(built, syms, Lexeme::Backquote, at),
        b',' => comma(built, syms),
        b'"' => begin_string(built, syms),
        b';' => go_on_bare(built, syms, Inside::Line),
        _ => go_on_bare(built, syms, Inside::Free),
    }
}

fn is_blank(byte: u8) -> bool
    ensures { result ≡ is_blank byte }
{
    byte == 9 || byte == 10 || byte == 12 || byte == 13 || byte == 32
}

fn ends_token(byte: u8) -> bool
    ensures { result ≡ ends_token byte }
{
    is_blank(byte)
        || byte == b'('
        || byte == b')'
        || byte == b'"'
        || byte == b';'
        || byte == b'\''
        || byte == b'`'
        || byte == b','
}

/// A byte outside bars, strings and comments.
pub fn free_byte(
    alloc: Global,
    built: &mut Built,
    syms: &mut Symbols,
    current: PkgId,
    byte: u8,
) -> Result<Progress, TextFault>
    requires built { IsBuilt syms.old built.old }
    requires package { current.0 < length syms.old.packages }
    requires within { built.old.at < 67108864 }
    ensures grows { Grows syms.old syms.new }
    ensures does { Does syms.new built.new (free_byte (packages_of syms.old current) byte (state_at syms.old built.old)) result }
    ensures at { IfOk result (IsNear built.old.at built.new.at 1) }
{
    if ends_token(byte) {
        return match end_token(alloc, built, syms, current)? {
            Progress::Ended => Ok(Progress::Ended),
            Progress::Going => mark(built, syms, byte),
        };
    }
    if byte < 33 || 126 < byte {
        return Err(fault(TextCause::BadByte, built.at));
    }
    letter(built, syms, byte)
}
