// One byte more.

ghost use Rattle.std.specs.Prelude.{◌≡◌, ◌==◌, ℕ, ◌+◌, ◌<◌, ◌≤◌, length, true, IfOk, IfErr, OnOk, if◌then◌else◌};
ghost use Rattle.model_text.specs.Next.{bars_byte, string_byte, in_block, block_ended, taken, comma_byte, is_after_comma, step};
ghost use Rattle.model_text.specs.Next as next;
ghost use Rattle.model_text.specs.Token.{is_bar};
ghost use Rattle.model_text.specs.declared.TextCause.TheVariants.{InputTooLong};
ghost use Rattle.acl_read_scan.specs.Built.{inside_of, least_at, state_at, IsBuilt, packages_of, Grows};
ghost use Rattle.acl_read_scan.specs.Scanning.{Does, IsNear};

use crate::counting::{count, go_on, go_on_bare, go_on_with, room_at};
use crate::marks::{free_byte, marked_at};
use crate::{Built, Inside, Lexeme, MOST_INPUT, Progress, TextCause, TextFault};
use acl_base::PkgId;
use acl_read_lexemes::add;
use acl_syms::Symbols;
use std::alloc::Global;

// A byte between two bars.
fn bars_byte(built: &mut Built, syms: &Symbols, byte: u8) -> Result<Progress, TextFault>
    requires built { IsBuilt syms.now built.old }
    requires within { built.old.at < 67108864 }
    ensures does { Does syms.now built.new (bars_byte byte (state_at syms.now built.old)) result }
    ensures at { OnOk result (built.new.at ≡ built.old.at + 1) }
{
    let inside = match byte {
        b'|' => Inside::Free,
        b'\\' => Inside::BarsEscape,
        _ => Inside::Bars,
    };
    go_on_with(built, syms, inside, byte)
}

// The string ends.
fn end_string(alloc: Global, built: &mut Built, syms: &Symbols) -> Result<Progress, TextFault>
    requires built { IsBuilt syms.now built.old }
    requires within { built.old.at < 67108864 }
    ensures does { Does syms.now built.new (string_byte 34 (state_at syms.now built.old)) result }
    ensures at { OnOk result (built.new.at ≡ built.old.at + 1) }
{
    let at = built.at;
    let room = room_at(built, syms, at);
    let text = std::mem::replace(&mut built.token, Vec::new(alloc));
    let progress = add(
        &mut built.frames,
        &mut built.lexemes,
        syms,
        Lexeme::Text(text),
        at,
    )?;
    count(built, room, Inside::Free, at)?;
    Ok(progress)
}

// A byte of a string.
fn string_byte(
    alloc: Global,
    built: &mut Built,
    syms: &Symbols,
    byte: u8,
) -> Result<Progress, TextFault>
    requires built { IsBuilt syms.now built.old }
    requires within { built.old.at < 67108864 }
    ensures does { Does syms.now built.new (string_byte byte (state_at syms.now built.old)) result }
    ensures at { OnOk result (built.new.at ≡ built.old.at + 1) }
{
    match byte {
        b'"' => end_string(alloc, built, syms),
        b'\\' => go_on(built, syms, Inside::StringEscape),
        _ => go_on_with(built, syms, Inside::String, byte),
    }
}

// What a byte in so many block comments makes, where the byte before makes nothing of it.
fn in_block(depth: u64, byte: u8) -> Inside
    ensures inside { inside_of result ≡ in_block depth byte }
    ensures depth { least_at result ≡ depth }
{
    match byte {
        b'#' => Inside::BlockHash(depth),
        b'|' => Inside::BlockBar(depth),
        _ => Inside::Block(depth),
    }
}

fn after_hash(depth: u64, byte: u8) -> Inside
    requires { depth < 67108864 }
    ensures inside { inside_of result ≡ (if is_bar byte then next.Block (depth + 1) else in_block depth byte) }
    ensures depth { least_at result ≤ depth + 1 }
{
    match byte {
        b'|' => Inside::Block(depth + 1),
        _ => in_block(depth, byte),
    }
}

fn after_bar(depth: u64, byte: u8) -> Inside
    ensures inside { inside_of result ≡ (if byte == 35 then block_ended depth else in_block depth byte) }
    ensures depth { least_at result ≤ depth }
{
    match byte {
        b'#' => {
            if depth <= 1 {
                Inside::Free
            } else {
                Inside::Block(depth - 1)
            }
        }
        _ => in_block(depth, byte),
    }
}

fn after_line(byte: u8) -> Inside
    ensures inside { inside_of result ≡ (if byte == 10 then next.Free else next.Line) }
    ensures depth { least_at result ≡ 0 }
{
    match byte {
        10 => Inside::Free,
        _ => Inside::Line,
    }
}

// A byte, where no comma waits for it.
fn taken(
    alloc: Global,
    built: &mut Built,
    syms: &mut Symbols,
    current: PkgId,
    byte: u8,
) -> Result<Progress, TextFault>
    requires built { IsBuilt syms.old built.old }
    requires package { current.0 < length syms.old.packages }
    requires within { built.old.at < 67108864 }
    ensures grows { Grows syms.old syms.new }
    ensures does { Does syms.new built.new (taken (packages_of syms.old current) byte (state_at syms.old built.old)) result }
    ensures at { IfOk result (IsNear built.old.at built.new.at 1) }
{
    match built.inside {
        Inside::Free => free_byte(alloc, built, syms, current, byte),
        Inside::Bars => bars_byte(built, syms, byte),
        Inside::BarsEscape => go_on_with(built, syms, Inside::Bars, byte),
        Inside::String => string_byte(alloc, built, syms, byte),
        Inside::StringEscape => go_on_with(built, syms, Inside::String, byte),
        Inside::Line => go_on_bare(built, syms, after_line(byte)),
        Inside::Block(depth) => go_on_bare(built, syms, in_block(depth, byte)),
        Inside::BlockHash(depth) => go_on_bare(built, syms, after_hash(depth, byte)),
        Inside::BlockBar(depth) => go_on_bare(built, syms, after_bar(depth, byte)),
        Inside::AfterComma => go_on_bare(built, syms, Inside::Free),
    }
}

fn within_input(at: u64) -> Result<(), TextFault>
    ensures ok { OnOk result (at < 67108864) }
    ensures fault { IfErr result (λ e. (e.cause ≡ InputTooLong) × (e.offset ≡ at) × (67108864 ≤ at)) }
{
    if at >= MOST_INPUT {
        return Err(TextFault {
            cause: TextCause::InputTooLong,
            offset: at,
        });
    }
    Ok(())
}

// The byte behind a comma.
fn comma_byte(
    alloc: Global,
    built: &mut Built,
    syms: &mut Symbols,
    current: PkgId,
    byte: u8,
) -> Result<Progress, TextFault>
    requires built { IsBuilt syms.old built.old }
    requires package { current.0 < length syms.old.packages }
    requires some { 1 ≤ built.old.at }
    ensures grows { Grows syms.old syms.new }
    ensures does { Does syms.new built.new (comma_byte (packages_of syms.old current) byte (state_at syms.old built.old)) result }
    ensures at { IfOk result (IsNear built.old.at built.new.at 1) }
{
    let at = built.at.saturating_sub(1);
    let splices = byte == b'@';
    let lexeme = if splices {
        Lexeme::CommaAt
    } else {
        Lexeme::Comma
    };
    match marked_at(built, syms, lexeme, at)? {
        Progress::Ended => Ok(Progress::Ended),
        Progress::Going => {
            within_input(built.at)?;
            if splices {
                go_on_bare(built, syms, Inside::Free)
            } else {
                taken(alloc, built, syms, current, byte)
            }
        }
    }
}

fn is_after_comma(inside: Inside) -> bool
    ensures is { result ≡ is_after_comma (inside_of inside) }
    ensures at { result ≡ true → least_at inside ≡ 1 }
{
    match inside {
        Inside::AfterComma => true,
        _ => false,
    }
}

/// One byte more.
#[tactic(auto, unfolding(model_text::specs::Next::step))]
pub fn step(
    alloc: Global,
    built: &mut Built,
    syms: &mut Symbols,
    current: PkgId,
    byte: u8,
) -> Result<Progress, TextFault>
    requires built { IsBuilt syms.old built.old }
    requires package { current.0 < length syms.old.packages }
    ensures grows { Grows syms.old syms.new }
    ensures does { Does syms.new built.new (step (packages_of syms.old current) (state_at syms.old built.old) byte) result }
    ensures at { IfOk result (IsNear built.old.at built.new.at 1) }
{
    if is_after_comma(built.inside) {
        return comma_byte(alloc, built, syms, current, byte);
    }
    within_input(built.at)?;
    taken(alloc, built, syms, current, byte)
}
