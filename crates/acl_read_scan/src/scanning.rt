// All bytes that have come.

ghost use Rattle.std.specs.Prelude.{◌≡◌, ℕ, ◌+◌, ◌<◌, length, true, IsTrue, IfOk, IfErr, OnOk};
ghost use Rattle.model_text.specs.Next.{Goes, run, at_end, may_end, End, Faulty};
ghost use Rattle.acl_read_lexemes.specs.Opening.{IsFault};
ghost use Rattle.acl_read_scan.specs.Built.{inside_of, state_at, IsBuilt, packages_of, Grows};
ghost use Rattle.acl_read_scan.specs.Scanning.{Does, IsNear, Advances};

use crate::bytes::step;
use crate::marks::marked_at;
use crate::tokens::end_token;
use crate::{Built, Inside, Lexeme, Progress, TextCause, TextFault};
use acl_base::PkgId;
use acl_syms::Symbols;
use std::alloc::Global;

// More bytes, up to the end of a form.
fn scan(
    alloc: Global,
    bytes: &[u8],
    built: &mut Built,
    syms: &mut Symbols,
    current: PkgId,
) -> Result<Progress, TextFault>
    requires built { IsBuilt syms.old built.old }
    requires package { current.0 < length syms.old.packages }
    ensures grows { Grows syms.old syms.new }
    ensures does { Does syms.new built.new (run (packages_of syms.old current) (state_at syms.old built.old) bytes.now) result }
    ensures at { IfOk result (IsNear built.old.at built.new.at (length bytes.now)) }
{
    for byte in bytes {
        match step(alloc, built, syms, current, *byte)? {
            Progress::Ended => return Ok(Progress::Ended),
            Progress::Going => {}
        }
    }
    Ok(Progress::Going)
}

fn unfinished(built: &Built) -> TextFault
    ensures cause { result.cause ≡ TextCause.Unfinished }
    ensures offset { result.offset ≡ built.now.first }
{
    TextFault {
        cause: TextCause::Unfinished,
        offset: built.first,
    }
}

// The input ends where a form may end.
#[tactic(auto, using(crate::proofs::BuiltLemmas::open_count))]
fn end_free(built: &Built, syms: &Symbols) -> Result<(), TextFault>
    requires built { IsBuilt syms.now built.now }
    requires may_end { IsTrue (may_end (inside_of built.now.inside)) }
    ensures ok { OnOk result (at_end (state_at syms.now built.now) ≡ End) }
    ensures fault { IfErr result (IsFault (at_end (state_at syms.now built.now)) Faulty) }
{
    let _ = syms;
    if built.frames.is_empty() {
        Ok(())
    } else {
        Err(unfinished(built))
    }
}

// The input ends, and with it the token.
#[tactic(auto, using(crate::proofs::EndLemmas::unfinished_parts))]
fn conclude_free(
    alloc: Global,
    built: &mut Built,
    syms: &mut Symbols,
    current: PkgId,
) -> Result<Progress, TextFault>
    requires built { IsBuilt syms.old built.old }
    requires package { current.0 < length syms.old.packages }
    requires free { built.old.inside ≡ Inside.Free }
    ensures grows { Grows syms.old syms.new }
    ensures advances { Advances (packages_of syms.old current) syms.new (Goes (state_at syms.old built.old)) true built.new result }
    ensures at { OnOk result (built.new.at ≡ built.old.at) }
{
    if built.token.is_empty() {
        end_free(built, syms)?;
        return Ok(Progress::Going);
    }
    match end_token(alloc, built, syms, current)? {
        Progress::Ended => Ok(Progress::Ended),
        Progress::Going => Err(unfinished(built)),
    }
}

// The input ends, and with it the question what a comma is.
#[tactic(auto, using(crate::proofs::EndLemmas::unfinished_parts))]
fn conclude_comma(built: &mut Built, syms: &Symbols, current: PkgId) -> Result<Progress, TextFault>
    requires built { IsBuilt syms.now built.old }
    requires comma { built.old.inside ≡ Inside.AfterComma }
    ensures advances { Advances (packages_of syms.now current) syms.now (Goes (state_at syms.now built.old)) true built.new result }
    ensures at { OnOk result (built.new.at ≡ built.old.at) }
{
    let _ = current;
    let at = built.at.saturating_sub(1);
    match marked_at(built, syms, Lexeme::Comma, at)? {
        Progress::Ended => Ok(Progress::Ended),
        Progress::Going => Err(unfinished(built)),
    }
}

// The input ends.
fn conclude(
    alloc: Global,
    built: &mut Built,
    syms: &mut Symbols,
    current: PkgId,
) -> Result<Progress, TextFault>
    requires built { IsBuilt syms.old built.old }
    requires package { current.0 < length syms.old.packages }
    ensures grows { Grows syms.old syms.new }
    ensures advances { Advances (packages_of syms.old current) syms.new (Goes (state_at syms.old built.old)) true built.new result }
    ensures at { OnOk result (built.new.at ≡ built.old.at) }
{
    match built.inside {
        Inside::Free => conclude_free(alloc, built, syms, current),
        Inside::AfterComma => conclude_comma(built, syms, current),
        Inside::Line => {
            end_free(built, syms)?;
            Ok(Progress::Going)
        }
        Inside::Bars
        | Inside::BarsEscape
        | Inside::String
        | Inside::StringEscape
        | Inside::Block(_)
        | Inside::BlockHash(_)
        | Inside::BlockBar(_) => Err(unfinished(built)),
    }
}

/// More bytes, up to the end of a form, and the end of the input where it has ended.
pub fn advance(
    alloc: Global,
    bytes: &[u8],
    ended: bool,
    built: &mut Built,
    syms: &mut Symbols,
    current: PkgId,
) -> Result<Progress, TextFault>
    requires built { IsBuilt syms.old built.old }
    requires package { current.0 < length syms.old.packages }
    ensures grows { Grows syms.old syms.new }
    ensures advances { Advances (packages_of syms.old current) syms.new (run (packages_of syms.old current) (state_at syms.old built.old) bytes.now) ended built.new result }
    ensures at { IfOk result (IsNear built.old.at built.new.at (length bytes.now)) }
{
    match scan(alloc, bytes, built, syms, current)? {
        Progress::Ended => Ok(Progress::Ended),
        Progress::Going => {
            if ended {
                conclude(alloc, built, syms, current)
            } else {
                Ok(Progress::Going)
            }
        }
    }
}
