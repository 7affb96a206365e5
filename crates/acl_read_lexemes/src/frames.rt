// The parts that are open, the innermost last.

ghost use Rattle.std.specs.Prelude.{◌≡◌, ℕ, List, ◌+◌, ◌≤◌, ◌<◌, ◌∷◌, [], length, IfErr, MatchOption, OnOk};
ghost use Rattle.model_text.specs.declared.TextCause.TheVariants.{Memory};
ghost use Rattle.acl_read_lexemes.specs.Frames.{inmost_first, in_backquote, takes_element, full_dot, delivered, opened, closed, dotted, backquoted, unquoted, spliced, frame_put, IsOpening};
ghost use Rattle.acl_read_lexemes.specs.Opening.{PutsFrames, LeavesOpen};

use crate::{Frame, Lexeme, Progress};
use model_text::{TextCause, TextFault};

const MOST_PARTS: usize = 200;

#[tactic(auto, using(crate::proofs::FrameLemmas::pushed))]
fn pop(frames: &mut Vec<Frame>) -> Option<Frame>
    ensures popped { MatchOption result (inmost_first frames.old.items ≡ []) (λ f. inmost_first frames.old.items ≡ f ∷ inmost_first frames.new.items) }
    ensures fewer { MatchOption result (frames.old.items ≡ []) (λ f. length frames.new.items < length frames.old.items) }
{
    match frames.pop() {
        None => None,
        Some(frame) => Some(frame),
    }
}

#[tactic(auto, using(crate::proofs::FrameLemmas::pushed))]
fn push(frames: &mut Vec<Frame>, frame: Frame) -> Result<(), TextFault>
    ensures ok { OnOk result (inmost_first frames.new.items ≡ frame ∷ inmost_first frames.old.items) }
    ensures some { OnOk result (0 < length frames.new.items) }
    ensures fault { IfErr result (λ e. e.cause ≡ Memory) }
{
    frames.push(frame)?;
    Ok(())
}

fn fault(cause: TextCause, offset: u64) -> TextFault
    ensures cause { result.cause ≡ cause }
    ensures offset { result.offset ≡ offset }
{
    TextFault { cause, offset }
}

// A form goes where it belongs.
fn deliver(frames: &mut Vec<Frame>) -> Result<Progress, TextFault>
    ensures puts { PutsFrames frames.new.items (delivered (inmost_first frames.old.items)) result }
    ensures leaves { LeavesOpen frames.new.items result }
{
    while let Some(frame) = pop(frames) {
        match frame {
            Frame::Quoted | Frame::Backquoted | Frame::Unquoted | Frame::Splicing => {}
            Frame::Empty | Frame::Holding => {
                push(frames, Frame::Holding)?;
                return Ok(Progress::Going);
            }
            Frame::Dotted(dot) => {
                push(frames, Frame::Ended(dot))?;
                return Ok(Progress::Going);
            }
            Frame::Ended(dot) => return Err(fault(TextCause::BadDot, dot)),
        }
    }
    Ok(Progress::Ended)
}

// A dot, which stands at this offset.
fn put_dot(frames: &mut Vec<Frame>, at: u64) -> Result<Progress, TextFault>
    ensures puts { PutsFrames frames.new.items (dotted at (inmost_first frames.old.items)) result }
    ensures leaves { LeavesOpen frames.new.items result }
{
    match pop(frames) {
        Some(Frame::Holding) => {
            push(frames, Frame::Dotted(at))?;
            Ok(Progress::Going)
        }
        _ => Err(fault(TextCause::BadDot, at)),
    }
}

// A bracket closes a list.
fn close(frames: &mut Vec<Frame>, at: u64) -> Result<Progress, TextFault>
    ensures puts { PutsFrames frames.new.items (closed at (inmost_first frames.old.items)) result }
    ensures leaves { LeavesOpen frames.new.items result }
{
    match pop(frames) {
        Some(Frame::Empty | Frame::Holding | Frame::Ended(_)) => deliver(frames),
        Some(Frame::Dotted(dot)) => Err(fault(TextCause::BadDot, dot)),
        Some(Frame::Quoted | Frame::Backquoted | Frame::Unquoted | Frame::Splicing) => {
            Err(fault(TextCause::StrayClose, at))
        }
        None => Err(fault(TextCause::StrayClose, at)),
    }
}

/// Where the dot of the innermost list stands, if a form stands behind it already.
pub fn full_dot(frames: &[Frame]) -> Option<u64>
    ensures { result ≡ full_dot (inmost_first frames.now) }
{
    match frames {
        [.., Frame::Ended(dot)] => Some(*dot),
        _ => None,
    }
}

/// Whether the nearest backquote or comma around is a backquote.
#[tactic(auto, using(crate::proofs::FrameLemmas::taken))]
pub fn in_backquote(frames: &[Frame]) -> bool
    ensures { result ≡ in_backquote (inmost_first frames.now) }
{
    let mut count = frames.len();
    while count > 0 {
        count -= 1;
        match frames[count] {
            Frame::Backquoted => return true,
            Frame::Unquoted | Frame::Splicing => return false,
            _ => {}
        }
    }
    false
}

fn takes_element(frames: &[Frame]) -> bool
    ensures { result ≡ takes_element (inmost_first frames.now) }
{
    match frames {
        [.., Frame::Empty | Frame::Holding] => true,
        _ => false,
    }
}

// A part opens.
fn open(frames: &mut Vec<Frame>, frame: Frame, at: u64) -> Result<Progress, TextFault>
    ensures puts { PutsFrames frames.new.items (opened frame at (inmost_first frames.old.items)) result }
    ensures leaves { LeavesOpen frames.new.items result }
{
    if frames.len() >= MOST_PARTS {
        return Err(fault(TextCause::TooDeep, at));
    }
    push(frames, frame)?;
    Ok(Progress::Going)
}

fn put_backquote(frames: &mut Vec<Frame>, at: u64) -> Result<Progress, TextFault>
    ensures puts { PutsFrames frames.new.items (backquoted at (inmost_first frames.old.items)) result }
    ensures leaves { LeavesOpen frames.new.items result }
{
    if in_backquote(frames) {
        return Err(fault(TextCause::BadToken, at));
    }
    open(frames, Frame::Backquoted, at)
}

fn put_comma(frames: &mut Vec<Frame>, at: u64) -> Result<Progress, TextFault>
    ensures puts { PutsFrames frames.new.items (unquoted at (inmost_first frames.old.items)) result }
    ensures leaves { LeavesOpen frames.new.items result }
{
    if !in_backquote(frames) {
        return Err(fault(TextCause::CommaOutside, at));
    }
    open(frames, Frame::Unquoted, at)
}

fn put_comma_at(frames: &mut Vec<Frame>, at: u64) -> Result<Progress, TextFault>
    ensures puts { PutsFrames frames.new.items (spliced at (inmost_first frames.old.items)) result }
    ensures leaves { LeavesOpen frames.new.items result }
{
    if !in_backquote(frames) || !takes_element(frames) {
        return Err(fault(TextCause::CommaOutside, at));
    }
    open(frames, Frame::Splicing, at)
}

// A lexeme that begins a part.
fn begin(frames: &mut Vec<Frame>, lexeme: &Lexeme, at: u64) -> Result<Progress, TextFault>
    requires { IsOpening lexeme.now }
    ensures puts { PutsFrames frames.new.items (frame_put lexeme.now at (inmost_first frames.old.items)) result }
    ensures leaves { LeavesOpen frames.new.items result }
{
    if let Some(dot) = full_dot(frames) {
        return Err(fault(TextCause::BadDot, dot));
    }
    match lexeme {
        Lexeme::Open => open(frames, Frame::Empty, at),
        Lexeme::Quote => open(frames, Frame::Quoted, at),
        Lexeme::Backquote => put_backquote(frames, at),
        Lexeme::Comma => put_comma(frames, at),
        Lexeme::CommaAt => put_comma_at(frames, at),
        _ => unreachable!(),
    }
}

/// A lexeme, which begins at this offset.
pub fn put_frame(frames: &mut Vec<Frame>, lexeme: &Lexeme, at: u64) -> Result<Progress, TextFault>
    ensures puts { PutsFrames frames.new.items (frame_put lexeme.now at (inmost_first frames.old.items)) result }
    ensures leaves { LeavesOpen frames.new.items result }
{
    match lexeme {
        Lexeme::Number(_) => deliver(frames),
        Lexeme::Name(_) => deliver(frames),
        Lexeme::Text(_) => deliver(frames),
        Lexeme::Close => close(frames, at),
        Lexeme::Dot => put_dot(frames, at),
        _ => begin(frames, lexeme, at),
    }
}
