// Lexemes, one after the other.

ghost use Rattle.std.specs.Prelude.{◌≡◌, ℕ, length};
ghost use Rattle.model_text.specs.Parts.{put};
ghost use Rattle.acl_read_lexemes.specs.Lexemes.{lexeme_at, parts_of, IsKnown};
ghost use Rattle.acl_read_lexemes.specs.Opening.{IsOpen, Puts, LeavesOpen};

use crate::frames::put_frame;
use crate::{Frame, Lexeme, Placed, Progress};
use acl_syms::Symbols;
use model_text::TextFault;

/// One lexeme more, which begins at this offset.
pub fn add(
    frames: &mut Vec<Frame>,
    lexemes: &mut Vec<Placed>,
    syms: &Symbols,
    lexeme: Lexeme,
    at: u64,
) -> Result<Progress, TextFault>
    requires open { IsOpen syms.now.symbols frames.old.items lexemes.old.items }
    requires known { IsKnown (length syms.now.symbols) lexeme }
    ensures puts { Puts syms.now.symbols frames.new.items lexemes.new.items (put (lexeme_at syms.now.symbols lexeme) at (parts_of syms.now.symbols lexemes.old.items)) result }
    ensures leaves { LeavesOpen frames.new.items result }
{
    let _ = syms;
    match put_frame(frames, &lexeme, at) {
        Ok(progress) => {
            lexemes.push(Placed { lexeme, at })?;
            Ok(progress)
        }
        Err(fault) => Err(fault),
    }
}
