// The letters of a token.

ghost use Rattle.std.specs.Prelude.{◌≡◌, ℕ, List, ◌++◌, ◌∷◌, IfOk, OnOk};
ghost use Rattle.model_text.specs.Token.{letters, name_of};
ghost use Rattle.model_text.specs.Token as token;
ghost use Rattle.acl_read_tokens.specs.Kinds.{letter_of, letters_of, place_of};

use std::alloc::{AllocError, AllocFailed, Global};

/// A letter outside bars, which was raised, a letter between two bars, or the first of two bars.
#[derive(Clone, Copy)]
pub enum Letter {
    Raised(u8),
    Kept(u8),
    Bar,
}

/// Outside bars, between two bars, or behind a backslash there.
#[derive(Clone, Copy)]
enum Place {
    Outside,
    Between,
    Escaped,
}

// Reads a byte at a place.
fn read(out: &mut Vec<Letter>, place: Place, byte: u8) -> Result<Place, AllocFailed<Letter>>
    ensures { IfOk result (λ next. (bytes : List ℕ) → letters_of out.new.items ++ letters (place_of next) bytes ≡ letters_of out.old.items ++ letters (place_of place) (byte ∷ bytes)) }
{
    match place {
        Place::Outside => {
            if byte == b'|' {
                out.push(Letter::Bar)?;
                return Ok(Place::Between);
            }
            out.push(Letter::Raised(byte.to_ascii_uppercase()))?;
            Ok(Place::Outside)
        }
        Place::Between => {
            if byte == b'|' {
                return Ok(Place::Outside);
            }
            if byte == b'\\' {
                return Ok(Place::Escaped);
            }
            out.push(Letter::Kept(byte))?;
            Ok(Place::Between)
        }
        Place::Escaped => {
            out.push(Letter::Kept(byte))?;
            Ok(Place::Between)
        }
    }
}

/// The letters of a token.
pub fn letters_in(alloc: Global, text: &[u8]) -> Result<Vec<Letter>, AllocError>
    ensures { IfOk result (λ v. letters_of v.items ≡ letters token.Outside text.now) }
{
    let mut letters = Vec::new(alloc);
    let mut place = Place::Outside;
    for byte in text {
        match read(&mut letters, place, *byte) {
            Ok(next) => place = next,
            Err(_) => return Err(AllocError),
        }
    }
    Ok(letters)
}

// The letter's byte, if it has one, stands behind the bytes.
fn put(out: &mut Vec<u8>, letter: Letter) -> Result<(), AllocFailed<u8>>
    ensures { OnOk result ((ls : List token.Letter) → out.new.items ++ name_of ls ≡ out.old.items ++ name_of (letter_of letter ∷ ls)) }
{
    match letter {
        Letter::Raised(b) => {
            out.push(b)?;
            Ok(())
        }
        Letter::Kept(b) => {
            out.push(b)?;
            Ok(())
        }
        Letter::Bar => Ok(()),
    }
}

/// The bytes of a name.
pub fn name_in(alloc: Global, letters: &[Letter]) -> Result<Vec<u8>, AllocError>
    ensures { IfOk result (λ v. v.items ≡ name_of (letters_of letters.now)) }
{
    let mut bytes = Vec::new(alloc);
    for letter in letters {
        match put(&mut bytes, *letter) {
            Ok(()) => {}
            Err(_) => return Err(AllocError),
        }
    }
    Ok(bytes)
}
