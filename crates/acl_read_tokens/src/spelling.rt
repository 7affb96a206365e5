// How a symbol is written.

ghost use Rattle.std.specs.Prelude.{◌≡◌, ℕ, ◌<◌, ◌≤◌, ◌∷◌, length, take, drop, IfOk, if◌then◌else◌};
ghost use Rattle.std.specs.List.{list_any};
ghost use Rattle.model_text.specs.Token.{is_part, Within, Wrongly, name_of, is_raised, before_colon, from_colon, behind_colon, begins_with_hash, written, letters};
ghost use Rattle.model_text.specs.Token as token;
ghost use Rattle.model_symbols.specs.Opening.{keyword};
ghost use Rattle.acl_read_tokens.specs.Kinds.{letter_of, letters_of, reading, written_reading};

use crate::Kind;
use crate::letters::{Letter, letters_in, name_in};
use model_text::TextCause;
use std::alloc::{AllocError, Global};

fn is_raised(letter: Letter, byte: u8) -> bool
    ensures { result ≡ is_raised byte (letter_of letter) }
{
    match letter {
        Letter::Raised(b) => b == byte,
        Letter::Kept(_) => false,
        Letter::Bar => false,
    }
}

fn has_raised(letters: &[Letter], byte: u8) -> bool
    ensures { result ≡ list_any (is_raised byte) (letters_of letters.now) }
{
    for letter in letters {
        if is_raised(*letter, byte) {
            return true;
        }
    }
    false
}

fn is_part(letters: &[Letter]) -> bool
    ensures { result ≡ is_part (letters_of letters.now) }
{
    !letters.is_empty() && !has_raised(letters, b':')
}

fn begins_with_hash(letters: &[Letter]) -> bool
    ensures { result ≡ begins_with_hash (letters_of letters.now) }
{
    match letters {
        [letter, ..] => is_raised(*letter, b'#'),
        [] => false,
    }
}

// Where the first colon stands, or the end.
fn colon_at(letters: &[Letter]) -> usize
    ensures before { before_colon (letters_of letters.now) ≡ letters_of (take result letters.now) }
    ensures from { from_colon (letters_of letters.now) ≡ letters_of (drop result letters.now) }
    ensures within { result ≤ length letters.now }
{
    for (i, letter) in letters.iter().enumerate() {
        if is_raised(*letter, b':') {
            return i;
        }
    }
    letters.len()
}

/// The symbol that the bytes of a token name.
pub fn symbol(alloc: Global, text: &[u8]) -> Result<Kind, AllocError>
    ensures { IfOk result (λ kind. reading kind ≡ written_reading (written (letters token.Outside text.now))) }
{
    let letters = letters_in(alloc, text)?;
    let kind = written_kind(alloc, letters.as_slice())?;
    Ok(kind)
}

// How letters write a symbol.
fn written_kind(alloc: Global, letters: &[Letter]) -> Result<Kind, AllocError>
    ensures { IfOk result (λ kind. reading kind ≡ written_reading (written (letters_of letters.now))) }
{
    if begins_with_hash(letters) || has_raised(letters, b'\\') {
        return Ok(Kind::Wrong(TextCause::BadToken));
    }
    let at = colon_at(letters);
    let kind = parts_kind(alloc, &letters[..at], &letters[at..])?;
    Ok(kind)
}

// How a symbol is written, by what stands before its first colon and from there on.
fn parts_kind(alloc: Global, before: &[Letter], from: &[Letter]) -> Result<Kind, AllocError>
    ensures { IfOk result (λ kind. reading kind ≡ written_reading (behind_colon (letters_of before.now) (letters_of from.now))) }
{
    match from {
        [] => {
            let name = name_in(alloc, before)?;
            Ok(Kind::Plain(name))
        }
        [_, rest @ ..] => {
            if before.is_empty() {
                let kind = keyword_kind(alloc, rest)?;
                return Ok(kind);
            }
            let kind = qualified_kind(alloc, before, rest)?;
            Ok(kind)
        }
    }
}

// What stands behind a colon that comes first.
fn keyword_kind(alloc: Global, letters: &[Letter]) -> Result<Kind, AllocError>
    ensures { IfOk result (λ kind. reading kind ≡ written_reading (if is_part (letters_of letters.now) then Within keyword (name_of (letters_of letters.now)) else Wrongly)) }
{
    if !is_part(letters) {
        return Ok(Kind::Wrong(TextCause::BadToken));
    }
    let home = Vec::from_slice(alloc, b"KEYWORD")?;
    let name = name_in(alloc, letters)?;
    Ok(Kind::Qualified(home, name))
}

// What stands before a colon, and behind it.
fn qualified_kind(alloc: Global, before: &[Letter], behind: &[Letter]) -> Result<Kind, AllocError>
    requires { 0 < length before.now }
    ensures { IfOk result (λ kind. (l : token.Letter) → reading kind ≡ written_reading (behind_colon (letters_of before.now) (l ∷ letters_of behind.now))) }
{
    match behind {
        [] => Ok(Kind::Wrong(TextCause::BadToken)),
        [letter, rest @ ..] => {
            if !is_raised(*letter, b':') || !is_part(rest) {
                return Ok(Kind::Wrong(TextCause::BadToken));
            }
            let home = name_in(alloc, before)?;
            let name = name_in(alloc, rest)?;
            Ok(Kind::Qualified(home, name))
        }
    }
}
