//! What the bytes of a token are: the dot of a pair, an integer, a symbol, or wrong.
#![tactic(auto)]

ghost use Rattle.std.specs.Prelude.{◌≡◌, ℕ, List, [], ◌∷◌, map, IfOk};
ghost use Rattle.std.specs.Str.{bytes_eq};
ghost use Rattle.std.specs.Char.{to_ascii_uppercase};
ghost use Rattle.std.specs.List.{list_any};
ghost use Rattle.model_text.specs.Token.{Packages, is_bar, token_of, integer_of};
ghost use Rattle.acl_read_tokens.specs.Kinds.{reading_of, reading, other_reading, bare_reading, token_in};

mod letters;
mod likeness;
mod numerals;
mod ratios;
mod spelling;

pub use likeness::is_like_number;
use model_text::TextCause;
use numerals::{Numeral, integer};
use ratios::{are_dots, is_float, is_ratio};
use spelling::symbol;
use std::alloc::{AllocError, Global};

/// What a token is.
#[derive(Drop)]
pub enum Kind {
    Dot,
    Number(i128),
    /// The name of a symbol.
    Plain(Vec<u8>),
    /// The name of a package, and of a symbol.
    Qualified(Vec<u8>, Vec<u8>),
    Wrong(TextCause),
}

/// What a token is.
#[tactic(auto, unfolding(crate::specs::Kinds::reading_of))]
pub fn kind_of(alloc: Global, token: &[u8]) -> Result<Kind, AllocError>
    ensures { IfOk result (λ kind. reading kind ≡ reading_of token.now) }
{
    if has_bar(token) {
        let kind = symbol(alloc, token)?;
        return Ok(kind);
    }
    let raised = raised(alloc, token)?;
    let kind = bare_kind(alloc, raised.as_slice())?;
    Ok(kind)
}

/// What a token is does not depend on the packages that are known: they only say which symbol its names stand for.
pub fn token_by_reading()
    ensures { (packages : Packages) (bytes : List ℕ) → token_of packages bytes ≡ token_in packages (reading_of bytes) }
{}

fn has_bar(token: &[u8]) -> bool
    ensures { result ≡ list_any is_bar token.now }
{
    token.iter().any(|b| *b == b'|')
}

fn raised(alloc: Global, token: &[u8]) -> Result<Vec<u8>, AllocError>
    ensures { IfOk result (λ v. v.items ≡ map to_ascii_uppercase token.now) }
{
    token.iter().map(|b| b.to_ascii_uppercase()).collect(alloc)
}

// A token without bars, whose letters were raised.
fn bare_kind(alloc: Global, token: &[u8]) -> Result<Kind, AllocError>
    ensures { IfOk result (λ kind. reading kind ≡ bare_reading token.now (integer_of token.now)) }
{
    match integer(token) {
        Numeral::Value(n) => Ok(Kind::Number(n)),
        Numeral::TooWide => Ok(Kind::Wrong(TextCause::IntegerTooWide)),
        Numeral::NotOne => {
            let kind = other_kind(alloc, token)?;
            Ok(kind)
        }
    }
}

fn is_dot(token: &[u8]) -> bool
    ensures { result ≡ bytes_eq token.now (46 ∷ []) }
{
    match token {
        [b'.'] => true,
        _ => false,
    }
}

// A token that is no integer.
fn other_kind(alloc: Global, token: &[u8]) -> Result<Kind, AllocError>
    ensures { IfOk result (λ kind. reading kind ≡ other_reading token.now) }
{
    if is_dot(token) {
        return Ok(Kind::Dot);
    }
    if is_ratio(token) || is_float(token) || are_dots(token) {
        return Ok(Kind::Wrong(TextCause::BadToken));
    }
    let kind = symbol(alloc, token)?;
    Ok(kind)
}
