// Tokens that are like numbers, and are not taken.

ghost use Rattle.std.specs.Prelude.{◌≡◌, ℕ};
ghost use Rattle.model_text.specs.Token.{begins_with_digit, after_digits, is_denominator, is_ratio, is_exponent, ends_float, is_float, are_dots};

use crate::numerals::{is_numeral, unsigned};

fn begins_with_digit(bytes: &[u8]) -> bool
    ensures { result ≡ begins_with_digit bytes.now }
{
    match bytes {
        [b, ..] => b.is_ascii_digit(),
        [] => false,
    }
}

// What stands behind the digits at the beginning.
fn after_digits(bytes: &[u8]) -> &[u8]
    ensures { result.now ≡ after_digits bytes.now }
{
    for (i, b) in bytes.iter().enumerate() {
        if !b.is_ascii_digit() {
            return &bytes[i..];
        }
    }
    &[]
}

fn is_denominator(bytes: &[u8]) -> bool
    ensures { result ≡ is_denominator bytes.now }
{
    match bytes {
        [b'/', rest @ ..] => is_numeral(10, rest),
        _ => false,
    }
}

/// Whether the token is a ratio.
pub fn is_ratio(token: &[u8]) -> bool
    ensures { result ≡ is_ratio token.now }
{
    let digits = unsigned(token);
    begins_with_digit(digits) && is_denominator(after_digits(digits))
}

fn is_exponent(bytes: &[u8]) -> bool
    ensures { result ≡ is_exponent bytes.now }
{
    match bytes {
        [b'E' | b'S' | b'F' | b'D' | b'L', rest @ ..] => is_numeral(10, unsigned(rest)),
        _ => false,
    }
}

// Whether this makes a float behind the digits before its dot, where there are such digits or not.
fn ends_float(whole: bool, bytes: &[u8]) -> bool
    ensures { result ≡ ends_float whole bytes.now }
{
    match bytes {
        [] => false,
        [b'.', rest @ ..] => {
            let digits = begins_with_digit(rest);
            let end = after_digits(rest);
            (digits && end.is_empty()) || ((whole || digits) && is_exponent(end))
        }
        _ => whole && is_exponent(bytes),
    }
}

/// Whether the token is a float.
pub fn is_float(token: &[u8]) -> bool
    ensures { result ≡ is_float token.now }
{
    let digits = unsigned(token);
    ends_float(begins_with_digit(digits), after_digits(digits))
}

/// Whether the token is nothing but dots.
pub fn are_dots(token: &[u8]) -> bool
    ensures { result ≡ are_dots token.now }
{
    token.iter().all(|b| *b == b'.')
}
