// Integers.

ghost use Rattle.std.specs.Prelude.{◌≡◌, ℕ, ◌≤◌, length, drop, ℤ};
ghost use Rattle.std.specs.Char.{is_digit};
ghost use Rattle.std.specs.List.{list_all};
ghost use Rattle.std.specs.Str.Parse.{without_leading_sign};
ghost use Rattle.model_text.specs.Token.{is_numeral, signed_of, based_of, integer_of, without_last_dot};
ghost use Rattle.acl_read_tokens.specs.Kinds.{IsNumeral};

/// Whether there is an integer.
pub enum Numeral {
    NotOne,
    /// It needs more than 128 bits.
    TooWide,
    Value(i128),
}

/// The bytes behind a sign, which may be missing.
pub fn unsigned(bytes: &[u8]) -> &[u8]
    ensures { result.now ≡ without_leading_sign bytes.now }
{
    match bytes {
        [b'-', rest @ ..] => rest,
        [b'+', rest @ ..] => rest,
        _ => bytes,
    }
}

/// Whether there is a digit of this base or more, and nothing else.
pub fn is_numeral(base: u32, bytes: &[u8]) -> bool
    requires low { 2 ≤ base }
    requires high { base ≤ 36 }
    ensures { result ≡ is_numeral base bytes.now }
{
    !bytes.is_empty() && are_digits(base, bytes)
}

fn are_digits(base: u32, bytes: &[u8]) -> bool
    requires low { 2 ≤ base }
    requires high { base ≤ 36 }
    ensures { result ≡ list_all (λ b. is_digit b base) bytes.now }
{
    for byte in bytes {
        if !char::from(*byte).is_digit(base) {
            return false;
        }
    }
    true
}

fn signed(base: u32, bytes: &[u8]) -> Numeral
    requires low { 2 ≤ base }
    requires high { base ≤ 36 }
    ensures { IsNumeral (signed_of base bytes.now) result }
{
    if !is_numeral(base, unsigned(bytes)) {
        return Numeral::NotOne;
    }
    match std::str::from_utf8(bytes) {
        Ok(text) => match i128::from_str_radix(text, base) {
            Ok(n) => Numeral::Value(n),
            Err(_) => Numeral::TooWide,
        },
        Err(_) => unreachable!(),
    }
}

fn based(bytes: &[u8]) -> Numeral
    ensures { IsNumeral (based_of bytes.now) result }
{
    match bytes {
        [b'B', rest @ ..] => signed(2, rest),
        [b'O', rest @ ..] => signed(8, rest),
        [b'X', rest @ ..] => signed(16, rest),
        _ => Numeral::NotOne,
    }
}

fn without_dot(bytes: &[u8]) -> &[u8]
    ensures { result.now ≡ without_last_dot bytes.now }
{
    match bytes {
        [rest @ .., b'.'] => rest,
        _ => bytes,
    }
}

/// The integer that a token is, where its letters were raised.
pub fn integer(token: &[u8]) -> Numeral
    ensures { IsNumeral (integer_of token.now) result }
{
    match token {
        [] => Numeral::NotOne,
        [b'#', rest @ ..] => based(rest),
        _ => signed(10, without_dot(token)),
    }
}
