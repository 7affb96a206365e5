// Names that are like numbers.

ghost use Rattle.std.specs.Prelude.{◌≡◌, is_some};
ghost use Rattle.model_text.specs.Token.{integer_of};
ghost use Rattle.model_text.specs.Text.{is_like_number};

use crate::numerals::{Numeral, integer};
use crate::ratios::{are_dots, is_float, is_ratio};

fn is_integer(name: &[u8]) -> bool
    ensures { result ≡ is_some (integer_of name.now) }
{
    match integer(name) {
        Numeral::NotOne => false,
        Numeral::TooWide => true,
        Numeral::Value(_) => true,
    }
}

/// Whether the name, as a token, would be a number, a ratio, a float or dots.
pub fn is_like_number(name: &[u8]) -> bool
    ensures { result ≡ is_like_number name.now }
{
    is_integer(name) || is_ratio(name) || is_float(name) || are_dots(name)
}
