//! Names and strings: plainly, or between marks with backslashes.

ghost use Rattle.std.specs.Prelude.{◌≡◌, [], ◌∷◌, ◌++◌, OnOk};
ghost use Rattle.std.specs.List.{list_all};
ghost use Rattle.model_text.specs.Text.{is_plain_byte, is_plain, escaped, name_text};

use acl_read_tokens::is_like_number;
use std::alloc::AllocError;

fn is_plain_byte(byte: u8) -> bool
    ensures { result ≡ is_plain_byte byte }
{
    byte.is_ascii_uppercase() || (byte.is_ascii_digit() || b"!$%&*+-./<=>?@[]^_{}~".contains(&byte))
}

fn are_plain_bytes(bytes: &[u8]) -> bool
    ensures { result ≡ list_all is_plain_byte bytes.now }
{
    bytes.iter().all(|byte| is_plain_byte(*byte))
}

/// Whether a name is printed without bars.
fn is_plain(name: &[u8]) -> bool
    ensures { result ≡ is_plain name.now }
{
    !name.is_empty() && (are_plain_bytes(name) && !is_like_number(name))
}

/// Puts the bytes, with a backslash before each one that is `end` or a backslash.
fn put_escaped(out: &mut Vec<u8>, end: u8, bytes: &[u8]) -> Result<(), AllocError>
    ensures { OnOk result (out.new.items ≡ out.old.items ++ escaped end bytes.now) }
{
    for byte in bytes {
        if *byte == end || *byte == b'\\' {
            out.push(b'\\')?;
        }
        out.push(*byte)?;
    }
    Ok(())
}

/// Puts the bytes between two marks.
pub fn put_between(out: &mut Vec<u8>, mark: u8, bytes: &[u8]) -> Result<(), AllocError>
    ensures { OnOk result (out.new.items ≡ out.old.items ++ (mark ∷ (escaped mark bytes.now ++ mark ∷ []))) }
{
    out.push(mark)?;
    put_escaped(out, mark, bytes)?;
    out.push(mark)?;
    Ok(())
}

/// Puts a name, or the name of a package.
pub fn put_name(out: &mut Vec<u8>, name: &[u8]) -> Result<(), AllocError>
    ensures { OnOk result (out.new.items ≡ out.old.items ++ name_text name.now) }
{
    if is_plain(name) {
        out.extend_from_slice(name)?;
    } else {
        put_between(out, b'|', name)?;
    }
    Ok(())
}
