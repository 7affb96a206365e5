//! The texts of made names.

ghost use Rattle.std.specs.Prelude.{◌≡◌, IfOk};
ghost use Rattle.acl_stobj.specs.Texts.{before_of, behind_of, text_of};

use std::alloc::{AllocError, Global};

/// What a function is for that is named after a stobj or a field.
#[derive(Clone, Copy, Debug, PartialEq, Eq)]
pub enum Purpose {
    Recognizer,
    Creator,
    Access,
    Update,
    Length,
    Resize,
    Element,
    UpdateElement,
    Get,
    IsBound,
    GetBound,
    Put,
    Remove,
    Count,
    Clear,
}

impl Purpose {
    /// What stands before the name.
    fn before(self) -> &'static [u8]
        ensures { result.now ≡ before_of self }
    {
        match self {
            Purpose::Recognizer => b"",
            Purpose::Creator => b"CREATE-",
            Purpose::Access => b"",
            Purpose::Update => b"UPDATE-",
            Purpose::Length => b"",
            Purpose::Resize => b"RESIZE-",
            Purpose::Element => b"",
            Purpose::UpdateElement => b"UPDATE-",
            Purpose::Get => b"",
            Purpose::IsBound => b"",
            Purpose::GetBound => b"",
            Purpose::Put => b"",
            Purpose::Remove => b"",
            Purpose::Count => b"",
            Purpose::Clear => b"",
        }
    }

    /// What stands behind it.
    fn behind(self) -> &'static [u8]
        ensures { result.now ≡ behind_of self }
    {
        match self {
            Purpose::Recognizer => b"P",
            Purpose::Creator => b"",
            Purpose::Access => b"",
            Purpose::Update => b"",
            Purpose::Length => b"-LENGTH",
            Purpose::Resize => b"",
            Purpose::Element => b"I",
            Purpose::UpdateElement => b"I",
            Purpose::Get => b"-GET",
            Purpose::IsBound => b"-BOUNDP",
            Purpose::GetBound => b"-GET?",
            Purpose::Put => b"-PUT",
            Purpose::Remove => b"-REM",
            Purpose::Count => b"-COUNT",
            Purpose::Clear => b"-CLEAR",
        }
    }
}

/// The text of the function of a purpose that is named after this name.
pub fn text_of(alloc: Global, purpose: Purpose, name: &[u8]) -> Result<Vec<u8>, AllocError>
    ensures { IfOk result (λ text. text.items ≡ text_of purpose name.now) }
{
    let mut text = Vec::from_slice(alloc, purpose.before())?;
    text.extend_from_slice(name)?;
    text.extend_from_slice(purpose.behind())?;
    Ok(text)
}
