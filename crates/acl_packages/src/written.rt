//! A package as it is written.

use acl_base::Word;

/// The name of a package, a string, and the form of its imports.
#[derive(Clone, Copy, Debug)]
pub struct WrittenPackage {
    pub name: Word,
    pub form: Word,
}
