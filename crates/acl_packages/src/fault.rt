//! Why a package is refused.

use acl_base::{SymId, Word};

/// Why the definition of a package is refused, in this order.
#[derive(Clone, Copy, Debug)]
pub enum PackageFault {
    /// Its imports are no true list of symbols.
    BadShape,
    /// There is a package of this name.
    PackageExists(Word),
    /// Two different imports have one name: the earliest second, behind the first before it.
    ImportClash(SymId, SymId),
    /// Memory was refused.
    Memory,
}

/// Why no package becomes the current one, in this order.
#[derive(Clone, Copy, Debug)]
pub enum CurrentFault {
    /// What stands there is no string alone.
    BadShape,
    /// There is no package of this name, or it is hidden.
    UnknownPackage(Word),
}
