//! Reads forms from bytes that come in pieces.
#![tactic(auto)]

ghost use Rattle.std.specs.Prelude.{◌≤◌, vec_len};

mod answering;
mod growing;
mod reading;

use acl_read_scan::Built;
pub use acl_read_scan::{TextCause, TextFault};
pub use growing::growth_keeps_readers;
use std::alloc::Global;

/// A reader of forms.
#[derive(Drop)]
pub struct Reader {
    alloc: Global,
    // the bytes fed, from which those taken are given up now and then
    bytes: Vec<u8>,
    // where the unread bytes begin in them, and how far they have been scanned
    from: usize,
    scanned: usize,
    // how many bytes were taken
    taken: u64,
    built: Built,
    ended: bool,
    fault: Option<TextFault>,
    ghost in_order: { from ≤ scanned },
    ghost in_range: { scanned ≤ vec_len bytes },
}

#[cfg(test)]
mod tests;
