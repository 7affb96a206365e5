//! A name in its place.

/// A name, and the place at which it stood last before.
#[derive(Clone, Copy, Debug)]
pub struct Named {
    pub name: u32,
    pub earlier: Option<usize>,
}
