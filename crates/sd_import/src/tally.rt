//! What an import comes to.

use std::fmt;

/// How many pages an import gave a space, and how many of the space's pages are others than before.
#[derive(Clone, Copy, PartialEq, Eq)]
pub struct Tally {
    pub imported: u64,
    /// Those that were mapped, unmapped, or got other bytes or permissions.
    pub changed: u64,
}

impl fmt::Display for Tally {
    fn fmt<W: fmt::Write>(&self, f: &mut fmt::Formatter<W>) -> fmt::Result {
        write!(f, "imported {} changed {}", self.imported, self.changed)
    }
}
