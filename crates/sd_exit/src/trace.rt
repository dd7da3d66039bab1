//! Bytes for clauses alone.
ghost use Rattle.std.specs.Prelude.{◌≡◌, ◌++◌, ℕ, List, []};
ghost use Rattle.std.specs.Borrow.{ftrue};

use std::marker::{Model, PhantomData};

/// A list of bytes that stands in clauses alone. It takes no memory.
#[derive(Drop)]
pub(crate) struct ByteTrace {
    marker: PhantomData<u8>,
    pub ghost bytes: { List ℕ },
}

impl Model for ByteTrace {
    ghost also_owns = { λ _. ftrue };
}

impl ByteTrace {
    pub(crate) fn new() -> ByteTrace
        ensures { result.bytes ≡ [] }
    {
        ByteTrace {
            marker: PhantomData,
        }
    }

    /// Nothing runs: a caller notes the bytes that were taken.
    pub(crate) fn note(&mut self, _bytes: &[u8])
        ensures { self.new ≡ record self.old { bytes = self.old.bytes ++ _bytes.now } }
    {}
}
