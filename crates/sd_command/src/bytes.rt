//! The bytes that a command stores or a load returns.
ghost use Rattle.std.specs.Prelude.{◌≡◌, List, ℕ, nat_eq, IfOk};
ghost use Rattle.std.specs.Cmp.Lexicographic.{pointwise, nat_list_eq_equiv};
ghost use Rattle.std.specs.Cmp.{partial_equiv_from_equiv};

use smallvec::SmallVec;
use std::alloc::{AllocError, Global};
use std::marker::Model;

/// How many bytes take no memory of their own. With so few a journal's entry is hardly larger.
const FEW: usize = 16;

/// A string of bytes that is never changed. Contracts see the list of its bytes.
#[derive(Debug, Drop)]
pub struct Bytes {
    bytes: SmallVec<u8, FEW>,
}

impl Model for Bytes {
    ghost Value = { List ℕ };

    ghost view = { λ b. b.bytes.items };
}

impl Bytes {
    /// Takes these bytes. Any number of them is taken: a store of none, or of over 64, is refused where it is applied.
    pub fn new(bytes: Vec<u8>) -> Bytes
        ensures { result ≡ bytes.items }
    {
        Bytes {
            bytes: SmallVec::from_vec(bytes),
        }
    }

    /// A copy of these bytes, of which up to 16 take no memory.
    ///
    /// # Errors
    ///
    /// Out of memory where more find no room.
    pub fn from_slice(alloc: Global, bytes: &[u8]) -> Result<Bytes, AllocError>
        ensures { IfOk result (λ copy. copy ≡ bytes.now) }
    {
        if bytes.len() <= FEW {
            return Ok(Bytes {
                bytes: SmallVec::from_slice(alloc, bytes)?,
            });
        }
        Ok(Bytes::new(Vec::from_slice(alloc, bytes)?))
    }

    /// The bytes.
    pub fn as_slice(&self) -> &[u8]
        ensures { result.now ≡ self.now }
    {
        self.bytes.as_slice()
    }
}

impl Clone for Bytes {
    ghost is_clone = { λ bytes copy. copy ≡ bytes };

    fn clone(&self) -> Result<Bytes, AllocError> {
        Bytes::from_slice(*self.bytes.allocator(), self.as_slice())
    }
}

impl PartialEq for Bytes {
    ghost eq = { pointwise nat_eq };

    ghost laws = { partial_equiv_from_equiv nat_list_eq_equiv };

    fn eq(&self, other: &Bytes) -> bool {
        self.as_slice() == other.as_slice()
    }
}

impl Eq for Bytes {
    ghost laws = { nat_list_eq_equiv };
}
