//! The digest of an image as it is made.
ghost use Rattle.std.specs.Prelude.{◌≡◌, ℕ, List, [], ◌++◌};
ghost use Rattle.sha2.specs.Hashers.{Holds256};
ghost use Rattle.sha2.specs.Sha256.{sha256};
ghost use Rattle.sd_image.specs.Digests.{HasFed, fresh};
ghost use Rattle.sd_image.specs.Header.{header_front};

use crate::header::Header;
use crate::header_codec::encode_header;
use sha2::{Digest, Sha256};
use std::alloc::AllocError;
use std::mem;

/// Makes the digest of an image of version 2: the SHA-256 (FIPS 180-4) of its data pages in file order, its table, and
/// bytes 1 to 63 of its header.
#[derive(Drop)]
pub struct Digester {
    /// None before the first bytes, so that digesters of nothing are all the same.
    hasher: Option<Sha256>,
}

impl Digester {
    /// The digest of nothing yet.
    pub fn new() -> Self
        ensures fresh { result ≡ fresh }
        ensures fed { HasFed result [] }
    {
        Digester { hasher: None }
    }

    /// The hasher of what it was fed.
    fn into_hasher(self) -> Sha256
        ensures { (fed : List ℕ) → HasFed self fed → Holds256 result fed }
    {
        match self.hasher {
            Some(hasher) => hasher,
            None => Sha256::new(),
        }
    }

    /// Takes the next bytes.
    fn feed(&mut self, bytes: &[u8])
        ensures { (fed : List ℕ) → HasFed self.old fed → HasFed self.new (fed ++ bytes.now) }
    {
        let mut hasher = mem::replace(self, Digester::new()).into_hasher();
        hasher.update(bytes);
        self.hasher = Some(hasher);
    }

    /// Takes the next data page.
    pub fn page(&mut self, page: &[u8; 4096])
        ensures { (fed : List ℕ) → HasFed self.old fed → HasFed self.new (fed ++ page.now) }
    {
        self.feed(page);
    }

    /// Takes the table, after the last data page.
    pub fn table(&mut self, table: &[u8])
        ensures { (fed : List ℕ) → HasFed self.old fed → HasFed self.new (fed ++ table.now) }
    {
        self.feed(table);
    }

    /// The digest, once the data pages and the table were taken. The header's own digest has no part in it.
    pub fn finish(self, header: &Header) -> [u8; 32]
        ensures { (fed : List ℕ) → HasFed self fed → result ≡ sha256 (fed ++ header_front header.now) }
    {
        let text = encode_header(header);
        let mut hasher = self.into_hasher();
        hasher.update(&text[..63]);
        hasher.finalize()
    }
}

impl Clone for Digester {
    ghost use Rattle.std.specs.Prelude.{⊤};

    ghost is_clone = { λ digester copy. copy ≡ digester };

    ghost is_infallible = { λ _. ⊤ };

    fn clone(&self) -> Result<Digester, AllocError> {
        Ok(Digester {
            hasher: self.hasher.clone()?,
        })
    }
}
