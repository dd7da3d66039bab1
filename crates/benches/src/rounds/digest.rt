//! The digest of as many bytes as a dump has, alone.
use super::bench::TOUCHED;
use sd_areas::PAGE_SIZE;
use sha2::{Digest, Sha256};

/// The SHA-256 of as many pages as are touched.
pub(crate) fn digest() -> [u8; 32] {
    let page = [7u8; PAGE_SIZE];
    let mut hasher = Sha256::new();
    for _ in 0..TOUCHED {
        hasher.update(&page);
    }
    hasher.finalize()
}
