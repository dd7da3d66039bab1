//! The digest of an image that is made page by page.
ghost use Rattle.std.specs.Prelude.{◌≡◌, ℕ, List, ◌++◌, length};
ghost use Rattle.sha2.specs.Sha256.{sha256};
ghost use Rattle.sd_image.specs.Digests.{HasFed};
ghost use Rattle.sd_image.specs.Header.{header_front};

use sd_image::{Digester, Header};

/// Takes the next data page into the digest of its image.
pub fn digest_page(digester: &mut Digester, page: &[u8])
    requires { length page.now ≡ 4096 }
    ensures { (fed : List ℕ) → HasFed digester.old fed → HasFed digester.new (fed ++ page.now) }
{
    match page.try_into() {
        Ok(page) => digester.page(page),
        Err(_) => unreachable!(),
    }
}

/// The header with the digest of its image, whose data pages were taken into the digest, and whose table has this text.
pub(crate) fn with_digest(mut digester: Digester, table: &[u8], header: Header) -> Header
    ensures fields { result ≡ record header { digest = result.digest } }
    ensures digest { (fed : List ℕ) → HasFed digester fed
        → result.digest ≡ sha256 (fed ++ table.now ++ header_front result) }
    ensures length { length result.digest ≡ 32 }
{
    digester.table(table);
    let digest = digester.finish(&header);
    Header { digest, ..header }
}
