ghost use Rattle.std.specs.Prelude.{◌≡◌, IfOk};
ghost use Rattle.sd_areas.specs.Memory.{page_of_snapshot};

use crate::limits::PAGE_SIZE;
use crate::prot::Prot;
use std::alloc::{AllocError, Global};

/// A mapped page as it was: its permissions and its bytes.
#[derive(Drop)]
pub struct SnapshotPage {
    pub prot: Prot,
    pub bytes: Box<[u8; PAGE_SIZE]>,
}

impl SnapshotPage {
    /// A copy, whose bytes have memory of their own.
    ///
    /// # Errors
    ///
    /// Out of memory where the bytes find no room; the page stands as it was.
    pub fn try_clone(&self, alloc: Global) -> Result<SnapshotPage, AllocError>
        ensures copy { IfOk result (λ copy. page_of_snapshot copy ≡ page_of_snapshot self.now) }
    {
        let bytes = Box::new(alloc, *self.bytes)?;
        Ok(SnapshotPage {
            prot: self.prot,
            bytes,
        })
    }
}
