//! The memory of a store at a checkpoint, as a digest.
ghost use Rattle.std.specs.Prelude.{◌≡◌, IfOk, Err};
ghost use Rattle.sha2.specs.Sha256.{sha256};
ghost use Rattle.sd_disk.specs.Reads.{OnlyReads};
ghost use Rattle.sd_restore.specs.declared.fault.Fault.TheVariants as fault;
ghost use Rattle.sd_restore.specs.At.{LacksAt};
ghost use Rattle.sd_send.specs.Sent.{IsDigestAt};

use sd_disk::Disk;
use sd_exit::{Output, Stop};
use sd_readers::{ReaderAt, print_at};
use sd_restore::Fault;
use sha2::{Digest, Sha256};
use std::alloc::Global;

/// The SHA-256 of a text.
fn digest_of(text: &[u8]) -> [u8; 32]
    ensures { result ≡ sha256 text.now }
{
    let mut hasher = Sha256::new();
    hasher.update(text);
    hasher.finalize()
}

/// The SHA-256 of the memory that a store has at a checkpoint: of the text that `ckpt restore` prints of it, which it
/// holds meanwhile.
///
/// # Errors
///
/// Those of a restore of the checkpoint: `EmptyChain` where the store has none of that number.
pub fn memory_digest<D: Disk>(alloc: Global, disk: &mut D, number: u64) -> Result<[u8; 32], Fault>
    ensures digest { D.is_honest disk.new
        → IfOk result (λ digest. IsDigestAt (D.contents disk.old) number digest) }
    ensures empty { D.is_honest disk.new → result ≡ Err fault.EmptyChain
        → LacksAt (D.contents disk.old) number }
    ensures reads { OnlyReads D.Disk disk.old disk.new }
{
    let mut out = Output::new(Vec::new(alloc));
    match print_at(alloc, ReaderAt::Restore, disk, number, &mut out) {
        Ok(()) => Ok(digest_of(&out.into_writer())),
        Err(Stop::Fault(fault)) => Err(fault),
        Err(_) => Err(Fault::OutOfMemory),
    }
}
