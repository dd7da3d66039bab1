use sd_image::Reason;
use sd_restore::Fault;
use std::alloc::AllocError;

/// Why two checkpoints of a store aren't compared.
#[derive(Clone, Copy, Debug, PartialEq, Eq)]
pub enum DiffFault {
    /// The store has no image of the checkpoint with this number.
    NoCheckpoint(u64),
    /// The store isn't in order, and this slot is the first thing that shows it.
    Damaged { slot: usize, reason: Reason },
    /// A call of the device failed.
    Device,
    /// Memory ran out.
    OutOfMemory,
}

impl DiffFault {
    ghost use Rattle.std.specs.Prelude.{◌≡◌};
    ghost use Rattle.sd_diff.specs.Faults.{fault_at};

    /// What a fault of reading a checkpoint is.
    pub(crate) fn at(number: u64, fault: Fault) -> DiffFault
        ensures { result ≡ fault_at number fault }
    {
        match fault {
            Fault::EmptyChain => DiffFault::NoCheckpoint(number),
            Fault::Damaged { slot, reason } => DiffFault::Damaged { slot, reason },
            Fault::Device => DiffFault::Device,
            Fault::OutOfMemory => DiffFault::OutOfMemory,
        }
    }
}

impl From<AllocError> for DiffFault {
    ghost use Rattle.std.specs.Prelude.{◌≡◌};
    ghost use Rattle.sd_diff.specs.declared.diff_fault.DiffFault.TheVariants.{OutOfMemory};

    ghost from_gives = { λ _ fault. fault ≡ OutOfMemory };

    fn from(_error: AllocError) -> DiffFault {
        DiffFault::OutOfMemory
    }
}
