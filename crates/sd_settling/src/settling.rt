//! Closing: the journal against the receipts.
ghost use Rattle.std.specs.Prelude.{◌≡◌, ◌↔◌, IsOk, IfOk, IfErr, reverse};
ghost use Rattle.sd_crash_safety.specs.View.{history_of};
ghost use Rattle.sd_journal.specs.Receipts.{Accounts, IsFault};

use sd_core::Core;
use sd_journal::{CloseFault, Receipt};
use sd_receipts::check_receipts;

/// Whether the journal of a core accounts for the receipts and the acknowledged numbers.
///
/// # Errors
///
/// The first fault, as `check_receipts`.
fn check_core(core: &Core, receipts: &[Receipt], acks: &[u64]) -> Result<(), CloseFault>
    ensures exact { IsOk result
        ↔ Accounts core.now.base.folded (reverse (history_of core.now)) receipts.now acks.now }
    ensures fault { IfErr result
        (IsFault core.now.base.folded (reverse (history_of core.now)) receipts.now acks.now) }
{
    check_receipts(core.journal(), receipts, acks)
}

/// Drops a core and its disk, which have a fault.
fn refuse<D: Drop>(core: Core, _disk: D, fault: CloseFault) -> CloseFault
    ensures { result ≡ fault }
{
    core.discard();
    fault
}

/// Gives the core and the disk back where the journal accounts for the receipts, each seat's in the order in which they
/// were given, and for the acknowledged numbers.
///
/// # Errors
///
/// The first fault, as `check_receipts`. The core and the disk are dropped.
pub fn settle<D: Drop>(
    core: Core,
    disk: D,
    receipts: &[Receipt],
    acks: &[u64],
) -> Result<(Core, D), CloseFault>
    ensures exact { IsOk result ↔ Accounts core.base.folded (reverse (history_of core)) receipts.now acks.now }
    ensures fault { IfErr result (IsFault core.base.folded (reverse (history_of core)) receipts.now acks.now) }
    ensures core { IfOk result (λ parts. parts.0 ≡ core) }
    ensures disk { IfOk result (λ parts. parts.1 ≡ disk) }
{
    match check_core(&core, receipts, acks) {
        Ok(()) => Ok((core, disk)),
        Err(fault) => Err(refuse(core, disk, fault)),
    }
}
