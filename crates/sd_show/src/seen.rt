//! Reading one slot, whatever is in it.
ghost use Rattle.std.specs.Prelude.{◌≡◌, ◌<◌, ℕ, List, length, IfOk, slice_index, IsErrOf};
ghost use Rattle.sd_disk.specs.Contents.{file_at};
ghost use Rattle.sd_disk.specs.Failures.{HasCause};
ghost use Rattle.sd_disk.specs.Reads.{OnlyReads};
ghost use Rattle.sd_show.specs.Slots.{IsSeen, is_damaged, state_in};
ghost use Rattle.sd_show.specs.declared.stop.Stop.TheVariants as stop;

use crate::opened::{Opened, read_opened};
use crate::state::{State, state_by};
use crate::stop::Stop;
use sd_disk::{DeviceError, Disk, file_len, read_file};
use std::alloc::Global;

/// What was read of a slot.
#[derive(Drop)]
pub(crate) struct Seen {
    pub(crate) state: State,
    /// What an open slot has; none of the others.
    pub(crate) opened: Option<Opened>,
}

impl Seen {
    /// Whether the slot is open, and its file no image.
    pub(crate) fn is_damaged(&self) -> bool
        ensures { (file : List ℕ) → IsSeen file self.now → result ≡ is_damaged file }
    {
        match &self.opened {
            Some(opened) => opened.fault.is_some(),
            None => false,
        }
    }
}

/// The gate byte of a slot whose file has this length in bytes, 0 of an empty one.
fn read_gate<D: Disk>(disk: &mut D, slot: usize, len: usize) -> Result<u8, DeviceError>
    requires { slot < length (D.contents disk.old) }
    ensures gate { D.is_honest disk.new → len ≡ length (file_at (D.contents disk.old) slot)
        → IfOk result (λ gate. gate ≡ slice_index (file_at (D.contents disk.old) slot) 0) }
    ensures reads { OnlyReads D.Disk disk.old disk.new }
    ensures cause { HasCause (D.failed disk.old) (D.failed disk.new) result }
{
    if len == 0 {
        return Ok(0);
    }
    let mut gate = [0];
    read_file(disk, slot, 0, &mut gate)?;
    Ok(gate[0])
}

/// Reads a slot.
///
/// # Errors
///
/// Where a call of the device fails, or memory runs out.
pub(crate) fn read_slot<D: Disk>(alloc: Global, disk: &mut D, slot: usize) -> Result<Seen, Stop>
    requires { slot < length (D.contents disk.old) }
    ensures seen { D.is_honest disk.new
        → IfOk result (IsSeen (file_at (D.contents disk.old) slot)) }
    ensures reads { OnlyReads D.Disk disk.old disk.new }
    ensures device { IsErrOf result stop.Device → D.failed disk.old < D.failed disk.new }
    ensures stops { D.failed disk.old < D.failed disk.new → IsErrOf result stop.Device }
{
    let len = file_len(disk, slot)?;
    let gate = read_gate(disk, slot, len)?;
    let state = state_by(gate, len);
    if state != State::Open {
        return Ok(Seen {
            state,
            opened: None,
        });
    }
    let opened = read_opened(alloc, disk, slot, len)?;
    Ok(Seen {
        state,
        opened: Some(opened),
    })
}
