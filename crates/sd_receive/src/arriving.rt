//! An image that arrives in a closed slot, page by page. Its gate is opened last.
ghost use Rattle.std.specs.Prelude.{◌≡◌, ◌≢◌, ◌⊎◌, ◌++◌, ◌∷◌, ℕ, ◌<◌, false, List, []};
ghost use Rattle.std.specs.Prelude.{IfOk, OnOk, length, slice_set};
ghost use Rattle.sd_disk.specs.Contents.{file_at};
ghost use Rattle.sd_disk.specs.Crash.{OnlyAt};
ghost use Rattle.sd_disk.specs.Failures.{HasCause};
ghost use Rattle.sd_disk.specs.Reads.{OnlyReads};
ghost use Rattle.sd_disk.specs.Spans.{LeavesOnly};
ghost use Rattle.sd_image.specs.Header.{HasWords};
ghost use Rattle.sd_image.specs.Image.{is_open};
ghost use Rattle.sd_gate.specs.Laws.{found_phase};
ghost use Rattle.sd_gate.specs.Phases.{state_of};
ghost use Rattle.sd_gate.specs.Sequences.{IsBody, IsPage};
ghost use Rattle.sd_receive.specs.Arriving.{IsFilled, IsSettled, KeepsImages, file_of};

use crate::plans::run;
use sd_disk::{DeviceError, Disk, file_len};
use sd_gate::{Plan, SlotState, bodies_fill, found_fits, plans_take};
use sd_image::{HEADER_SIZE, Header};

/// Waits until a closed slot is on the device as it reads, and says in which state it is.
fn synced_state<D: Disk>(disk: &mut D, slot: usize) -> Result<SlotState, DeviceError>
    requires { slot < length (D.contents disk.old) }
    ensures state { D.is_honest disk.new
        → is_open (file_at (D.contents disk.old) slot) ≡ false
        → IfOk result (λ state. state ≡ state_of (found_phase (file_at (D.contents disk.old) slot))) }
    ensures synced { OnOk result
        (OnlyAt slot (file_at (D.contents disk.old) slot) (D.may_leave disk.new)) }
    ensures reads { OnlyReads D.Disk disk.old disk.new }
    ensures cause { HasCause (D.failed disk.old) (D.failed disk.new) result }
{
    sync(disk, slot)?;
    let len = file_len(disk, slot)?;
    if len < HEADER_SIZE {
        Ok(SlotState::Raw)
    } else {
        Ok(SlotState::Closed)
    }
}

/// Waits until a slot is on the device as it reads.
pub(crate) fn sync<D: Disk>(disk: &mut D, slot: usize) -> Result<(), DeviceError>
    requires { slot < length (D.contents disk.old) }
    ensures synced { OnOk result
        (OnlyAt slot (file_at (D.contents disk.old) slot) (D.may_leave disk.new)) }
    ensures reads { OnlyReads D.Disk disk.old disk.new }
    ensures cause { HasCause (D.failed disk.old) (D.failed disk.new) result }
{
    disk.sync(slot)
}

/// Makes a closed slot ready for an image: it is synced, and its file is cut to one closed byte. Its data pages go to
/// [`put_page`], rising from 0, and then its table and its header to [`open_gate`].
///
/// # Errors
///
/// Where a call of the device failed: the slot is closed.
pub fn format<D: Disk>(disk: &mut D, slot: usize) -> Result<(), DeviceError>
    requires { slot < length (D.contents disk.old) }
    ensures keeps { D.is_honest disk.new → IsSettled (D.contents disk.old) (D.may_leave disk.old)
        → is_open (file_at (D.contents disk.old) slot) ≡ false
        → LeavesOnly D.Disk disk.old disk.new (KeepsImages (D.contents disk.old)) }
    ensures filled { D.is_honest disk.new → IsSettled (D.contents disk.old) (D.may_leave disk.old)
        → is_open (file_at (D.contents disk.old) slot) ≡ false
        → OnOk result (IsFilled (D.contents disk.new) (D.may_leave disk.new) slot []) }
    ensures others { (other : ℕ) → other ≢ slot
        → file_at (D.contents disk.new) other ≡ file_at (D.contents disk.old) other }
    ensures count { length (D.contents disk.new) ≡ length (D.contents disk.old) }
    ensures honest { D.is_honest disk.new → D.is_honest disk.old }
    ensures cause { HasCause (D.failed disk.old) (D.failed disk.new) result }
{
    plans_take();
    let state = synced_state(disk, slot)?;
    found_fits(disk);
    run(disk, Plan::format(slot, state))?;
    Ok(())
}

/// Writes the next data page of the image that arrives in a slot, and gives the buffer back.
///
/// # Errors
///
/// Where the call of the device failed: the slot is closed.
pub fn put_page<D: Disk>(
    disk: &mut D,
    slot: usize,
    place: usize,
    buffer: Vec<u8>,
) -> Result<Option<Vec<u8>>, DeviceError>
    requires slot { slot < length (D.contents disk.old) }
    requires page { IsPage place buffer.items }
    ensures keeps { (pages : List (List ℕ)) → place ≡ length pages
        → IsFilled (D.contents disk.old) (D.may_leave disk.old) slot pages
        → LeavesOnly D.Disk disk.old disk.new (KeepsImages (D.contents disk.old)) }
    ensures filled { (pages : List (List ℕ)) → place ≡ length pages
        → IsFilled (D.contents disk.old) (D.may_leave disk.old) slot pages
        → OnOk result (IsFilled (D.contents disk.new) (D.may_leave disk.new) slot
        (pages ++ buffer.items ∷ [])) }
    ensures others { (other : ℕ) → other ≢ slot
        → file_at (D.contents disk.new) other ≡ file_at (D.contents disk.old) other }
    ensures count { length (D.contents disk.new) ≡ length (D.contents disk.old) }
    ensures honest { D.is_honest disk.new → D.is_honest disk.old }
    ensures cause { HasCause (D.failed disk.old) (D.failed disk.new) result }
{
    plans_take();
    bodies_fill();
    let plan = run(disk, Plan::write_page(slot, place, buffer))?;
    Ok(plan.into_found().first)
}

/// Writes the table and the header of the image that arrived in a slot, syncs them, opens the gate and syncs that: the
/// image is there once this is done.
///
/// # Errors
///
/// Where a call of the device failed: the slot is closed, or has the whole image.
pub fn open_gate<D: Disk>(
    disk: &mut D,
    slot: usize,
    header: Header,
    table: Vec<u8>,
) -> Result<(), DeviceError>
    requires slot { slot < length (D.contents disk.old) }
    requires body { IsBody header table.items }
    // A crash within it leaves the slot closed, or with the whole image.
    ensures opens { (pages : List (List ℕ)) → header.pages ≡ length pages → HasWords header
        → IsFilled (D.contents disk.old) (D.may_leave disk.old) slot pages
        → LeavesOnly D.Disk disk.old disk.new (λ c. KeepsImages (D.contents disk.old) c
        ⊎ KeepsImages (slice_set (D.contents disk.old) slot (file_of header pages table.items)) c) }
    ensures opened { (pages : List (List ℕ)) → header.pages ≡ length pages → HasWords header
        → IsFilled (D.contents disk.old) (D.may_leave disk.old) slot pages
        → OnOk result (IsSettled (D.contents disk.new) (D.may_leave disk.new)
        × (file_at (D.contents disk.new) slot ≡ file_of header pages table.items)) }
    ensures others { (other : ℕ) → other ≢ slot
        → file_at (D.contents disk.new) other ≡ file_at (D.contents disk.old) other }
    ensures count { length (D.contents disk.new) ≡ length (D.contents disk.old) }
    ensures honest { D.is_honest disk.new → D.is_honest disk.old }
    ensures cause { HasCause (D.failed disk.old) (D.failed disk.new) result }
{
    plans_take();
    bodies_fill();
    run(disk, Plan::close_body(slot, header, table))?;
    Ok(())
}
