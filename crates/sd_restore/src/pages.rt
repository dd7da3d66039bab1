//! Reading the pages of a memory.
ghost use Rattle.std.specs.Prelude.{◌≡◌, ◌≢◌, ◌+◌, ◌<◌, ◌≤◌, ℕ, length, All, IsTrue, IfOk, IfErr, OnOk, IsErrOf};
ghost use Rattle.std.specs.FinMap as finmap;
ghost use Rattle.sd_areas.specs.Memory.{memory_of};
ghost use Rattle.sd_disk.specs.Reads.{OnlyReads};
ghost use Rattle.sd_chain.specs.Store.{bytes_at};
ghost use Rattle.sd_restore.specs.Faulty.{FaultNames};
ghost use Rattle.sd_restore.specs.Placed.{IsInSlots, IsWithin, pages_in, placed_pages, with_spaces, with_pages};

use crate::fault::Fault;
use crate::placed_run::PlacedRun;
use sd_areas::{PAGE_SIZE, PageNo, Snapshot};
use sd_chain::{Found, OpenImage};
use sd_disk::{Disk, read_file};
use std::alloc::{AllocError, Global};

/// The living spaces of an image, without pages.
pub fn living_spaces(alloc: Global, tip: &OpenImage) -> Result<Snapshot, AllocError>
    ensures spaces { IfOk result
        (λ snapshot. memory_of snapshot ≡ with_spaces finmap.empty tip.now.spaces) }
    ensures checkpoint { IfOk result (λ snapshot. snapshot.checkpoint ≡ tip.now.header.checkpoint) }
{
    let mut snapshot = Snapshot::new(alloc, tip.header().checkpoint);
    for space in &tip.table().spaces {
        snapshot.add_space(alloc, space.space)?;
    }
    Ok(snapshot)
}

/// Reads the bytes of a page that lies there.
fn read_page<D: Disk>(
    alloc: Global,
    disk: &mut D,
    there: Found,
) -> Result<Box<[u8; PAGE_SIZE]>, Fault>
    requires { IsInSlots (length (D.contents disk.old)) there }
    ensures bytes { D.is_honest disk.new
        → IfOk result (λ bytes. bytes.value ≡ bytes_at (D.contents disk.old) there) }
    ensures unnamed { IfErr result (FaultNames (λ _ _. ⊥)) }
    ensures reads { OnlyReads D.Disk disk.old disk.new }
    ensures device { IsErrOf result Fault.Device → D.failed disk.old < D.failed disk.new }
    ensures stops { D.failed disk.old < D.failed disk.new → IsErrOf result Fault.Device }
    ensures calls { D.calls disk.new ≤ D.calls disk.old + 1 }
    ensures empty { result ≢ Err Fault.EmptyChain }
{
    let mut bytes = Box::new(alloc, [0; PAGE_SIZE])?;
    if let Found::Data { slot, offset } = there {
        read_file(disk, slot, offset as usize, bytes.as_mut_slice())?;
    }
    Ok(bytes)
}

/// Reads the pages of a run into the memory of its space.
fn read_run<D: Disk>(
    alloc: Global,
    disk: &mut D,
    run: &PlacedRun,
    snapshot: &mut Snapshot,
) -> Result<(), Fault>
    requires alive { IsTrue (finmap.contains_key (memory_of snapshot.old) run.now.space) }
    requires slots { IsInSlots (length (D.contents disk.old)) run.now.there }
    requires within { IsWithin run.now }
    ensures memory { D.is_honest disk.new
        → OnOk result (memory_of snapshot.new
        ≡ with_pages (D.contents disk.old) (memory_of snapshot.old) (pages_in run.now)) }
    ensures spaces { (space : ℕ) → finmap.contains_key (memory_of snapshot.new) space
        ≡ finmap.contains_key (memory_of snapshot.old) space }
    ensures checkpoint { snapshot.new.checkpoint ≡ snapshot.old.checkpoint }
    ensures unnamed { IfErr result (FaultNames (λ _ _. ⊥)) }
    ensures reads { OnlyReads D.Disk disk.old disk.new }
    ensures device { IsErrOf result Fault.Device → D.failed disk.old < D.failed disk.new }
    ensures stops { D.failed disk.old < D.failed disk.new → IsErrOf result Fault.Device }
    ensures calls { D.calls disk.new ≤ D.calls disk.old + run.now.count }
    ensures empty { result ≢ Err Fault.EmptyChain }
{
    for k in 0..run.count {
        let page = PageNo::new(run.first.number() + k).unwrap();
        let bytes = read_page(alloc, disk, run.place(k))?;
        snapshot.put_page(run.space, page, run.prot, bytes)?;
    }
    Ok(())
}

/// Reads the pages of these runs into the memory of their spaces.
pub fn read_pages<D: Disk>(
    alloc: Global,
    disk: &mut D,
    runs: &[PlacedRun],
    snapshot: &mut Snapshot,
) -> Result<(), Fault>
    requires alive { All
        (λ r. IsTrue (finmap.contains_key (memory_of snapshot.old) r.space)) runs.now }
    requires slots { All (λ r. IsInSlots (length (D.contents disk.old)) r.there) runs.now }
    requires within { All IsWithin runs.now }
    ensures memory { D.is_honest disk.new
        → OnOk result (memory_of snapshot.new
        ≡ with_pages (D.contents disk.old) (memory_of snapshot.old) (placed_pages runs.now)) }
    ensures checkpoint { snapshot.new.checkpoint ≡ snapshot.old.checkpoint }
    ensures unnamed { IfErr result (FaultNames (λ _ _. ⊥)) }
    ensures reads { OnlyReads D.Disk disk.old disk.new }
    ensures device { IsErrOf result Fault.Device → D.failed disk.old < D.failed disk.new }
    ensures stops { D.failed disk.old < D.failed disk.new → IsErrOf result Fault.Device }
    ensures calls { D.calls disk.new ≤ D.calls disk.old + length (placed_pages runs.now) }
    ensures empty { result ≢ Err Fault.EmptyChain }
{
    for run in runs {
        read_run(alloc, disk, run, snapshot)?;
    }
    Ok(())
}
