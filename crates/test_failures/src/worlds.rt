//! Runs over a store of eight slots. Only this file owns a world.
use crate::driver::Driver;
use crate::line::Line;
use crate::told::Told;
use sd_disk::{Fused, MemDisk};
use sd_world::{Event, OpenFault, World};
use std::alloc::{AllocError, Global};

/// More device calls than any of the runs makes.
pub(crate) const MOST: u64 = 500;

/// Room in each slot for the one page, after 4,096 bytes of front and before a table.
const ROOM: usize = 4_096 + 4_096 + 256;

/// A run: its lines, and what it does when the device has failed.
#[derive(Clone, Copy)]
pub(crate) struct Run<'a> {
    pub(crate) lines: &'a [Line],
    pub(crate) then: Option<&'a [Line]>,
}

/// An empty store, with room for all calls. Memory is refused once at most.
pub(crate) fn empty(alloc: Global) -> Result<MemDisk, AllocError> {
    match MemDisk::new(alloc, 8, ROOM, 1_000) {
        Ok(disk) => Ok(disk),
        Err(_) => MemDisk::new(alloc, 8, ROOM, 1_000),
    }
}

/// An empty store of which a call fails after so many, and may be dropped.
pub(crate) fn fused(alloc: Global, calls: u64, drops: bool) -> Result<Fused<MemDisk>, AllocError> {
    let disk = empty(alloc)?;
    if drops {
        Ok(Fused::dropping(disk, calls))
    } else {
        Ok(Fused::new(disk, calls))
    }
}

/// Makes the lines of a run; where the device has failed, first the next event of that worker, and then the other
/// lines.
fn drive(
    rt: &impl Eprint,
    alloc: Global,
    driver: &mut Driver<'_>,
    run: Run<'_>,
) -> Result<(), AllocError> {
    driver.lines(rt, alloc, run.lines)?;
    match (driver.told.failed, run.then) {
        (Some(worker), Some(then)) => {
            driver.make(rt, &Event::Work(worker))?;
            driver.lines(rt, alloc, then)
        }
        _ => Ok(()),
    }
}

/// Opens a store and makes a run over it. Returns the disk, and whether memory was refused to the opening.
fn try_run(
    rt: &impl Eprint,
    alloc: Global,
    disk: Fused<MemDisk>,
    run: Run<'_>,
    told: &mut Told,
) -> (Fused<MemDisk>, bool) {
    match World::open(alloc, disk, 16) {
        Ok(mut world) => {
            let mut driver = Driver {
                world: &mut world,
                told,
            };
            if drive(rt, alloc, &mut driver, run).is_err() {
                driver.told.is_lost = true;
            }
            (world.close(), false)
        }
        Err(error) => (error.disk, error.fault == OpenFault::OutOfMemory),
    }
}

/// Makes a run over a store, which is opened once more where memory was refused. Returns the disk.
pub(crate) fn make(
    rt: &impl Eprint,
    alloc: Global,
    disk: Fused<MemDisk>,
    run: Run<'_>,
    told: &mut Told,
) -> MemDisk {
    let (disk, is_refused) = try_run(rt, alloc, disk, run, told);
    if !is_refused {
        return disk.into_inner();
    }
    let _ = eprintln!(rt; "refused: open");
    try_run(rt, alloc, disk, run, told).0.into_inner()
}

/// Makes lines over an empty store of which a call fails after so many. Returns the disk.
pub(crate) fn made_of(
    rt: &impl Eprint,
    alloc: Global,
    lines: &[Line],
    calls: u64,
    told: &mut Told,
) -> Result<MemDisk, AllocError> {
    let disk = fused(alloc, calls, false)?;
    let run = Run { lines, then: None };
    Ok(make(rt, alloc, disk, run, told))
}
