//! A whole run: threads that store, checkpoints beside them, and what the journal says of both.
ghost use Rattle.std.specs.Prelude.{◌≡◌, ◌<◌, false, length, Err, IfOk, IfErr, is_some};
ghost use Rattle.sd_disk.specs.Reads.{OnlyReads};
ghost use Rattle.sd_mutate.specs.Ending.{LeavesStore, is_early, open_images};

use crate::fault::MutateFault;
use crate::mutator::Mutator;
use crate::saving::{Free, Saved};
use crate::tally::Tally;
use sd_command::{Refusal, Reply};
use sd_core::Core;
use sd_disk::Disk;
use sd_journal::Receipt;
use sd_restore::verify;
use sd_shared::{Seat, Shared};
use sd_world::OpenError;
use std::alloc::{AllocError, Global};
use std::sync::Wait;
use std::thread;
use std::thread::Threads;

/// How many frames the memory has.
const FRAMES: usize = 65_536;

/// Opens an empty store, and lets so many mutators store 1,000 numbers each into a page of their own, from 0x100000 on
/// in space 1, and load each back. Meanwhile two checkpoints of two pre-dumps are made, the second beside a merge; and
/// when all have ended, a third one without pre-dumps. Returns the disk, but where the journal doesn't account for what
/// each was answered, and what was done.
///
/// # Errors
///
/// `Store` where the store can't be restored; `NotEmpty` where an image is open in it; `Open` where it isn't opened;
/// `Refused` where the opener was refused, the pages can't be mapped, or memory is wanting. Nothing was stored.
pub fn mutate<R: Threads + Wait + Sync, D: Disk + Drop + Send>(
    rt: &R,
    alloc: Global,
    mut disk: D,
    threads: usize,
) -> (Option<D>, Result<Tally, MutateFault>)
    ensures left { LeavesStore D.Disk disk result.0 result.1 }
    ensures threads { IfOk result.1 (λ tally. tally.threads ≡ threads) }
    ensures closes { IfOk result.1 (λ tally. tally.closes ≡ is_some result.0) }
{
    if let Err(fault) = check_empty(alloc, &mut disk) {
        return (Some(disk), Err(fault));
    }
    match Shared::open(alloc, disk, FRAMES, threads) {
        Ok((shared, seats)) => mutate_shared(rt, alloc, shared, seats),
        Err(OpenError { fault, disk }) => (Some(disk), Err(MutateFault::Open(fault))),
    }
}

/// Whether a store can be restored, and has no open image.
fn check_empty<D: Disk>(alloc: Global, disk: &mut D) -> Result<(), MutateFault>
    ensures reads { OnlyReads D.Disk disk.old disk.new }
    ensures not_empty { result ≡ Err MutateFault.NotEmpty → D.is_honest disk.new
        → 0 < open_images (D.contents disk.old) }
    ensures empty { D.is_honest disk.new → IfOk result (λ _. open_images (D.contents disk.old) ≡ 0) }
{
    match verify(alloc, disk) {
        Ok(report) if report.images == 0 => Ok(()),
        Ok(_) => Err(MutateFault::NotEmpty),
        Err(fault) => Err(MutateFault::Store(fault)),
    }
}

/// The mutators of some seats.
fn mutators_of(alloc: Global, seats: Vec<Seat>) -> Result<Vec<Mutator>, AllocError> {
    let mut mutators = Vec::with_capacity(alloc, seats.len())?;
    for seat in seats {
        mutators.push(Mutator::new(alloc, seat))?;
    }
    Ok(mutators)
}

/// Opens the store of a shared core, and maps a page for each mutator.
fn prepare<D: Disk + Drop>(
    rt: &impl Wait,
    shared: &Shared<D>,
    mutators: &mut [Mutator],
) -> Result<(), Refusal> {
    if let Reply::Refused(why) = shared.run_opener(rt, &Free) {
        return Err(why);
    }
    let threads = mutators.len();
    match mutators.first_mut() {
        Some(first) => first.map_all(rt, shared, threads),
        None => Ok(()),
    }
}

/// Lets each mutator run in a thread of its own.
fn run_each<R: Threads + Wait + Sync, D: Disk + Drop + Send>(
    rt: &R,
    shared: &Shared<D>,
    mutators: &mut [Mutator],
) {
    let threads = mutators.len().max(1);
    thread::for_each_mut(
        rt,
        mutators,
        threads,
        &|_index, mutator| { mutator.run(rt, shared) },
    );
}

/// Lets all mutators run while checkpoints are made, and makes the last one after them.
fn run_all<R: Threads + Wait + Sync, D: Disk + Drop + Send>(
    rt: &R,
    alloc: Global,
    shared: &Shared<D>,
    mutators: &mut [Mutator],
) -> Saved {
    let mut saved = Saved::new(alloc);
    thread::join(
        rt,
        || saved.save_twice(rt, shared),
        || run_each(rt, shared, mutators),
    );
    saved.save(rt, shared, 0);
    saved
}

/// How many numbers the mutators stored and loaded back.
fn stores_of(mutators: &[Mutator]) -> u64 {
    let mut stores: u64 = 0;
    for mutator in mutators {
        stores = stores.saturating_add(mutator.stores);
    }
    stores
}

/// Why the first mutator that was stopped was.
fn stopped_in(mutators: &[Mutator]) -> Option<Refusal> {
    mutators.iter().find_map(|mutator| mutator.stopped)
}

/// Puts receipts after others.
fn append(receipts: &mut Vec<Receipt>, more: Vec<Receipt>) -> Result<(), AllocError> {
    receipts.try_reserve(more.len())?;
    for receipt in more {
        receipts.push(receipt)?;
    }
    Ok(())
}

/// The receipts of all mutators, those of each in their order.
fn receipts_of(alloc: Global, mutators: Vec<Mutator>) -> Result<Vec<Receipt>, AllocError> {
    let mut receipts = Vec::new(alloc);
    for mutator in mutators {
        append(&mut receipts, mutator.receipts)?;
    }
    Ok(receipts)
}

/// What threads were answered, and what they did.
#[derive(Drop)]
struct Told {
    receipts: Vec<Receipt>,
    acks: Vec<u64>,
    stores: u64,
    refused: Option<Refusal>,
}

/// Lets the mutators of all seats run while checkpoints are made.
fn run_seats<R: Threads + Wait + Sync, D: Disk + Drop + Send>(
    rt: &R,
    alloc: Global,
    shared: &Shared<D>,
    seats: Vec<Seat>,
) -> Result<Told, Refusal> {
    let Ok(mut mutators) = mutators_of(alloc, seats) else {
        return Err(Refusal::OutOfMemory);
    };
    prepare(rt, shared, &mut mutators)?;
    let Saved { acks, refused } = run_all(rt, alloc, shared, &mut mutators);
    let stores = stores_of(&mutators);
    let refused = refused.or(stopped_in(&mutators));
    match receipts_of(alloc, mutators) {
        Ok(receipts) => Ok(Told {
            receipts,
            acks,
            stores,
            refused,
        }),
        Err(_) => Err(Refusal::OutOfMemory),
    }
}

/// The disk of a core that is dropped.
fn disk_alone<D>(core: Core, disk: D) -> D {
    core.discard();
    disk
}

/// Compares the journal with what was said. Returns the disk, where it accounts for that.
fn close<D: Disk + Drop>(shared: Shared<D>, told: &Told) -> Option<D> {
    match shared.close(&told.receipts, &told.acks) {
        Ok((core, disk)) => Some(disk_alone(core, disk)),
        Err(_) => None,
    }
}

/// Drops a shared core of which something was refused.
fn refuse<D: Disk + Drop>(shared: Shared<D>, why: Refusal) -> MutateFault
    ensures { result ≡ MutateFault.Refused why }
{
    shared.discard();
    MutateFault::Refused(why)
}

/// Lets the mutators of all seats run while checkpoints are made, and closes the store.
fn mutate_shared<R: Threads + Wait + Sync, D: Disk + Drop + Send>(
    rt: &R,
    alloc: Global,
    shared: Shared<D>,
    seats: Vec<Seat>,
) -> (Option<D>, Result<Tally, MutateFault>)
    ensures late { IfErr result.1 (λ fault. is_early fault ≡ false) }
    ensures threads { IfOk result.1 (λ tally. tally.threads ≡ length seats.items) }
    ensures closes { IfOk result.1 (λ tally. tally.closes ≡ is_some result.0) }
{
    let threads = seats.len();
    match run_seats(rt, alloc, &shared, seats) {
        Ok(told) => {
            let disk = close(shared, &told);
            let tally = Tally {
                threads,
                stores: told.stores,
                acked: told.acks.last().copied().unwrap_or(0),
                refused: told.refused,
                closes: disk.is_some(),
            };
            (disk, Ok(tally))
        }
        Err(why) => (None, Err(refuse(shared, why))),
    }
}
