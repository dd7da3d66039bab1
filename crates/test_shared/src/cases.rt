//! A shared core over a store of eight slots, what is done with it, and its closing. Only this file owns one.
ghost use Rattle.std.specs.Prelude.{◌≤◌};

use crate::beside::saves_beside;
use crate::cancelling::cancels_beside;
use crate::case::Case;
use crate::eight::plays;
use crate::falling::falls;
use crate::holds::{Free, merges_in_13_calls, saves_in_16_calls};
use crate::jobs::Job;
use crate::mutator::{Mutator, Way};
use crate::replies::{is_acked, is_merged, is_opened};
use crate::told::Told;
use crate::waiting::{awaits_each, wakes_by_a_cancel};
use crate::writers::{falls_beside, writes_beside, writes_twenty_pages};
use sd_core::Core;
use sd_disk::{Disk, Fused, MemDisk};
use sd_journal::CloseFault;
use sd_restore::Fault;
use sd_shared::{Seat, Shared};
use sd_world::{OpenFault, audit};
use std::alloc::{AllocError, Global};
use std::process::Abort;
use std::rt::Files;
use std::sync::Wait;
use std::test::Fail;
use std::thread::Threads;
use std::time::{Clock, SystemTime};

/// The disk of these tests, of which a call may fail.
pub(crate) type Store = Fused<MemDisk>;

/// How many writes, cuts and syncs a disk has room for.
const CALLS: usize = 1_000_000_000;

/// The bytes of an image's front.
const FRONT_BYTES: usize = 4_096;

/// The bytes of a page.
const PAGE_BYTES: usize = 4_096;

/// More bytes than the table of an image of twenty pages takes.
const TABLE_BYTES: usize = 1_024;

/// How many frames a core has.
const FRAMES: usize = 256;

/// How many runs of eight seats are made.
const RUNS: u64 = 10;

/// An empty disk whose slots have room for images of so many pages, where memory is refused once at most. What a disk
/// in memory costs in a build with checks goes by its room.
fn empty(alloc: Global, slots: usize, pages: u64) -> Result<MemDisk, AllocError>
    requires some { 1 ≤ slots }
    requires few { slots ≤ 1000 }
{
    let data = PAGE_BYTES.saturating_mul(pages as usize);
    let room = data.saturating_add(FRONT_BYTES + TABLE_BYTES);
    match MemDisk::new(alloc, slots, room, CALLS) {
        Ok(disk) => Ok(disk),
        Err(_) => MemDisk::new(alloc, slots, room, CALLS),
    }
}

fn store(alloc: Global, case: Case) -> Result<Store, AllocError> {
    let disk = empty(alloc, case.slots(), case.pages())?;
    Ok(Fused::new(disk, case.fuse()))
}

/// Opens a store for the seats of a case, again where memory is refused once.
fn open(alloc: Global, case: Case) -> Result<(Shared<Store>, Vec<Seat>), Fail> {
    let error = match Shared::open(alloc, store(alloc, case)?, FRAMES, case.seats()) {
        Ok(opened) => return Ok(opened),
        Err(error) => error,
    };
    if error.fault != OpenFault::OutOfMemory {
        return Err(Fail::from("not opened"));
    }
    match Shared::open(alloc, error.disk, FRAMES, case.seats()) {
        Ok(opened) => Ok(opened),
        Err(_) => Err(Fail::from("not opened again")),
    }
}

/// Makes a checkpoint without pre-dumps. Returns whether it is acknowledged, and kept, as what follows does.
fn saves(rt: &impl Wait, shared: &Shared<Store>, told: &mut Told) -> bool {
    is_acked(shared.run_dumper(rt, 0, &Free), 1) && told.keep_ack(1)
}

/// Trims the journal. Returns whether something was folded, and kept.
fn trims(rt: &impl Wait, shared: &Shared<Store>, told: &mut Told) -> bool {
    match shared.trim(rt) {
        Ok(folded) => told.keep_folded(folded),
        Err(_) => false,
    }
}

/// Checkpoints that a mutator waits for: until waits are ended, to a thaw, and to a cancel.
fn awaits<R: Threads + Wait + Clock + Files + Alloc + Sync>(
    rt: &R,
    shared: &Shared<Store>,
    mutator: &mut Mutator<'_>,
    told: &mut Told,
) -> bool {
    awaits_each(rt, shared, mutator)
        && told.keep_ack(1)
        && told.keep_ack(2)
        && told.keep_ack(3)
        && wakes_by_a_cancel(rt, shared, mutator, &mut told.acks)
}

/// A checkpoint beside two mutators, and a merge after it.
fn merges_beside<R: Threads + Wait + Clock + Abort + Sync>(
    rt: &R,
    alloc: Global,
    shared: &Shared<Store>,
    way: Way,
    mutators: (&mut Mutator<'_>, &mut Mutator<'_>),
    told: &mut Told,
) -> bool {
    saves_beside(rt, alloc, shared, mutators, way)
        && is_merged(Job::Merging.make(rt, shared, &Free), 3)
        && told.keep_ack(1)
}

/// Does what a case says that needs no mutator.
fn acts_alone<R: Threads + Wait + Clock + Sync>(
    rt: &R,
    shared: &Shared<Store>,
    case: Case,
    told: &mut Told,
) -> bool {
    match case {
        Case::Merged => saves(rt, shared, told) && merges_in_13_calls(rt, shared),
        Case::Relayed => {
            writes_beside(rt, shared)
                && saves_in_16_calls(rt, shared)
                && told.keep_ack(1)
                && told.keep_ack(2)
        }
        Case::RelayFalls => falls_beside(rt, shared) && told.keep_ack(2),
        Case::TwentyPages => writes_twenty_pages(rt, shared) && told.keep_ack(1),
        Case::Trimmed => saves(rt, shared, told) && trims(rt, shared, told),
        _ => saves(rt, shared, told),
    }
}

/// Does what a case says, by two mutators, after the commands that map the pages. Returns whether all went as it
/// should.
fn acts<R: Threads + Wait + Clock + Files + Alloc + Abort + Sync>(
    rt: &R,
    alloc: Global,
    shared: &Shared<Store>,
    case: Case,
    mutators: (&mut Mutator<'_>, &mut Mutator<'_>),
    told: &mut Told,
) -> bool {
    match case {
        Case::Beside(way) => merges_beside(rt, alloc, shared, way, mutators, told),
        Case::Falls => falls(rt, shared, mutators.0),
        Case::Awaited => awaits(rt, shared, mutators.0, told),
        Case::Cancelled => cancels_beside(rt, shared, mutators.0, &mut told.acks),
        _ => acts_alone(rt, shared, case, told),
    }
}

/// Leaves out a receipt, or adds an acknowledgement, where a case says so.
fn spoil(case: Case, told: &mut Told) {
    match case {
        Case::LacksReceipt => {
            drop(told.receipts.pop());
            told.fault = Some(CloseFault::Count);
        }
        Case::TellsMore => {
            let _ = told.keep_ack(2);
            told.fault = Some(CloseFault::Acks);
        }
        _ => {}
    }
}

/// Maps the pages of two mutators, and does what a case says. Returns whether all went as it should, the receipts are
/// kept, and what was folded accounts for those of its entries.
fn works_by<R: Threads + Wait + Clock + Files + Alloc + Abort + Sync>(
    rt: &R,
    alloc: Global,
    shared: &Shared<Store>,
    case: Case,
    mutators: (&mut Mutator<'_>, &mut Mutator<'_>),
    told: &mut Told,
) -> bool {
    let (first, last) = mutators;
    first.prepare(rt, alloc, shared, case.pages())
        && acts(rt, alloc, shared, case, (&mut *first, &mut *last), told)
        && told.take(first.take(alloc))
        && told.take(last.take(alloc))
        && told.are_folded(alloc)
}

/// Does what a case says by two seats.
fn works_by_two<R: Threads + Wait + Clock + Files + Alloc + Abort + Sync>(
    rt: &R,
    alloc: Global,
    shared: &Shared<Store>,
    seats: &mut [Seat],
    case: Case,
    told: &mut Told,
) -> bool {
    let mut seats = seats.iter_mut();
    match (seats.next(), seats.next()) {
        (Some(low), Some(high)) => {
            let mut first = Mutator::new(alloc, low);
            let mut last = Mutator::new(alloc, high);
            works_by(rt, alloc, shared, case, (&mut first, &mut last), told)
        }
        _ => false,
    }
}

/// Opens the store of a shared core, and does what a case says. Returns what was answered, and whether all went as it
/// should.
fn work<R: Threads + Wait + Clock + Files + Alloc + Abort + Sync>(
    rt: &R,
    alloc: Global,
    shared: &Shared<Store>,
    seats: &mut [Seat],
    case: Case,
) -> Result<(Told, bool), AllocError> {
    let mut told = Told::new(alloc)?;
    let opened = is_opened(Job::Opening.make(rt, shared, &Free));
    if let Case::Random(seed) = case {
        let (told, played) = plays(rt, alloc, shared, seats, seed, told);
        return Ok((told, opened && played));
    }
    let worked = works_by_two(rt, alloc, shared, seats, case, &mut told);
    spoil(case, &mut told);
    Ok((told, opened && worked))
}

/// What an audit returns, again where memory is refused once.
fn audit_again<D: Disk>(alloc: Global, core: &Core, disk: &mut D) -> Result<bool, Fault> {
    match audit(alloc, core, disk) {
        Err(Fault::OutOfMemory) => audit(alloc, core, disk),
        found => found,
    }
}

/// Whether the run's own disk shows what its journal allows, and an empty one, as one that dropped all that it was
/// given, only where nothing was acknowledged.
fn audits(alloc: Global, core: &Core, disk: &mut Store, acks: &[u64]) -> bool {
    let Ok(mut other) = empty(alloc, 8, 0) else {
        return false;
    };
    let is_empty = core.base_number().is_none() && acks.is_empty();
    is_shown(audit_again(alloc, core, disk), true)
        && is_shown(audit_again(alloc, core, &mut other), is_empty)
}

/// Whether an audit says that.
fn is_shown(found: Result<bool, Fault>, wanted: bool) -> bool {
    match found {
        Ok(shown) => shown == wanted,
        Err(_) => false,
    }
}

/// Closes with what was said. Returns whether that is answered as it says, and the disk shows what it is to.
fn closes(alloc: Global, shared: Shared<Store>, told: &Told) -> bool {
    match shared.close(&told.receipts, &told.acks) {
        Ok((core, mut disk)) => {
            let audited = audits(alloc, &core, &mut disk, &told.acks);
            core.discard();
            audited && told.fault.is_none()
        }
        Err(fault) => told.fault == Some(fault),
    }
}

/// Does what a case says, and closes. Returns whether all went as it should.
fn runs<R: Threads + Wait + Clock + Files + Alloc + Abort + Sync>(
    rt: &R,
    alloc: Global,
    case: Case,
) -> Result<bool, Fail> {
    let (shared, mut seats) = open(alloc, case)?;
    match work(rt, alloc, &shared, &mut seats, case) {
        Ok((told, worked)) => Ok(closes(alloc, shared, &told) && worked),
        Err(_) => {
            shared.discard();
            Err(Fail::from("out of memory"))
        }
    }
}

/// Whether all went as it should in each of these cases.
fn run_each<R: Threads + Wait + Clock + Files + Alloc + Abort + Sync>(
    rt: &R,
    alloc: Global,
    cases: &[Case],
) -> Result<(), Fail> {
    for (place, case) in cases.iter().enumerate() {
        assert!(rt; runs(rt, alloc, *case)?, "case {place}");
    }
    Ok(())
}

/// What is closed: a checkpoint, a receipt too few, an acknowledgement too many, a merge and a trim after a checkpoint.
const CLOSED: &[Case] = &[
    Case::Saved,
    Case::LacksReceipt,
    Case::TellsMore,
    Case::Merged,
    Case::Trimmed,
];

#[test]
fn what_was_told_closes_or_is_a_fault(rt: HostRuntime) -> Result<(), Fail> {
    run_each(&rt, rt.alloc(), CLOSED)
}

/// Two mutators store while the dumper's first page write is held.
#[test]
fn threads(rt: HostRuntime) -> Result<(), Fail> {
    run_each(&rt, rt.alloc(), &[Case::Beside(Way::Waits)])
}

/// Two mutators that try again where the lock isn't free; another thread that cancels the checkpoint, and makes one:
/// the first dumper is answered as idle, and nothing stays frozen.
const BESIDE: &[Case] = &[Case::Beside(Way::Tries), Case::Cancelled];

#[test]
fn threads_beside_a_dumper(rt: HostRuntime) -> Result<(), Fail> {
    run_each(&rt, rt.alloc(), BESIDE)
}

/// The device fails while all is frozen, and whoever waits for the thaw is answered that the store is down; and a
/// thread that waits for the thaw sleeps meanwhile, and a cancel wakes it.
const WAITS: &[Case] = &[Case::Falls, Case::Awaited];

#[test]
fn a_wait_sleeps_until_it_is_woken(rt: HostRuntime) -> Result<(), Fail> {
    run_each(&rt, rt.alloc(), WAITS)
}

/// Two pages are written beside each other, each by a thread of its own, and a checkpoint after that has its pre-dump;
/// and a write fails that another thread makes.
const WRITERS: &[Case] = &[Case::Relayed, Case::RelayFalls];

#[test]
fn two_writers(rt: HostRuntime) -> Result<(), Fail> {
    run_each(&rt, rt.alloc(), WRITERS)
}

/// Twenty pages are written by eight threads, each write delayed by another length.
#[test]
fn twenty_pages(rt: HostRuntime) -> Result<(), Fail> {
    run_each(&rt, rt.alloc(), &[Case::TwentyPages])
}

/// Ten runs of eight seats, of another seed each time.
#[test]
fn eight_seats_at_random(rt: HostRuntime) -> Result<(), Fail> {
    let begun = SystemTime::now(&rt)?.duration_since(SystemTime::UNIX_EPOCH);
    let seed = match begun {
        Ok(since) => u64::from(since.subsec_nanos()),
        Err(_) => 1,
    };
    for number in 0..RUNS {
        let case = Case::Random(seed.wrapping_add(number));
        assert!(rt; runs(&rt, rt.alloc(), case)?, "seed {seed}, run {number}");
    }
    Ok(())
}
