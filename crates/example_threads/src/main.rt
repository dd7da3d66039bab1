//! `example_threads DIR`: eight threads fill a table in the memory of a space, each a row of its own, while another one
//! makes checkpoints of that memory, and merges the images of the first. Afterwards the journal is compared with what
//! each thread was answered, and what the store shows with the table. The store stands in DIR, and is made where it is
//! missing; without an argument it is in memory.
#![tactic(auto)]

mod row;
mod saving;
mod table;

use anyhow::{Error, Result, anyhow, bail, ensure};
use row::Row;
use saving::{save, save_beside};
use sd_command::Refusal;
use sd_disk::{DirDisk, Disk, Folder, Found, MemDisk};
use sd_journal::Receipt;
use sd_restore::restore;
use sd_shared::{Seat, Shared};
use std::alloc::{AllocError, AllocGlobal, Global};
use std::sync::Wait;
use std::thread;
use std::thread::Threads;
use table::{COLUMNS, ROWS, TOTAL, has_table};

/// What the threads were answered.
#[derive(Drop)]
struct Told {
    receipts: Vec<Receipt>,
    /// The numbers of the checkpoints that were acknowledged.
    acks: Vec<u64>,
    /// The sum of all numbers that were loaded.
    sum: u64,
}

fn refused(why: Refusal) -> Error {
    anyhow!("refused {why}")
}

/// The rows of so many seats.
fn rows_of(alloc: Global, seats: Vec<Seat>) -> Result<Vec<Row>, AllocError> {
    let mut rows = Vec::with_capacity(alloc, seats.len())?;
    for seat in seats {
        rows.push(Row::new(alloc, seat))?;
    }
    Ok(rows)
}

/// Maps the table's pages, by the first seat.
fn prepare<D: Disk + Drop>(
    rt: &impl Wait,
    shared: &Shared<D>,
    rows: &mut [Row],
) -> Result<(), Refusal> {
    match rows.first_mut() {
        Some(first) => first.map_table(rt, shared),
        None => Ok(()),
    }
}

/// Fills each row in a thread of its own, beside three checkpoints, and makes a fourth one after that. Returns the
/// numbers under which they were acknowledged.
fn fill_and_save<R: Threads + Wait + Sync, D: Disk + Drop + Send>(
    rt: &R,
    alloc: Global,
    shared: &Shared<D>,
    rows: &mut [Row],
) -> Result<Vec<u64>, Refusal> {
    prepare(rt, shared, rows)?;
    let (saved, ()) = thread::join(
        rt,
        || save_beside(rt, alloc, shared),
        || { thread::for_each_mut(rt, rows, ROWS, &|_index, row| { row.fill(rt, shared) }) },
    );
    let mut acks = saved?;
    if acks.push(save(rt, shared, 0)?).is_err() {
        return Err(Refusal::OutOfMemory);
    }
    Ok(acks)
}

/// Lets the threads of all seats work, and gathers what they were answered.
fn work<R: Threads + Wait + Sync, D: Disk + Drop + Send>(
    rt: &R,
    alloc: Global,
    shared: &Shared<D>,
    seats: Vec<Seat>,
) -> Result<Told> {
    let mut rows = rows_of(alloc, seats)?;
    let acks = fill_and_save(rt, alloc, shared, &mut rows).map_err(refused)?;
    let mut told = Told {
        receipts: Vec::new(alloc),
        acks,
        sum: 0,
    };
    for mut row in rows {
        row.is_full().map_err(refused)?;
        told.sum = told.sum.wrapping_add(row.sum());
        told.receipts.append(&mut row.receipts)?;
    }
    Ok(told)
}

/// Reads the memory that the store shows, and looks for the table in it.
fn shows_table(alloc: Global, disk: &mut impl Disk) -> Result<()> {
    match restore(alloc, disk) {
        Ok(snapshot) => ensure!(has_table(&snapshot), "the store shows something else"),
        Err(fault) => bail!("the store can't be restored: {fault}"),
    }
    Ok(())
}

/// Compares the journal with what the threads were answered, and what the store shows with the table.
fn check<D: Disk + Drop>(
    rt: &(impl Print + AllocGlobal),
    shared: Shared<D>,
    told: &Told,
) -> Result<()> {
    let saved = told.acks.len();
    let (core, mut disk) = match shared.close(&told.receipts, &told.acks) {
        Ok(parts) => parts,
        Err(fault) => bail!("the journal doesn't account for what was told: {fault:?}"),
    };
    core.discard();
    ensure!(told.sum == TOTAL, "what was loaded adds up to {}", told.sum);
    println!(rt;
        "{ROWS} threads filled {ROWS} rows of {COLUMNS} numbers, and loaded each back: {TOTAL} in all"
    )?;
    println!(rt;
        "the journal accounts for what each of them was told, and for {saved} checkpoints"
    )?;
    shows_table(rt.alloc(), &mut disk)?;
    println!(rt; "the store shows the table")?;
    Ok(())
}

/// Fills the table over a store, and checks what came of it.
fn fill_table<R: Threads + Wait + Sync + Print + AllocGlobal, D: Disk + Drop + Send>(
    rt: &R,
    disk: D,
) -> Result<()> {
    let (shared, seats) = match Shared::start(rt.alloc(), disk, 16, ROWS) {
        Ok(started) => started,
        Err(error) => bail!("the store isn't opened: {}", error.fault),
    };
    match work(rt, rt.alloc(), &shared, seats) {
        Ok(told) => check(rt, shared, &told),
        Err(error) => {
            shared.discard();
            Err(error)
        }
    }
}

/// The store in a folder, which is made where it is missing.
fn folder_disk(rt: &HostRuntime, folder: &str, found: Found) -> Result<DirDisk> {
    Ok(DirDisk::over(Folder::open(rt, folder, true)?, found))
}

fn main(rt: HostRuntime) -> Result<()> {
    let words: Vec<String> = std::env::args(&rt)?.collect(rt.alloc())?;
    let found = Found::any(); // for the proof alone: whatever the files hold
    match words.get(1) {
        Some(folder) => fill_table(&rt, folder_disk(&rt, folder, found)?),
        None => fill_table(&rt, MemDisk::new(rt.alloc(), 16, 100_000, 10_000)?),
    }
}
