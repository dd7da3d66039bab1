//! Calls of one seat, and the same commands as events of a world. Neither is dropped: the process ends with it.
use super::place::{call, done, mmap, store};
use sd_command::{Command, Refusal};
use sd_disk::MemDisk;
use sd_shared::{Seat, Shared};
use sd_world::{Event, World};
use std::alloc::Global;
use std::mem::forget;
use std::sync::Wait;

/// A small store in memory.
fn small(alloc: Global) -> Result<MemDisk, Refusal> {
    match MemDisk::new(alloc, 2, 10_000, 100) {
        Ok(disk) => Ok(disk),
        Err(_) => Err(Refusal::OutOfMemory),
    }
}

/// Maps a page, and makes so many stores by a seat.
fn call_all(
    rt: &impl Wait,
    alloc: Global,
    shared: &Shared<MemDisk>,
    seat: &mut Seat,
    count: u64,
) -> Result<(), Refusal> {
    call(rt, shared, seat, mmap(1))?;
    for number in 0..count {
        call(rt, shared, seat, store(alloc, 0, (number % 256) as u8)?)?;
    }
    Ok(())
}

/// Makes so many stores by the first seat.
fn call_by_first(
    rt: &impl Wait,
    alloc: Global,
    shared: &Shared<MemDisk>,
    seats: &mut [Seat],
    count: u64,
) -> Result<(), Refusal> {
    match seats.first_mut() {
        Some(seat) => call_all(rt, alloc, shared, seat, count),
        None => Err(Refusal::NotOpen),
    }
}

/// Makes so many stores by one seat of a shared core.
pub(crate) fn make_calls(rt: &impl Wait, alloc: Global, count: u64) -> Result<(), Refusal> {
    match Shared::open(alloc, small(alloc)?, 16, 1) {
        Ok((shared, mut seats)) => {
            let made = call_by_first(rt, alloc, &shared, &mut seats, count);
            forget(shared);
            made
        }
        Err(_) => Err(Refusal::NotOpen),
    }
}

/// Makes a command as an event of a world.
fn step(world: &mut World<MemDisk>, command: Command) -> Result<(), Refusal> {
    done(world.step(&Event::Command { seat: 0, command }))
}

/// Maps a page, and makes so many stores as events of a world.
fn step_all(alloc: Global, world: &mut World<MemDisk>, count: u64) -> Result<(), Refusal> {
    step(world, mmap(1))?;
    for number in 0..count {
        step(world, store(alloc, 0, (number % 256) as u8)?)?;
    }
    Ok(())
}

/// Makes so many stores as events of a world.
pub(crate) fn make_steps(alloc: Global, count: u64) -> Result<(), Refusal> {
    match World::open(alloc, small(alloc)?, 16) {
        Ok(mut world) => {
            let made = step_all(alloc, &mut world, count);
            forget(world);
            made
        }
        Err(_) => Err(Refusal::NotOpen),
    }
}
