//! The ledger: numbers of eight bytes each in two pages of a space. The first is how many transfers there were, and
//! after it stand the accounts.
use anyhow::{Result, bail, ensure};
use sd_areas::{Prot, SpaceId};
use sd_command::{Bytes, Command, Reply};
use sd_disk::Disk;
use sd_world::{Event, World};
use std::alloc::Global;

/// The space of a new store.
const SPACE: u64 = 1;

/// The address of the ledger, and its length in bytes.
const ADDRESS: u64 = 0x10000;

const LENGTH: u64 = 8192;

/// The place of the number of transfers.
const TRANSFERS: u16 = 0;

/// How many accounts there are, from place 1 on, and what each has at first.
const ACCOUNTS: u16 = 1023;

const AMOUNT: u64 = 1000;

/// Makes the ledger where the store shows none, and checks the sum of its accounts. Returns how many transfers it had.
pub fn open_ledger<D: Disk>(alloc: Global, world: &mut World<D>) -> Result<u64> {
    if world.core().base_number().is_none() {
        make_ledger(alloc, world)?;
    }
    let sum = sum_of_accounts(world)?;
    ensure!(sum == AMOUNT * u64::from(ACCOUNTS), "the sum is {sum}");
    number_at(world, TRANSFERS)
}

/// Moves an amount from one account to another, where it has so much.
pub fn transfer<D: Disk>(alloc: Global, world: &mut World<D>, number: u64) -> Result<()> {
    let from = account(number.wrapping_mul(7));
    let to = account(number.wrapping_mul(13).wrapping_add(5));
    let amount = number % 10;
    if let Some(left) = number_at(world, from)?.checked_sub(amount) {
        put_number(alloc, world, from, left)?;
        let had = number_at(world, to)?;
        put_number(alloc, world, to, had.wrapping_add(amount))?;
    }
    put_number(alloc, world, TRANSFERS, number.wrapping_add(1))
}

/// An account that a number stands for.
fn account(number: u64) -> u16 {
    (number % u64::from(ACCOUNTS) + 1) as u16
}

fn make_ledger<D: Disk>(alloc: Global, world: &mut World<D>) -> Result<()> {
    let prot = Prot {
        read: true,
        write: true,
        execute: false,
    };
    let map = Command::Mmap {
        space: SpaceId::new(SPACE),
        address: ADDRESS,
        length: LENGTH,
        prot,
    };
    command(world, map)?;
    for account in 1..=ACCOUNTS {
        put_number(alloc, world, account, AMOUNT)?;
    }
    Ok(())
}

fn sum_of_accounts<D: Disk>(world: &World<D>) -> Result<u64> {
    let mut sum = 0u64;
    for account in 1..=ACCOUNTS {
        sum = sum.wrapping_add(number_at(world, account)?);
    }
    Ok(sum)
}

/// Loads a number. A load through the world, as a command, would stand in its journal.
fn number_at<D: Disk>(world: &World<D>, place: u16) -> Result<u64> {
    let mut bytes = [0; 8];
    world.core().memory().load(
        SpaceId::new(SPACE),
        ADDRESS + u64::from(place) * 8,
        &mut bytes,
    )?;
    Ok(u64::from_le_bytes(bytes))
}

/// Stores a number.
fn put_number<D: Disk>(alloc: Global, world: &mut World<D>, place: u16, number: u64) -> Result<()> {
    let store = Command::Store {
        space: SpaceId::new(SPACE),
        address: ADDRESS + u64::from(place) * 8,
        bytes: Bytes::new(Vec::from_array(alloc, number.to_le_bytes())?),
    };
    command(world, store)
}

/// Makes a command of seat 0, which has to be done.
fn command<D: Disk>(world: &mut World<D>, command: Command) -> Result<()> {
    match world.step(&Event::Command { seat: 0, command }) {
        Reply::Done => Ok(()),
        reply => bail!("a command was answered {reply}"),
    }
}
