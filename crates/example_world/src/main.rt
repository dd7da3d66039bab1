//! `example_world DIR COUNT`: a ledger of accounts in the memory of a space, over the store in DIR, which is made where
//! it is missing. Transfers keep the sum of the accounts, and each hundredth is saved. It goes on from what the store
//! shows, also where it was killed, until the ledger has had COUNT transfers. Without arguments the store is in memory.
#![tactic(auto)]

mod ledger;

use anyhow::{Error, Result, anyhow, bail};
use ledger::{open_ledger, transfer};
use sd_command::Refusal;
use sd_disk::{DirDisk, Disk, Folder, Found, MemDisk};
use sd_world::{Event, World};

/// Opens the store of a ledger and makes transfers until it has had so many. Each hundredth is saved.
fn keep_ledger<D: Disk + Drop>(rt: &HostRuntime, disk: D, wanted: u64) -> Result<()> {
    let mut world = World::start(rt.alloc(), disk, 16)?; // goes on from the memory that the store shows
    let had = open_ledger(rt.alloc(), &mut world)?; // maps two pages and fills them, in a new store
    println!(rt; "{had} transfers")?;
    for number in had..wanted {
        transfer(rt.alloc(), &mut world, number)?; // loads and stores numbers in the memory
        if number % 100 == 99 {
            save(&mut world)?; // from here on no crash takes it away
            println!(rt; "acked {}", number + 1)?;
        }
    }
    Ok(())
}

/// Saves the memory in one image, with what changed since the last one, and trims the journal. Each tenth time the
/// images are merged into one, so that neither their number nor the journal grows without end.
fn save<D: Disk>(world: &mut World<D>) -> Result<()> {
    let checkpoint = world.checkpoint(0).map_err(refused)?;
    world.step(&Event::Trim);
    if checkpoint % 10 == 0 {
        world.merge_now().map_err(refused)?;
    }
    Ok(())
}

fn refused(why: Refusal) -> Error {
    anyhow!("refused {why}")
}

/// The store in a folder.
fn folder_disk(rt: &HostRuntime, folder: &str, found: Found) -> Result<DirDisk> {
    Ok(DirDisk::over(Folder::open(rt, folder, true)?, found))
}

fn main(rt: HostRuntime) -> Result<()> {
    let words: Vec<String> = std::env::args(&rt)?.collect(rt.alloc())?;
    let found = Found::any(); // for the proof alone: whatever the files hold
    match (words.get(1), words.get(2)) {
        (Some(folder), Some(count)) => {
            keep_ledger(&rt, folder_disk(&rt, folder, found)?, count.parse::<u64>()?)
        }
        (Some(_), None) => bail!("usage: example_world [DIR COUNT]"),
        _ => keep_ledger(&rt, MemDisk::new(rt.alloc(), 16, 100_000, 10_000)?, 1250),
    }
}
