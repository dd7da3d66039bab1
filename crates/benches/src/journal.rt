//! A journal that is filled.
use crate::ended::Ended;
use sd_areas::SpaceId;
use sd_command::{Bytes, Command, Reply};
use sd_journal::{Entry, Journal};
use std::alloc::{AllocError, Global};

/// An entry of a store of 8 bytes.
fn entry(alloc: Global, number: u64) -> Result<Entry, AllocError> {
    let bytes = Bytes::new(Vec::from_array(alloc, number.to_le_bytes())?);
    Ok(Entry::Applied {
        seat: 0,
        command: Command::Store {
            space: SpaceId::new(1),
            address: 0x10000,
            bytes,
        },
        reply: Reply::Done,
    })
}

/// Adds stores to a journal until it is full.
fn fill(alloc: Global, journal: &mut Journal) -> Result<(), AllocError> {
    for number in 0..u64::MAX {
        if journal.free() == 0 {
            return Ok(());
        }
        journal.reserve()?;
        journal.append(entry(alloc, number)?);
    }
    Ok(())
}

/// Fills a journal, and says how many entries it has.
pub(crate) fn timed(alloc: Global) -> Ended {
    let mut journal = Journal::new(alloc);
    match fill(alloc, &mut journal) {
        Ok(()) => Ended::Counted(journal.next_number(), "entries"),
        Err(AllocError) => Ended::Failed("out of memory"),
    }
}
