//! A thread with a row of the table.
use crate::table::{COLUMNS, load_command, map_command, store_command, sum_of};
use sd_command::{Command, Refusal, Reply};
use sd_disk::Disk;
use sd_journal::Receipt;
use sd_shared::{Seat, Shared};
use std::alloc::Global;
use std::sync::Wait;

/// A row of the table, the seat under which its thread makes commands, and what those were answered.
#[derive(Drop)]
pub struct Row {
    alloc: Global,
    seat: Seat,
    pub receipts: Vec<Receipt>,
    /// Why it isn't full, if it isn't.
    refused: Option<Refusal>,
}

impl Row {
    /// The row of a seat, of which nothing is stored yet.
    pub fn new(alloc: Global, seat: Seat) -> Row {
        Row {
            alloc,
            seat,
            receipts: Vec::new(alloc),
            refused: None,
        }
    }

    /// Makes a command, and keeps the receipt of its entry in the journal, for which there is room before. While the
    /// memory is frozen for a checkpoint it waits for the thaw.
    fn call<D: Disk + Drop>(
        &mut self,
        rt: &impl Wait,
        shared: &Shared<D>,
        command: Command,
    ) -> Result<(), Refusal> {
        if self.receipts.try_reserve(1).is_err() {
            return Err(Refusal::OutOfMemory);
        }
        let receipt = shared.call_thawed(rt, &mut self.seat, command)?;
        let ended = match receipt.reply {
            Reply::Refused(why) => Err(why),
            _ => Ok(()),
        };
        self.receipts.push_reserved(receipt);
        ended
    }

    /// Maps the pages of all rows.
    pub fn map_table<D: Disk + Drop>(
        &mut self,
        rt: &impl Wait,
        shared: &Shared<D>,
    ) -> Result<(), Refusal> {
        self.call(rt, shared, map_command())
    }

    /// Stores the number at each place of the row, and loads it back.
    fn fill_places<D: Disk + Drop>(
        &mut self,
        rt: &impl Wait,
        shared: &Shared<D>,
    ) -> Result<(), Refusal> {
        let row = (self.seat.number() as u64).wrapping_add(1);
        for column in 1..=COLUMNS {
            let Ok(store) = store_command(self.alloc, row, column) else {
                return Err(Refusal::OutOfMemory);
            };
            self.call(rt, shared, store)?;
            self.call(rt, shared, load_command(row, column))?;
        }
        Ok(())
    }

    /// Fills the row, as far as nothing is refused.
    pub fn fill<D: Disk + Drop>(&mut self, rt: &impl Wait, shared: &Shared<D>) {
        self.refused = self.fill_places(rt, shared).err();
    }

    /// Whether each number was stored and loaded.
    ///
    /// # Errors
    ///
    /// Why one wasn't.
    pub fn is_full(&self) -> Result<(), Refusal> {
        match self.refused {
            Some(why) => Err(why),
            None => Ok(()),
        }
    }

    /// The sum of the numbers that its loads were answered.
    pub fn sum(&self) -> u64 {
        let mut sum = 0u64;
        for receipt in &self.receipts {
            if let Reply::Bytes(bytes) = &receipt.reply {
                sum = sum.wrapping_add(sum_of(bytes.as_slice()));
            }
        }
        sum
    }
}
