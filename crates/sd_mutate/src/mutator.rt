//! One thread that stores numbers into a page, and loads each back.
ghost use Rattle.std.specs.Prelude.{◌≡◌, ◌≢◌, ◌↔◌, IsTrue, OnOk};
ghost use Rattle.std.specs.Int.{to_le_bytes, w64};
ghost use Rattle.sd_command.specs.declared.reply.Reply.TheVariants as reply;
ghost use Rattle.sd_mutate.specs.Ending.{LoadedLast};
ghost use Rattle.sd_shared.specs.Turns.{turned};

use crate::tally::STORES;
use sd_areas::{PAGE_BYTES, Prot, SpaceId};
use sd_command::{Bytes, Command, Refusal, Reply};
use sd_disk::Disk;
use sd_journal::Receipt;
use sd_shared::{Seat, Shared};
use std::alloc::{AllocError, Global};
use std::sync::Wait;

/// The first address of the first mutator's page.
const FIRST: u64 = 0x10_0000;

/// A seat, its page, and what it was answered.
#[derive(Drop)]
pub(crate) struct Mutator {
    alloc: Global,
    seat: Seat,
    address: u64,
    pub(crate) receipts: Vec<Receipt>,
    /// How many numbers it stored and loaded back.
    pub(crate) stores: u64,
    /// Why it stopped, if it was stopped.
    pub(crate) stopped: Option<Refusal>,
}

/// The pages of so many mutators, readable and writable.
fn mmap(threads: usize) -> Command {
    Command::Mmap {
        space: SpaceId::new(1),
        address: FIRST,
        length: (threads as u64).saturating_mul(PAGE_BYTES),
        prot: Prot {
            read: true,
            write: true,
            execute: false,
        },
    }
}

/// The eight bytes of a number, the least first.
fn bytes_of(alloc: Global, number: u64) -> Result<Bytes, AllocError> {
    let mut bytes = Vec::with_capacity(alloc, 8)?;
    for byte in number.to_le_bytes() {
        bytes.push(byte)?;
    }
    Ok(Bytes::new(bytes))
}

/// Whether these are the eight bytes of a number.
fn are_bytes_of(bytes: &[u8], number: u64) -> bool
    ensures { IsTrue result ↔ (bytes.now ≡ to_le_bytes w64 number) }
{
    bytes == number.to_le_bytes().as_slice()
}

/// Whether a load was answered with a number's bytes.
fn is_loaded(told: &Reply, number: u64) -> bool
    ensures { IsTrue result → told.now ≡ reply.Bytes (to_le_bytes w64 number) }
{
    match told {
        Reply::Bytes(bytes) => are_bytes_of(bytes.as_slice(), number),
        _ => false,
    }
}

impl Mutator {
    /// The mutator of a seat, whose page is that of its number.
    pub(crate) fn new(alloc: Global, seat: Seat) -> Mutator {
        let page = seat.number() as u64;
        Mutator {
            alloc,
            seat,
            address: FIRST.saturating_add(page.saturating_mul(PAGE_BYTES)),
            receipts: Vec::new(alloc),
            stores: 0,
            stopped: None,
        }
    }

    /// Maps the pages of so many mutators.
    ///
    /// # Errors
    ///
    /// The refusal of the command.
    pub(crate) fn map_all<D: Disk + Drop>(
        &mut self,
        rt: &impl Wait,
        shared: &Shared<D>,
        threads: usize,
    ) -> Result<(), Refusal> {
        self.call(rt, shared, mmap(threads))?;
        Ok(())
    }

    /// Makes a command once nothing is frozen, and keeps its receipt, for which there is room before.
    fn call<D: Disk + Drop>(
        &mut self,
        rt: &impl Wait,
        shared: &Shared<D>,
        command: Command,
    ) -> Result<(), Refusal>
        ensures once { OnOk result (self.new.seat ≡ turned self.old.seat) }
        ensures same { self.new.stores ≡ self.old.stores }
    {
        let Ok(()) = self.receipts.try_reserve(1) else {
            return Err(Refusal::OutOfMemory);
        };
        let receipt = shared.call_thawed(rt, &mut self.seat, command)?;
        let refused = match receipt.reply {
            Reply::Refused(why) => Err(why),
            _ => Ok(()),
        };
        self.receipts.push_reserved(receipt);
        refused
    }

    /// The store of a number at the start of the page.
    fn store_command(&self, number: u64) -> Result<Command, Refusal> {
        match bytes_of(self.alloc, number) {
            Ok(bytes) => Ok(Command::Store {
                space: SpaceId::new(1),
                address: self.address,
                bytes,
            }),
            Err(_) => Err(Refusal::OutOfMemory),
        }
    }

    /// The load of the number that stands there.
    fn load_command(&self) -> Command {
        Command::Load {
            space: SpaceId::new(1),
            address: self.address,
            count: 8,
        }
    }

    /// Whether the last reply has a number's bytes.
    fn has_loaded(&self, number: u64) -> bool
        ensures { IsTrue result → LoadedLast self.now.receipts.items number }
    {
        match self.receipts.last() {
            Some(receipt) => is_loaded(&receipt.reply, number),
            None => false,
        }
    }

    /// Counts a number whose bytes the last reply has.
    fn count(&mut self, number: u64)
        ensures seat { self.new.seat ≡ self.old.seat }
        ensures compares { self.new.stores ≢ self.old.stores → LoadedLast self.new.receipts.items number }
    {
        if self.has_loaded(number) {
            self.stores = self.stores.saturating_add(1);
        }
    }

    /// Stores a number once, loads it back, and counts it where it came back.
    fn store<D: Disk + Drop>(
        &mut self,
        rt: &impl Wait,
        shared: &Shared<D>,
        number: u64,
    ) -> Result<(), Refusal>
        ensures twice { OnOk result (self.new.seat ≡ turned (turned self.old.seat)) }
        ensures compares { self.new.stores ≢ self.old.stores → LoadedLast self.new.receipts.items number }
    {
        self.call(rt, shared, self.store_command(number)?)?;
        self.call(rt, shared, self.load_command())?;
        self.count(number);
        Ok(())
    }

    /// Stores each number, and loads it back.
    pub(crate) fn run<D: Disk + Drop>(&mut self, rt: &impl Wait, shared: &Shared<D>) {
        for number in 1..=STORES {
            if let Err(why) = self.store(rt, shared, number) {
                self.stopped = Some(why);
                return;
            }
        }
    }
}
