//! A seat that makes commands, and keeps its receipts.
use crate::cases::Store;
use crate::replies::{has_bytes, refusal_in};
use sd_areas::{Prot, SpaceId};
use sd_command::{Bytes, Command, Refusal};
use sd_journal::Receipt;
use sd_shared::{Seat, Shared};
use std::alloc::{AllocError, Global};
use std::mem;
use std::sync::Wait;

/// The first address of the pages.
const FIRST: u64 = 0x10_0000;

/// How a mutator makes its commands.
#[derive(Clone, Copy)]
pub(crate) enum Way {
    /// It waits for the lock.
    Waits,
    /// It is refused where the lock isn't free.
    Tries,
    /// It waits for the lock, and for the thaw.
    Thawed,
}

/// A seat, and the receipts of its commands.
#[derive(Drop)]
pub(crate) struct Mutator<'a> {
    seat: &'a mut Seat,
    receipts: Vec<Receipt>,
}

impl<'a> Mutator<'a> {
    /// A seat that has made no command.
    pub(crate) fn new(alloc: Global, seat: &'a mut Seat) -> Mutator<'a> {
        Mutator {
            seat,
            receipts: Vec::new(alloc),
        }
    }
}

impl Mutator<'_> {
    /// Makes room for a receipt, where memory is refused once at most. Returns whether there is some.
    fn make_room(&mut self) -> bool {
        self.receipts.reserve(1).is_ok() || self.receipts.reserve(1).is_ok()
    }

    /// Keeps a receipt. Returns why its command was refused, if it was.
    fn keep(&mut self, receipt: Receipt) -> Option<Refusal> {
        let why = refusal_in(&receipt.reply);
        match self.receipts.push(receipt) {
            Ok(()) => why,
            Err(_) => Some(Refusal::OutOfMemory),
        }
    }

    /// Keeps what was made of a command. Returns why it was refused, if it was.
    fn note(&mut self, made: Result<Receipt, Refusal>) -> Option<Refusal> {
        match made {
            Ok(receipt) => self.keep(receipt),
            Err(why) => Some(why),
        }
    }

    /// Takes its receipts.
    pub(crate) fn take(&mut self, alloc: Global) -> Vec<Receipt> {
        mem::replace(&mut self.receipts, Vec::new(alloc))
    }

    /// Whether the last reply has a number's bytes.
    pub(crate) fn has_loaded(&self, number: u64) -> bool {
        match self.receipts.last() {
            Some(receipt) => has_bytes(&receipt.reply, number),
            None => false,
        }
    }

    /// Makes a command in one of the ways. Returns why it was refused, or wasn't journaled, if so.
    pub(crate) fn make_by(
        &mut self,
        rt: &impl Wait,
        shared: &Shared<Store>,
        way: Way,
        command: Command,
    ) -> Option<Refusal> {
        if !self.make_room() {
            return Some(Refusal::OutOfMemory);
        }
        let made = match way {
            Way::Waits => shared.call(rt, self.seat, command),
            Way::Tries => shared.try_call(self.seat, command),
            Way::Thawed => shared.call_thawed(rt, self.seat, command),
        };
        self.note(made)
    }

    /// Makes a command, for which it waits for the lock. Returns why it was refused, or wasn't journaled, if so.
    pub(crate) fn make(
        &mut self,
        rt: &impl Wait,
        shared: &Shared<Store>,
        command: Command,
    ) -> Option<Refusal> {
        self.make_by(rt, shared, Way::Waits, command)
    }

    /// Makes one of the first commands, again where memory is refused once. Returns whether it was done.
    fn make_first(
        &mut self,
        rt: &impl Wait,
        alloc: Global,
        shared: &Shared<Store>,
        first: First,
    ) -> bool {
        for _ in 0..2 {
            if let Ok(command) = first.command(alloc)
                && self.make(rt, shared, command).is_none()
            {
                return true;
            }
        }
        false
    }

    /// Maps so many pages, and stores a number into each. Returns whether that was done.
    pub(crate) fn prepare(
        &mut self,
        rt: &impl Wait,
        alloc: Global,
        shared: &Shared<Store>,
        pages: u64,
    ) -> bool {
        let mut done = self.make_first(rt, alloc, shared, First::Map(pages));
        for page in 0..pages {
            done = done && self.make_first(rt, alloc, shared, First::Store(page));
        }
        done
    }
}

/// The commands that come before a case.
#[derive(Clone, Copy)]
enum First {
    /// So many pages are mapped.
    Map(u64),
    /// A number is stored into a page.
    Store(u64),
}

impl First {
    fn command(self, alloc: Global) -> Result<Command, Refusal> {
        match self {
            First::Map(pages) => Ok(mmap(pages)),
            First::Store(page) => store(alloc, page, 7),
        }
    }
}

/// Readable and writable pages of space 1.
pub(crate) fn mmap(pages: u64) -> Command {
    Command::Mmap {
        space: SpaceId::new(1),
        address: FIRST,
        length: pages.saturating_mul(4096),
        prot: Prot {
            read: true,
            write: true,
            execute: false,
        },
    }
}

fn address_of(page: u64) -> u64 {
    FIRST.saturating_add(page.saturating_mul(4096))
}

/// Room for eight bytes, where memory is refused once at most.
fn room_for_8(alloc: Global) -> Result<Vec<u8>, AllocError> {
    match Vec::with_capacity(alloc, 8) {
        Ok(room) => Ok(room),
        Err(_) => Vec::with_capacity(alloc, 8),
    }
}

fn bytes_of(alloc: Global, number: u64) -> Result<Bytes, AllocError> {
    let mut bytes = room_for_8(alloc)?;
    for byte in number.to_le_bytes() {
        bytes.push(byte)?;
    }
    Ok(Bytes::new(bytes))
}

/// A store of a number at the start of a page.
pub(crate) fn store(alloc: Global, page: u64, number: u64) -> Result<Command, Refusal> {
    match bytes_of(alloc, number) {
        Ok(bytes) => Ok(Command::Store {
            space: SpaceId::new(1),
            address: address_of(page),
            bytes,
        }),
        Err(_) => Err(Refusal::OutOfMemory),
    }
}

/// A load of the number at the start of a page.
pub(crate) fn load(page: u64) -> Command {
    Command::Load {
        space: SpaceId::new(1),
        address: address_of(page),
        count: 8,
    }
}
