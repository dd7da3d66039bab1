//! A memory and a disk, and a dumper between them.
use sd_areas::{PAGE_BYTES, PAGE_SIZE, PageNo, Prot, SpaceId};
use sd_disk::{Disk, MemDisk};
use sd_gate::{Request, SlotState, perform};
use sd_image::GATE;
use sd_pagetable::{Memory, SECTOR_SIZE, SECTORS};
use sd_rounds::{Dumper, ImageStep, PageBuffers, Progress};
use sd_writing::NextImage;
use std::alloc::{AllocError, Global};

/// How many pages are mapped.
const PAGES: u64 = 65_536;

/// How many of them are touched: one of each sixteen.
pub(crate) const TOUCHED: u64 = 4_096;

const STEP: u64 = PAGES / TOUCHED;

/// Room for an image of the touched pages: a header, the pages, and a table with two runs for each.
const ROOM: usize = PAGE_SIZE * (TOUCHED as usize + 100);

/// The slot that is written plainly, and dumped to.
const SLOT: usize = 1;

const READ_WRITE: Prot = Prot {
    read: true,
    write: true,
    execute: false,
};

/// A memory of many clean pages, a disk, and a dumper between them.
#[derive(Drop)]
pub(crate) struct Bench {
    alloc: Global,
    pub(crate) memory: Memory,
    pub(crate) disk: MemDisk,
    dumper: Dumper,
    pub(crate) buffer: Vec<u8>,
    serial: u64,
    checkpoint: u64,
}

/// The one space.
fn only_space() -> SpaceId {
    SpaceId::new(1)
}

/// Maps all pages.
fn map(memory: &mut Memory) -> bool {
    memory
        .mmap(only_space(), 0, PAGES * PAGE_BYTES, READ_WRITE)
        .is_ok()
}

/// Stores to a page.
fn store(memory: &mut Memory, address: u64) -> bool {
    memory
        .store_now(only_space(), address, &[1, 2, 3, 4, 5, 6, 7, 8])
        .is_ok()
}

/// Stores to the pages that are touched.
pub(crate) fn touch(memory: &mut Memory) -> bool {
    for page in 0..TOUCHED {
        if !store(memory, page * STEP * PAGE_BYTES) {
            return false;
        }
    }
    true
}

/// Finds, reads and clears the word of each page.
pub(crate) fn look_up(memory: &mut Memory) -> bool {
    let mut after = None;
    for _ in 0..PAGES {
        let Some((space, page)) = memory.next_page(after) else {
            return true;
        };
        let _word = memory.word(space, page);
        let _bit = memory.test_and_clear(space, page);
        after = Some((space, page));
    }
    true
}

/// Reads a page into the buffer.
fn read_page(memory: &Memory, buffer: &mut Vec<u8>, number: u64) -> Result<(), AllocError> {
    buffer.clear();
    let Some(page) = PageNo::new(number) else {
        return Ok(());
    };
    for number in 0..SECTORS {
        let mut sector = [0; SECTOR_SIZE];
        memory.read_sector(only_space(), page, number, &mut sector);
        buffer.extend_from_slice(&sector)?;
    }
    Ok(())
}

/// Writes bytes into the slot.
pub(crate) fn write(disk: &mut MemDisk, at: usize, bytes: &[u8]) -> bool {
    SLOT < disk.slots() && !bytes.is_empty() && disk.write_at(SLOT, at, bytes).is_ok()
}

/// Makes what is in the slot durable.
fn sync(disk: &mut MemDisk) -> bool {
    SLOT < disk.slots() && disk.sync(SLOT).is_ok()
}

/// Cuts the slot down to its gate.
fn cut(disk: &mut MemDisk) -> bool {
    SLOT < disk.slots() && disk.cut(SLOT, 1).is_ok()
}

/// Closes and cuts the slot.
fn clear_slot(disk: &mut MemDisk) -> bool {
    write(disk, 0, &[0]) && sync(disk) && cut(disk)
}

/// Makes the slot's pages durable, and opens it.
fn open_slot(disk: &mut MemDisk) -> bool {
    sync(disk) && write(disk, 0, &[GATE]) && sync(disk)
}

/// Closes, cuts and opens the slot, as an image without pages does.
pub(crate) fn empty_slot(disk: &mut MemDisk) -> bool {
    clear_slot(disk) && open_slot(disk)
}

/// Reads a page, and writes it into the slot.
fn copy_page(memory: &Memory, disk: &mut MemDisk, buffer: &mut Vec<u8>, page: u64) -> bool {
    let at = PAGE_SIZE.saturating_mul((page as usize).saturating_add(1));
    read_page(memory, buffer, page.saturating_mul(STEP)).is_ok() && write(disk, at, buffer)
}

/// Reads the pages that are touched, and writes them, with the syncs and the cut that a dump makes.
pub(crate) fn copy_touched(memory: &Memory, disk: &mut MemDisk, buffer: &mut Vec<u8>) -> bool {
    if !clear_slot(disk) {
        return false;
    }
    for page in 0..TOUCHED {
        if !copy_page(memory, disk, buffer, page) {
            return false;
        }
    }
    open_slot(disk)
}

/// Makes a device call, and hands its outcome in. Returns whether the dump is open then, and nothing where the call
/// fails. It is apart from the steps, which need no room for a request.
#[inline(never)]
fn call(disk: &mut MemDisk, dumper: &mut Dumper, request: Request) -> Option<bool> {
    if disk.slots() <= request.id().slot {
        return None;
    }
    let outcome = perform(disk, request);
    match dumper.hand_in(outcome) {
        Progress::More | Progress::PreDump(_) => Some(false),
        Progress::Dump(_) => Some(true),
        Progress::Strange | Progress::Failed => None,
    }
}

/// Makes one step, with its device call. Returns whether the dump is open then, and nothing where it fails.
fn step(memory: &mut Memory, disk: &mut MemDisk, dumper: &mut Dumper, serial: u64) -> Option<bool> {
    let state = SlotState::Raw;
    match dumper.work(memory, NextImage { serial, state }, 1) {
        Ok(ImageStep::Visited(_) | ImageStep::Copied(_) | ImageStep::Frozen) => Some(false),
        Ok(ImageStep::Call(request))
        | Ok(ImageStep::PageCall { request, .. })
        | Ok(ImageStep::TableCall(request)) => call(disk, dumper, request),
        Err(_) => None,
    }
}

impl Bench {
    /// A memory without a page, a disk and a dumper.
    pub(crate) fn new(alloc: Global) -> Result<Self, AllocError> {
        Ok(Bench {
            alloc,
            memory: Memory::new(alloc, PAGES as usize)?,
            disk: MemDisk::new(alloc, 2, ROOM, usize::MAX)?,
            dumper: Dumper::new(alloc),
            buffer: Vec::new(alloc),
            serial: 1,
            checkpoint: 1,
        })
    }

    /// Gives the touched pages frames, and makes every page clean.
    pub(crate) fn begin(&mut self) -> bool {
        map(&mut self.memory) && touch(&mut self.memory) && look_up(&mut self.memory)
    }

    /// Begins a checkpoint with pre-dumps in so many slots, above the image before it.
    fn begin_dump(&mut self, pre_dumps: usize) -> Result<(), AllocError> {
        self.checkpoint = self.checkpoint.saturating_add(1);
        let slots = vec![in self.alloc; 0; pre_dumps]?;
        let buffers = PageBuffers::reserve(self.alloc)?;
        let _ = self
            .dumper
            .begin(self.checkpoint, slots, SLOT, self.serial, buffers);
        Ok(())
    }

    /// Makes a checkpoint with so many pre-dumps. Returns whether it is open at the end.
    pub(crate) fn dump(&mut self, pre_dumps: usize) -> bool {
        self.begin_dump(pre_dumps).is_ok() && self.go_on()
    }

    /// Makes steps until the dump is open, or one fails.
    fn go_on(&mut self) -> bool {
        for _ in 0..u64::MAX {
            if self.dumper.next_slot().is_some() {
                self.serial = self.serial.saturating_add(1);
            }
            match step(
                &mut self.memory,
                &mut self.disk,
                &mut self.dumper,
                self.serial,
            ) {
                Some(false) => {}
                Some(true) => return true,
                None => return false,
            }
        }
        false
    }
}
