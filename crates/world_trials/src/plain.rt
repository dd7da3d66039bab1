//! A plain memory: what commands make, without frames, faults or bits.
use sd_areas::{PAGE_BYTES, PAGE_SIZE, PageNo, Prot, Snapshot, SnapshotPage, SpaceId};
use sd_command::{Command, Reply};
use std::alloc::{AllocError, Global};
use std::collections::BTreeMap;
use std::ops::Range;

/// A mapped page.
#[derive(PartialEq, Eq, Drop)]
struct PlainPage {
    space: SpaceId,
    page: PageNo,
    prot: Prot,
    bytes: Vec<u8>,
}

/// The living spaces, and their pages, in no order.
#[derive(Drop)]
pub(crate) struct Plain {
    alloc: Global,
    spaces: Vec<SpaceId>,
    pages: Vec<PlainPage>,
}

impl Plain {
    /// Space 1 alone, without pages.
    pub(crate) fn new(alloc: Global) -> Result<Self, AllocError> {
        let mut spaces = Vec::new(alloc);
        spaces.push(SpaceId::new(1))?;
        Ok(Plain {
            alloc,
            spaces,
            pages: Vec::new(alloc),
        })
    }

    /// The same memory once more.
    pub(crate) fn copy(&self) -> Result<Self, AllocError> {
        let mut copy = Plain::without_spaces(self.alloc);
        copy.add_all(self)?;
        Ok(copy)
    }

    fn without_spaces(alloc: Global) -> Self {
        Plain {
            alloc,
            spaces: Vec::new(alloc),
            pages: Vec::new(alloc),
        }
    }

    fn add_all(&mut self, other: &Plain) -> Result<(), AllocError> {
        self.spaces.extend_from_slice(&other.spaces)?;
        for own in &other.pages {
            self.pages.push(own.copy_in(self.alloc, own.space)?)?;
        }
        Ok(())
    }

    /// The memory of a snapshot.
    pub(crate) fn of_snapshot(alloc: Global, snapshot: &Snapshot) -> Result<Self, AllocError> {
        let mut plain = Plain::without_spaces(alloc);
        plain.add_snapshot(snapshot)?;
        Ok(plain)
    }

    fn add_snapshot(&mut self, snapshot: &Snapshot) -> Result<(), AllocError> {
        for (space, own) in &snapshot.spaces {
            self.spaces.push(*space)?;
            self.add_pages(*space, own)?;
        }
        Ok(())
    }

    fn add_pages(
        &mut self,
        space: SpaceId,
        own: &BTreeMap<PageNo, SnapshotPage>,
    ) -> Result<(), AllocError> {
        for (page, found) in own {
            let copy = PlainPage::of(self.alloc, space, *page, found)?;
            self.pages.push(copy)?;
        }
        Ok(())
    }

    /// Whether it is the same memory.
    pub(crate) fn is_same(&self, other: &Plain) -> bool {
        if self.spaces.len() != other.spaces.len() || self.pages.len() != other.pages.len() {
            return false;
        }
        for space in &self.spaces {
            if !other.spaces.contains(space) {
                return false;
            }
        }
        for page in &self.pages {
            if !other.pages.contains(page) {
                return false;
            }
        }
        true
    }

    /// How many spaces live.
    pub(crate) fn living(&self) -> usize {
        self.spaces.len()
    }

    /// Does what a command does that is answered so. Returns whether a load read what stands there.
    pub(crate) fn apply(&mut self, command: &Command, reply: &Reply) -> Result<bool, AllocError> {
        match reply {
            Reply::Done => {
                self.carry_out(command)?;
                Ok(true)
            }
            Reply::Child(child) => {
                self.have_child(command, *child)?;
                Ok(true)
            }
            Reply::Bytes(bytes) => Ok(self.has_read(command, bytes.as_slice())),
            _ => Ok(true),
        }
    }

    /// Does what a command does that was carried out.
    fn carry_out(&mut self, command: &Command) -> Result<(), AllocError> {
        match command {
            Command::Mmap {
                space,
                address,
                length,
                prot,
            } => return self.map(*space, *address, *length, *prot),
            Command::Munmap {
                space,
                address,
                length,
            } => self.unmap(*space, *address, *length),
            Command::Mprotect {
                space,
                address,
                length,
                prot,
            } => self.protect(*space, *address, *length, *prot),
            Command::Exit { space } => self.exit(*space),
            Command::TryStore {
                space,
                address,
                bytes,
            }
            | Command::Store {
                space,
                address,
                bytes,
            } => self.store(*space, *address, bytes.as_slice()),
            Command::Fork { .. } | Command::Fault { .. } | Command::Load { .. } => {}
        }
        Ok(())
    }

    /// Has a child of the space that a fork names.
    fn have_child(&mut self, command: &Command, child: SpaceId) -> Result<(), AllocError> {
        match command {
            Command::Fork { space } => self.fork(*space, child),
            _ => Ok(()),
        }
    }

    /// Whether a load read what stands there.
    fn has_read(&self, command: &Command, bytes: &[u8]) -> bool {
        match command {
            Command::Load { space, address, .. } => self.reads(*space, *address, bytes),
            _ => true,
        }
    }

    fn map(
        &mut self,
        space: SpaceId,
        address: u64,
        length: u64,
        prot: Prot,
    ) -> Result<(), AllocError> {
        self.unmap(space, address, length);
        for number in Pages::of(address, length).numbers() {
            let Some(page) = PageNo::new(number) else {
                continue;
            };
            self.pages.push(PlainPage {
                space,
                page,
                prot,
                bytes: vec![in self.alloc; 0; PAGE_SIZE]?,
            })?;
        }
        Ok(())
    }

    fn unmap(&mut self, space: SpaceId, address: u64, length: u64) {
        let range = Pages::of(address, length);
        self.pages.retain(|own| !range.has(own, space));
    }

    fn protect(&mut self, space: SpaceId, address: u64, length: u64, prot: Prot) {
        let range = Pages::of(address, length);
        for own in self.pages.iter_mut() {
            if range.has(own, space) {
                own.prot = prot;
            }
        }
    }

    fn fork(&mut self, space: SpaceId, child: SpaceId) -> Result<(), AllocError> {
        self.spaces.push(child)?;
        for index in 0..self.pages.len() {
            if let Some(copy) = self.copy_at(index, space, child)? {
                self.pages.push(copy)?;
            }
        }
        Ok(())
    }

    /// The page at an index, for a child of its space, where that is this one.
    fn copy_at(
        &self,
        index: usize,
        space: SpaceId,
        child: SpaceId,
    ) -> Result<Option<PlainPage>, AllocError> {
        match self.pages.get(index) {
            Some(own) if own.space == space => Ok(Some(own.copy_in(self.alloc, child)?)),
            _ => Ok(None),
        }
    }

    fn exit(&mut self, space: SpaceId) {
        self.spaces.retain(|living| *living != space);
        self.unmap(space, 0, u64::MAX);
    }

    fn store(&mut self, space: SpaceId, address: u64, bytes: &[u8]) {
        let range = Pages::of(address, 1);
        for own in self.pages.iter_mut() {
            if range.has(own, space) {
                put(&mut own.bytes, place_of(address), bytes);
            }
        }
    }

    /// Whether these bytes stand at an address.
    fn reads(&self, space: SpaceId, address: u64, bytes: &[u8]) -> bool {
        let range = Pages::of(address, 1);
        for own in &self.pages {
            if range.has(own, space) {
                return stand(&own.bytes, place_of(address), bytes);
            }
        }
        false
    }
}

/// The place of an address in its page.
fn place_of(address: u64) -> usize {
    (address % PAGE_BYTES) as usize
}

/// Puts bytes at a place of a page.
fn put(own: &mut [u8], first: usize, bytes: &[u8]) {
    for (place, byte) in own.iter_mut().skip(first).zip(bytes) {
        *place = *byte;
    }
}

/// Whether these bytes stand at a place of a page.
fn stand(own: &[u8], first: usize, bytes: &[u8]) -> bool {
    for (place, byte) in own.iter().skip(first).zip(bytes) {
        if place != byte {
            return false;
        }
    }
    true
}

impl PlainPage {
    /// What a snapshot has of a page.
    fn of(
        alloc: Global,
        space: SpaceId,
        page: PageNo,
        found: &SnapshotPage,
    ) -> Result<PlainPage, AllocError> {
        let bytes = found.bytes.to_vec(alloc)?;
        Ok(PlainPage {
            space,
            page,
            prot: found.prot,
            bytes,
        })
    }

    /// The same page in a space.
    fn copy_in(&self, alloc: Global, space: SpaceId) -> Result<PlainPage, AllocError> {
        Ok(PlainPage {
            space,
            page: self.page,
            prot: self.prot,
            bytes: Vec::from_slice(alloc, &self.bytes)?,
        })
    }
}

/// The pages that a range of bytes meets.
#[derive(Clone, Copy)]
struct Pages {
    first: u64,
    end: u64,
}

impl Pages {
    fn of(address: u64, length: u64) -> Self {
        Pages {
            first: address / PAGE_BYTES,
            end: address.saturating_add(length).div_ceil(PAGE_BYTES),
        }
    }

    fn numbers(self) -> Range<u64> {
        self.first..self.end
    }

    /// Whether it has this page of a space.
    fn has(self, own: &PlainPage, space: SpaceId) -> bool {
        own.space == space && self.numbers().contains(&own.page.number())
    }
}
