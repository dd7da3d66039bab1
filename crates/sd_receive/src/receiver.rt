//! A store that receives a stream, image by image.
ghost use Rattle.std.specs.Prelude.{◌≡◌, ◌≢◌, ◌<◌, ◌≤◌, ◌^◌, ℕ, true, List, [], All, Contains};
ghost use Rattle.std.specs.Prelude.{Option, Some, length, map, IfOk, IfSome, OnOk};
ghost use Rattle.std.specs.Borrow.{Bor};
ghost use Rattle.sd_areas.specs.PlainMemory.{PlainMemory};
ghost use Rattle.sd_disk.specs.Reads.{OnlyReads};
ghost use Rattle.sd_image.specs.declared.header.Kind.TheVariants.{PreDump};
ghost use Rattle.sd_image.specs.Header.{IsHeader};
ghost use Rattle.sd_image.specs.Shows.{Shows};
ghost use Rattle.sd_image.specs.Table.{IsTable, listing_of};
ghost use Rattle.sd_chain.specs.Catalog.{Opened, images};
ghost use Rattle.sd_chain.specs.Store.{IsCatalogOf};
ghost use Rattle.sd_chain.specs.Ways.{AreImages};
ghost use Rattle.sd_receive.specs.Arrived.{AddsImage, GoesOn, IsReady, ReadsNext, Receives, number_with};
ghost use Rattle.sd_receive.specs.Arrived.{numbers_received};
ghost use Rattle.sd_receive.specs.Arrived.{opened_with};
ghost use Rattle.sd_receive.specs.declared.receiver.Received.TheVariants as received;

use crate::arrived::{Arrived, arrive};
use crate::arriving::open_gate;
use crate::receive_error::ReceiveError;
use crate::room::make_room;
use crate::settling::settle;
use crate::slots::{add, free_slot};
use crate::taking::take_header;
use sd_chain::Catalog;
use sd_disk::Disk;
use sd_image::{Header, Kind};
use sd_restore::{Fault, place_newest, scan};
use sd_stream::{Item, StreamReader};
use std::alloc::Global;
use std::io::Read;
use std::thread::Threads;

/// What was received.
#[derive(Clone, Copy, PartialEq, Eq)]
pub enum Received {
    /// A pre-dump, which shows nothing by itself.
    PreDump,
    /// The checkpoint of this number, which is durable.
    Checkpoint(u64),
    /// The stream to its end.
    End,
}

/// Takes the images of a stream into a store, one by one.
#[derive(Drop)]
pub struct Receiver<R> {
    reader: StreamReader<R>,
    /// The images of the store.
    catalog: Catalog,
    /// The checkpoint that was acknowledged last, or 0.
    last: u64,
}

/// Checks that the checkpoint of a dump or a merged image is the newest of a catalog that has it, and that each of its
/// pages stands in an image.
fn check_shown(alloc: Global, catalog: &Catalog, header: &Header) -> Result<(), ReceiveError>
    requires { AreImages catalog.now }
    ensures { header.now.kind ≢ PreDump → (contents : List (List ℕ)) → IsCatalogOf contents catalog.now
        → OnOk result ((memory : PlainMemory) × Shows contents (Some (header.now.checkpoint, memory))) }
{
    if header.kind == Kind::PreDump {
        return Ok(());
    }
    match place_newest(alloc, catalog) {
        Ok(placed) if placed.checkpoint == header.checkpoint => Ok(()),
        Ok(_) | Err(Fault::EmptyChain | Fault::Damaged { .. }) => {
            Err(ReceiveError::LacksPages(header.checkpoint))
        }
        Err(fault) => Err(ReceiveError::Fault(fault)),
    }
}

/// What is received with an image.
fn received_with(header: &Header) -> Received
    ensures pre_dump { header.now.kind ≡ PreDump → result ≡ received.PreDump }
    ensures dump { header.now.kind ≢ PreDump → result ≡ received.Checkpoint header.now.checkpoint }
    ensures number { numbers_received result ≡ number_with header.now.kind header.now.checkpoint }
    ensures image { result ≢ received.End }
{
    match header.kind {
        Kind::PreDump => Received::PreDump,
        Kind::Dump | Kind::Merged => Received::Checkpoint(header.checkpoint),
    }
}

impl<R: Read> Receiver<R> {
    /// Makes a store ready for what a stream still has: each slot is synced, and read.
    ///
    /// # Errors
    ///
    /// Those of a scan of the store.
    pub fn begin<D: Disk>(
        alloc: Global,
        disk: &mut D,
        reader: StreamReader<R>,
    ) -> Result<Receiver<R>, Fault>
    where
        R: Drop,
        ensures ready { D.is_honest disk.new → IfOk result (λ receiver.
            IsReady (D.contents disk.new) (D.may_leave disk.new) receiver.catalog) }
        ensures images { IfOk result (λ receiver. AreImages receiver.catalog) }
        ensures reader { IfOk result (λ receiver. receiver.reader ≡ reader) }
        ensures reads { OnlyReads D.Disk disk.old disk.new }
    {
        settle(disk)?;
        let catalog = scan(alloc, disk)?;
        Ok(Receiver {
            reader,
            catalog,
            last: 0,
        })
    }

    /// Chooses one of so many slots for the image with this header.
    fn choose(&self, slots: usize, header: &Header) -> Result<usize, ReceiveError>
        ensures slot { IfOk result (λ chosen. chosen < slots) }
        ensures free { IfOk result (λ chosen.
            All (λ (i : Opened). i.slot ≢ chosen) (images self.now.catalog)) }
        ensures under { OnOk result ((j : Opened) → Contains (images self.now.catalog) j
            → j.header.serial < header.now.serial) }
    {
        if header.serial <= self.catalog.greatest_serial() {
            return Err(ReceiveError::Serial(header.serial));
        }
        match free_slot(&self.catalog, slots)? {
            Some(slot) => Ok(slot),
            None => Err(ReceiveError::NoSlot),
        }
    }

    /// Reads that the checkpoint of a dump or a merged image is acknowledged.
    fn take_acknowledged(&mut self, header: &Header) -> Result<(), ReceiveError>
        ensures catalog { self.new.catalog ≡ self.old.catalog }
        ensures reads { OnOk result (GoesOn R.remaining self.old.reader
            (number_with header.now.kind header.now.checkpoint) self.new.reader) }
        ensures last { header.now.kind ≢ PreDump
            → OnOk result (self.new.last ≡ header.now.checkpoint) }
    {
        if header.kind == Kind::PreDump {
            return Ok(());
        }
        match self.reader.next()? {
            Item::Acknowledged(number) if number == header.checkpoint => {
                self.last = number;
                Ok(())
            }
            _ => Err(ReceiveError::Unacknowledged(header.checkpoint)),
        }
    }

    /// Adds an image that arrived in a slot to the catalog. Of a dump or a merged image the checkpoint is acknowledged,
    /// and all its pages are there. It gives the bytes of the table back.
    fn prepare(
        &mut self,
        alloc: Global,
        slot: usize,
        header: Header,
        arrived: Arrived,
    ) -> Result<Vec<u8>, ReceiveError>
        requires images { AreImages self.old.catalog }
        requires falls { header.parent < header.stands_for }
        requires table { IsTable header (map listing_of arrived.table.spaces.items) }
        ensures adds { OnOk result
            (AddsImage self.old.catalog self.new.catalog (opened_with slot header arrived)) }
        ensures images { OnOk result (AreImages self.new.catalog) }
        ensures reads { OnOk result (GoesOn R.remaining self.old.reader
            (number_with header.kind header.checkpoint) self.new.reader) }
        ensures last { header.kind ≢ PreDump → OnOk result (self.new.last ≡ header.checkpoint) }
        ensures shown { header.kind ≢ PreDump → (contents : List (List ℕ))
            → IsCatalogOf contents self.new.catalog → OnOk result ((memory : PlainMemory)
            × Shows contents (Some (header.checkpoint, memory))) }
        ensures bytes { IfOk result (λ bytes. bytes ≡ arrived.bytes) }
    {
        self.take_acknowledged(&header)?;
        let bytes = add(alloc, &mut self.catalog, slot, header, arrived)?;
        check_shown(alloc, &self.catalog, &header)?;
        Ok(bytes)
    }

    /// Takes an image with this header into a free slot.
    fn put_image<D: Disk, T: Threads>(
        &mut self,
        threads: &T,
        alloc: Global,
        disk: &mut D,
        header: Header,
        len: u64,
    ) -> Result<Received, ReceiveError>
    where
        R: Send,
        requires images { AreImages self.old.catalog }
        requires header { IsHeader header len }
        requires few { header.pages ≤ 2 ^ 39 }
        ensures keeps { D.is_honest disk.new
            → IsReady (D.contents disk.old) (D.may_leave disk.old) self.old.catalog
            → (shown : Option (ℕ × PlainMemory)) → Shows (D.contents disk.old) shown
            → (memory : PlainMemory) × Receives D.Disk disk.old disk.new shown self.new.last memory result }
        ensures ready { D.is_honest disk.new
            → IsReady (D.contents disk.old) (D.may_leave disk.old) self.old.catalog
            → OnOk result (IsReady (D.contents disk.new) (D.may_leave disk.new) self.new.catalog) }
        ensures images { OnOk result (AreImages self.new.catalog) }
        ensures image { IfOk result (λ r. r ≢ received.End) }
        ensures reads { IfOk result (ReadsNext R.remaining self.old.reader self.new.reader) }
        ensures honest { D.is_honest disk.new → D.is_honest disk.old }
    {
        self.catalog.sound();
        self.catalog.has_the_images();
        let slot = self.choose(disk.slots(), &header)?;
        let arrived = arrive(threads, alloc, disk, slot, &header, &mut self.reader)?;
        let bytes = self.prepare(alloc, slot, header, arrived)?;
        open_gate(disk, slot, header, bytes)?;
        Ok(received_with(&header))
    }

    /// Takes an image of so many bytes into a free slot.
    fn take_image<D: Disk, T: Threads>(
        &mut self,
        threads: &T,
        alloc: Global,
        disk: &mut D,
        len: u64,
    ) -> Result<Received, ReceiveError>
    where
        R: Send,
        requires { AreImages self.old.catalog }
        ensures keeps { D.is_honest disk.new
            → IsReady (D.contents disk.old) (D.may_leave disk.old) self.old.catalog
            → (shown : Option (ℕ × PlainMemory)) → Shows (D.contents disk.old) shown
            → (memory : PlainMemory) × Receives D.Disk disk.old disk.new shown self.new.last memory result }
        ensures ready { D.is_honest disk.new
            → IsReady (D.contents disk.old) (D.may_leave disk.old) self.old.catalog
            → OnOk result (IsReady (D.contents disk.new) (D.may_leave disk.new) self.new.catalog) }
        ensures images { OnOk result (AreImages self.new.catalog) }
        ensures image { IfOk result (λ r. r ≢ received.End) }
        ensures reads { IfOk result (ReadsNext R.remaining self.old.reader self.new.reader) }
        ensures honest { D.is_honest disk.new → D.is_honest disk.old }
    {
        let header = take_header(&mut self.reader, len)?;
        make_room(alloc, disk, &mut self.catalog, header.serial)?;
        self.put_image(threads, alloc, disk, header, len)
    }

    /// Receives the next image into a slot that has none, of which one thread reads data pages and another writes those
    /// before. A pre-dump is there once this is done. A dump or a merged image is received where the stream
    /// acknowledges its checkpoint and all its pages are there. No gate is opened before the header, the table and the
    /// digest of the image were checked. Where few slots are free, the newest chain may be merged before, and images be
    /// closed that the newest checkpoint doesn't need.
    ///
    /// # Errors
    ///
    /// `Stream`; `Image`, `Closed`, `Serial`, `Unacknowledged`, `WithoutDump` and `LacksPages` where an image is
    /// refused; `NoSlot` where no slot gets free; `Fault`. After an error nothing more is received.
    pub fn next<D: Disk, T: Threads>(
        &mut self,
        threads: &T,
        alloc: Global,
        disk: &mut D,
    ) -> Result<Received, ReceiveError>
    where
        R: Send,
        requires { AreImages self.old.catalog }
        // At each moment a crash leaves what was shown, or the checkpoint that was acknowledged last; once it is
        // received, that.
        ensures keeps { D.is_honest disk.new
            → IsReady (D.contents disk.old) (D.may_leave disk.old) self.old.catalog
            → (shown : Option (ℕ × PlainMemory)) → Shows (D.contents disk.old) shown
            → (memory : PlainMemory) × Receives D.Disk disk.old disk.new shown self.new.last memory result }
        ensures ready { D.is_honest disk.new
            → IsReady (D.contents disk.old) (D.may_leave disk.old) self.old.catalog
            → OnOk result (IsReady (D.contents disk.new) (D.may_leave disk.new) self.new.catalog) }
        ensures images { OnOk result (AreImages self.new.catalog) }
        // A checkpoint is the one that the stream acknowledges next, and at the end the stream is whole.
        ensures reads { IfOk result (ReadsNext R.remaining self.old.reader self.new.reader) }
        ensures honest { D.is_honest disk.new → D.is_honest disk.old }
    {
        match self.reader.next()? {
            Item::Image(len) => self.take_image(threads, alloc, disk, len),
            Item::Acknowledged(number) => Err(ReceiveError::WithoutDump(number)),
            Item::End => Ok(Received::End),
        }
    }
}
