//! An image that is read from a stream into a slot, whose gate is closed.
ghost use Rattle.std.specs.Prelude.{◌≡◌, ◌≢◌, ◌<◌, ◌≤◌, ◌+◌, ◌^◌, ◌++◌, [], false, ℕ, List, length, map, IfOk, OnOk};
ghost use Rattle.std.specs.List.{concat};
ghost use Rattle.sha2.specs.Sha256.{sha256};
ghost use Rattle.sd_disk.specs.Contents.{file_at};
ghost use Rattle.sd_disk.specs.Spans.{LeavesOnly};
ghost use Rattle.sd_image.specs.declared.header.Version.TheVariants.{Two};
ghost use Rattle.sd_image.specs.Digests.{HasFed};
ghost use Rattle.sd_image.specs.Header.{IsHeader, header_front};
ghost use Rattle.sd_image.specs.Image.{is_open};
ghost use Rattle.sd_image.specs.Table.{IsTable, listing_of, table_text};
ghost use Rattle.sd_gate.specs.Sequences.{IsBody};
ghost use Rattle.sd_receive.specs.Arrived.{GoesOn, GoesWith, HasArrived, HasPages};
ghost use Rattle.sd_receive.specs.Arriving.{IsFilled, IsSettled, KeepsImages};

use crate::arriving::format;
use crate::pages::take_pages;
use crate::receive_error::ReceiveError;
use crate::taking::take_table;
use sd_disk::Disk;
use sd_image::{Digester, Header, Reason, Table, TableError, Version, decode_table};
use sd_restore::Fault;
use sd_stream::StreamReader;
use std::alloc::Global;
use std::io::Read;
use std::thread::Threads;

/// What of an image isn't in its slot yet: its table, and the bytes of that.
#[derive(Drop)]
pub(crate) struct Arrived {
    pub(crate) bytes: Vec<u8>,
    pub(crate) table: Table,
}

/// Makes a closed slot ready, and takes the data pages of an image into it.
fn fill<D: Disk, R: Read + Send, T: Threads>(
    threads: &T,
    alloc: Global,
    disk: &mut D,
    slot: usize,
    pages: usize,
    reader: &mut StreamReader<R>,
) -> Result<Digester, ReceiveError>
    requires slot { slot < length (D.contents disk.old) }
    requires few { pages ≤ 2 ^ 39 }
    ensures keeps { D.is_honest disk.new → IsSettled (D.contents disk.old) (D.may_leave disk.old)
        → is_open (file_at (D.contents disk.old) slot) ≡ false
        → LeavesOnly D.Disk disk.old disk.new (KeepsImages (D.contents disk.old)) }
    ensures filled { D.is_honest disk.new → IsSettled (D.contents disk.old) (D.may_leave disk.old)
        → is_open (file_at (D.contents disk.old) slot) ≡ false
        → IfOk result (HasPages (D.contents disk.new) (D.may_leave disk.new) slot pages) }
    ensures others { (other : ℕ) → other ≢ slot
        → file_at (D.contents disk.new) other ≡ file_at (D.contents disk.old) other }
    ensures count { length (D.contents disk.new) ≡ length (D.contents disk.old) }
    ensures reads { OnOk result (GoesOn R.remaining reader.old [] reader.new) }
    ensures honest { D.is_honest disk.new → D.is_honest disk.old }
{
    format(disk, slot)?;
    let mut digester = Digester::new();
    take_pages(threads, alloc, disk, slot, pages, reader, &mut digester)?;
    Ok(digester)
}

/// Checks that an image of version 2 has its digest in its header. The digester was fed all its data pages.
fn check_digest(header: &Header, mut digester: Digester, table: &[u8]) -> Result<(), ReceiveError>
    ensures { (fed : List ℕ) → HasFed digester fed → OnOk result (header.now.version ≡ Two
        → header.now.digest ≡ sha256 ((fed ++ table.now) ++ header_front header.now)) }
{
    digester.table(table);
    if header.version == Version::One {
        return Ok(());
    }
    if digester.finish(header) != header.digest {
        return Err(ReceiveError::Image(Reason::Digest));
    }
    Ok(())
}

/// The table that the bytes spell, after this header.
pub(crate) fn read_table(
    alloc: Global,
    header: &Header,
    bytes: &[u8],
) -> Result<Table, ReceiveError>
    ensures { IfOk result (λ table. (bytes.now ≡ table_text (map listing_of table.spaces.items))
        × IsTable header.now (map listing_of table.spaces.items)) }
{
    match decode_table(alloc, header, bytes) {
        Ok(table) => Ok(table),
        Err(TableError::Damaged(reason)) => Err(ReceiveError::Image(reason)),
        Err(TableError::OutOfMemory) => Err(ReceiveError::Fault(Fault::OutOfMemory)),
    }
}

/// Takes the table of an image whose data pages a digester was fed, and checks it and the digest.
fn take_rest<R: Read>(
    alloc: Global,
    header: &Header,
    digester: Digester,
    reader: &mut StreamReader<R>,
) -> Result<Arrived, ReceiveError>
    requires { header.now.pages ≤ 2 ^ 39 }
    ensures good { (pages : List (List ℕ)) → HasFed digester (concat pages)
        → IfOk result (GoesWith header.now pages) }
    ensures body { IfOk result (λ arrived. IsBody header.now arrived.bytes.items) }
    ensures table { IfOk result (λ arrived. IsTable header.now (map listing_of arrived.table.spaces.items)) }
    ensures reads { OnOk result (GoesOn R.remaining reader.old [] reader.new) }
{
    let bytes = take_table(alloc, reader, header.table_len as usize)?;
    let table = read_table(alloc, header, &bytes)?;
    check_digest(header, digester, &bytes)?;
    Ok(Arrived { bytes, table })
}

/// Takes an image with this header into a closed slot, but for its table, its header and its gate, and checks its
/// table and its digest.
pub(crate) fn arrive<D: Disk, R: Read + Send, T: Threads>(
    threads: &T,
    alloc: Global,
    disk: &mut D,
    slot: usize,
    header: &Header,
    reader: &mut StreamReader<R>,
) -> Result<Arrived, ReceiveError>
    requires slot { slot < length (D.contents disk.old) }
    requires few { header.now.pages ≤ 2 ^ 39 }
    // A crash within it leaves the images that the store has.
    ensures keeps { D.is_honest disk.new → IsSettled (D.contents disk.old) (D.may_leave disk.old)
        → is_open (file_at (D.contents disk.old) slot) ≡ false
        → LeavesOnly D.Disk disk.old disk.new (KeepsImages (D.contents disk.old)) }
    ensures arrived { D.is_honest disk.new → IsSettled (D.contents disk.old) (D.may_leave disk.old)
        → is_open (file_at (D.contents disk.old) slot) ≡ false → (len : ℕ) → IsHeader header.now len
        → IfOk result (HasArrived (D.contents disk.new) (D.may_leave disk.new) slot header.now) }
    ensures body { IfOk result (λ arrived. IsBody header.now arrived.bytes.items) }
    ensures table { IfOk result (λ arrived. IsTable header.now (map listing_of arrived.table.spaces.items)) }
    ensures others { (other : ℕ) → other ≢ slot
        → file_at (D.contents disk.new) other ≡ file_at (D.contents disk.old) other }
    ensures count { length (D.contents disk.new) ≡ length (D.contents disk.old) }
    ensures reads { OnOk result (GoesOn R.remaining reader.old [] reader.new) }
    ensures honest { D.is_honest disk.new → D.is_honest disk.old }
{
    let digester = fill(threads, alloc, disk, slot, header.pages as usize, reader)?;
    take_rest(alloc, header, digester, reader)
}
