//! The data pages of an image, read from a stream into a slot: while some are read, those before are written.
ghost use Rattle.std.specs.Prelude.{◌≡◌, ◌≢◌, ◌<◌, ◌≤◌, ◌+◌, ◌*◌, ◌/◌, ◌^◌, ◌++◌, [], ℕ, List, length, IfOk, OnOk};
ghost use Rattle.sd_disk.specs.Contents.{file_at};
ghost use Rattle.sd_disk.specs.Spans.{LeavesOnly};
ghost use Rattle.sd_image.specs.Digests.{HasFed};
ghost use Rattle.sd_receive.specs.Arrived.{GoesOn, HasPages};
ghost use Rattle.sd_receive.specs.Arriving.{KeepsImages};

use crate::arriving::put_page;
use crate::receive_error::ReceiveError;
use crate::taking::take_bytes;
use sd_areas::PAGE_SIZE;
use sd_disk::Disk;
use sd_image::Digester;
use sd_stream::StreamReader;
use std::alloc::Global;
use std::io::Read;
use std::thread::{Threads, join_mut};

/// How many data pages are read at once: as many as a pipe holds.
const PIECE: usize = 16;

/// Gives a page to a digester.
pub(crate) fn digest_page(digester: &mut Digester, page: &[u8])
    requires { length page.now ≡ 4096 }
    ensures { (fed : List ℕ) → HasFed digester.old fed → HasFed digester.new (fed ++ page.now) }
{
    match page.try_into() {
        Ok(page) => digester.page(page),
        Err(_) => unreachable!(),
    }
}

/// Digests the next data page of an image, and writes it into a slot.
fn put<D: Disk>(
    alloc: Global,
    disk: &mut D,
    slot: usize,
    place: usize,
    page: &[u8],
    digester: &mut Digester,
) -> Result<(), ReceiveError>
    requires slot { slot < length (D.contents disk.old) }
    requires place { place < 2 ^ 39 }
    requires page { length page.now ≡ 4096 }
    ensures keeps { HasPages (D.contents disk.old) (D.may_leave disk.old) slot place digester.old
        → LeavesOnly D.Disk disk.old disk.new (KeepsImages (D.contents disk.old)) }
    ensures taken { HasPages (D.contents disk.old) (D.may_leave disk.old) slot place digester.old
        → OnOk result (HasPages (D.contents disk.new) (D.may_leave disk.new) slot (place + 1) digester.new) }
    ensures others { (other : ℕ) → other ≢ slot
        → file_at (D.contents disk.new) other ≡ file_at (D.contents disk.old) other }
    ensures count { length (D.contents disk.new) ≡ length (D.contents disk.old) }
    ensures honest { D.is_honest disk.new → D.is_honest disk.old }
{
    let buffer = page.to_vec(alloc)?;
    digest_page(digester, &buffer);
    put_page(disk, slot, place, buffer)?;
    Ok(())
}

/// Digests the next data pages of an image, and writes them into a slot.
fn put_piece<D: Disk>(
    alloc: Global,
    disk: &mut D,
    slot: usize,
    place: usize,
    piece: &[u8],
    digester: &mut Digester,
) -> Result<(), ReceiveError>
    requires slot { slot < length (D.contents disk.old) }
    requires few { place + length piece.now / 4096 ≤ 2 ^ 39 }
    ensures keeps { HasPages (D.contents disk.old) (D.may_leave disk.old) slot place digester.old
        → LeavesOnly D.Disk disk.old disk.new (KeepsImages (D.contents disk.old)) }
    ensures taken { HasPages (D.contents disk.old) (D.may_leave disk.old) slot place digester.old
        → OnOk result (HasPages (D.contents disk.new) (D.may_leave disk.new) slot
        (place + length piece.now / 4096) digester.new) }
    ensures others { (other : ℕ) → other ≢ slot
        → file_at (D.contents disk.new) other ≡ file_at (D.contents disk.old) other }
    ensures count { length (D.contents disk.new) ≡ length (D.contents disk.old) }
    ensures honest { D.is_honest disk.new → D.is_honest disk.old }
{
    for at in 0..piece.len() / PAGE_SIZE {
        let page = &piece[at * PAGE_SIZE..(at + 1) * PAGE_SIZE];
        put(alloc, disk, slot, place + at, page, digester)?;
    }
    Ok(())
}

/// Reads the next so many data pages of an image.
fn take_piece<R: Read>(
    alloc: Global,
    reader: &mut StreamReader<R>,
    count: usize,
) -> Result<Vec<u8>, ReceiveError>
    requires { count ≤ 16 }
    ensures len { IfOk result (λ piece. length piece.items ≡ count * 4096) }
    ensures reads { OnOk result (GoesOn R.remaining reader.old [] reader.new) }
{
    let mut piece = vec![in alloc; 0u8; count * PAGE_SIZE]?;
    take_bytes(reader, &mut piece)?;
    Ok(piece)
}

/// Writes data pages into a slot, while another thread reads the next so many.
fn put_beside<D: Disk, R: Read + Send, T: Threads>(
    threads: &T,
    alloc: Global,
    disk: &mut D,
    slot: usize,
    place: usize,
    piece: &[u8],
    digester: &mut Digester,
    reader: &mut StreamReader<R>,
    count: usize,
) -> Result<Vec<u8>, ReceiveError>
    requires slot { slot < length (D.contents disk.old) }
    requires few { place + length piece.now / 4096 ≤ 2 ^ 39 }
    requires count { count ≤ 16 }
    ensures keeps { HasPages (D.contents disk.old) (D.may_leave disk.old) slot place digester.old
        → LeavesOnly D.Disk disk.old disk.new (KeepsImages (D.contents disk.old)) }
    ensures taken { HasPages (D.contents disk.old) (D.may_leave disk.old) slot place digester.old
        → OnOk result (HasPages (D.contents disk.new) (D.may_leave disk.new) slot
        (place + length piece.now / 4096) digester.new) }
    ensures others { (other : ℕ) → other ≢ slot
        → file_at (D.contents disk.new) other ≡ file_at (D.contents disk.old) other }
    ensures count { length (D.contents disk.new) ≡ length (D.contents disk.old) }
    ensures len { IfOk result (λ next. length next.items ≡ count * 4096) }
    ensures reads { OnOk result (GoesOn R.remaining reader.old [] reader.new) }
    ensures honest { D.is_honest disk.new → D.is_honest disk.old }
{
    let (next, put) = join_mut(
        threads,
        &mut || take_piece(alloc, reader, count),
        &mut || put_piece(alloc, disk, slot, place, piece, digester),
    );
    put?;
    next
}

/// Takes the data pages of an image into a slot.
pub(crate) fn take_pages<D: Disk, R: Read + Send, T: Threads>(
    threads: &T,
    alloc: Global,
    disk: &mut D,
    slot: usize,
    pages: usize,
    reader: &mut StreamReader<R>,
    digester: &mut Digester,
) -> Result<(), ReceiveError>
    requires slot { slot < length (D.contents disk.old) }
    requires few { pages ≤ 2 ^ 39 }
    ensures keeps { HasPages (D.contents disk.old) (D.may_leave disk.old) slot 0 digester.old
        → LeavesOnly D.Disk disk.old disk.new (KeepsImages (D.contents disk.old)) }
    ensures taken { HasPages (D.contents disk.old) (D.may_leave disk.old) slot 0 digester.old
        → OnOk result (HasPages (D.contents disk.new) (D.may_leave disk.new) slot pages digester.new) }
    ensures others { (other : ℕ) → other ≢ slot
        → file_at (D.contents disk.new) other ≡ file_at (D.contents disk.old) other }
    ensures count { length (D.contents disk.new) ≡ length (D.contents disk.old) }
    ensures reads { OnOk result (GoesOn R.remaining reader.old [] reader.new) }
    ensures honest { D.is_honest disk.new → D.is_honest disk.old }
{
    let mut piece = take_piece(alloc, reader, pages.min(PIECE))?;
    let mut place = 0;
    while place < pages {
        let after = place + piece.len() / PAGE_SIZE;
        let count = (pages - after).min(PIECE);
        piece = put_beside(
            threads, alloc, disk, slot, place, &piece, digester, reader, count,
        )?;
        place = after;
    }
    Ok(())
}
