//! A memory that is copied into a closed slot, page by page.
ghost use Rattle.std.specs.Prelude.{◌≡◌, ◌≢◌, ◌+◌, ◌<◌, ◌≤◌, ◌^◌, ◌++◌, ◌∷◌, [], false, ℕ, List, length};
ghost use Rattle.std.specs.Prelude.{All, IfOk, OnOk};
ghost use Rattle.sd_disk.specs.Contents.{file_at};
ghost use Rattle.sd_disk.specs.Reads.{OnlyReads};
ghost use Rattle.sd_disk.specs.Spans.{LeavesOnly};
ghost use Rattle.sd_chain.specs.declared.found.Found.TheVariants.{Data};
ghost use Rattle.sd_chain.specs.Store.{bytes_at};
ghost use Rattle.sd_image.specs.Image.{is_open};
ghost use Rattle.sd_restore.specs.Placed.{PlacedPage};
ghost use Rattle.sd_receive.specs.Arrived.{HasPages};
ghost use Rattle.sd_receive.specs.Arriving.{IsSettled, KeepsImages};
ghost use Rattle.sd_receive.specs.Merged.{AddsBytes, AreAlikeBut, HasCopies, IsElsewhere, IsStoredAt};
ghost use Rattle.sd_receive.specs.Merged.{page_of, pages_seen};

use crate::arriving::{format, put_page};
use crate::mapped::{MappedPage, push};
use crate::pages::digest_page;
use crate::receive_error::ReceiveError;
use sd_areas::{PAGE_BYTES, PAGE_SIZE};
use sd_chain::Found;
use sd_disk::{Disk, read_file};
use sd_image::Digester;
use std::alloc::Global;

/// How many pages are mapped in a memory at most.
pub(crate) const PAGE_LIMIT: usize = 65_536;

/// Pages that were copied into a slot.
#[derive(Drop)]
pub(crate) struct Copied {
    /// Each with where its copy is.
    pub(crate) pages: Vec<MappedPage>,
    /// How many data pages the copies take.
    pub(crate) stored: usize,
    /// Was fed these.
    pub(crate) digester: Digester,
}

/// Reads a page that stands in a slot's file.
fn read_page<D: Disk>(
    alloc: Global,
    disk: &mut D,
    from: (usize, u64),
) -> Result<Vec<u8>, ReceiveError>
    requires { from.0 < length (D.contents disk.old) }
    ensures bytes { D.is_honest disk.new → IfOk result (λ buffer. buffer.items
        ≡ bytes_at (D.contents disk.old) (Data from.0 from.1)) }
    ensures whole { IfOk result (λ buffer. length buffer.items ≡ 4096) }
    ensures reads { OnlyReads D.Disk disk.old disk.new }
{
    let mut buffer = vec![in alloc; 0u8; PAGE_SIZE]?;
    read_file(disk, from.0, from.1 as usize, &mut buffer)?;
    Ok(buffer)
}

/// Copies a page that stands in another slot's file as the next data page of a slot.
fn copy_data<D: Disk>(
    alloc: Global,
    disk: &mut D,
    slot: usize,
    place: usize,
    from: (usize, u64),
    digester: &mut Digester,
) -> Result<(), ReceiveError>
    requires slot { slot < length (D.contents disk.old) }
    requires place { place < 2 ^ 39 }
    requires from { from.0 < length (D.contents disk.old) }
    ensures keeps { HasPages (D.contents disk.old) (D.may_leave disk.old) slot place digester.old
        → LeavesOnly D.Disk disk.old disk.new (KeepsImages (D.contents disk.old)) }
    ensures copied { D.is_honest disk.new
        → (has : HasPages (D.contents disk.old) (D.may_leave disk.old) slot place digester.old)
        → OnOk result (AddsBytes (bytes_at (D.contents disk.old) (Data from.0 from.1)) has.pages
        (D.contents disk.new) (D.may_leave disk.new) slot (place + 1) digester.new) }
    ensures others { (other : ℕ) → other ≢ slot
        → file_at (D.contents disk.new) other ≡ file_at (D.contents disk.old) other }
    ensures count { length (D.contents disk.new) ≡ length (D.contents disk.old) }
    ensures honest { D.is_honest disk.new → D.is_honest disk.old }
{
    let buffer = read_page(alloc, disk, from)?;
    digest_page(digester, &buffer);
    put_page(disk, slot, place, buffer)?;
    Ok(())
}

/// Copies the bytes of a page into a slot, unless they are zeros, and returns where the copy is.
fn copy_bytes<D: Disk>(
    alloc: Global,
    disk: &mut D,
    slot: usize,
    there: Found,
    copied: &mut Copied,
) -> Result<Found, ReceiveError>
    requires slot { slot < length (D.contents disk.old) }
    requires few { copied.old.stored < 2 ^ 39 }
    requires elsewhere { IsElsewhere slot (length (D.contents disk.old)) there }
    ensures keeps { HasPages (D.contents disk.old) (D.may_leave disk.old) slot copied.old.stored copied.old.digester
        → LeavesOnly D.Disk disk.old disk.new (KeepsImages (D.contents disk.old)) }
    ensures copied { D.is_honest disk.new
        → (has : HasPages (D.contents disk.old) (D.may_leave disk.old) slot copied.old.stored copied.old.digester)
        → IfOk result (IsStoredAt (bytes_at (D.contents disk.old) there) has.pages (D.contents disk.new)
        (D.may_leave disk.new) slot copied.new.stored copied.new.digester) }
    ensures pages { copied.new.pages ≡ copied.old.pages }
    ensures stored { copied.new.stored ≤ copied.old.stored + 1 }
    ensures others { (other : ℕ) → other ≢ slot
        → file_at (D.contents disk.new) other ≡ file_at (D.contents disk.old) other }
    ensures count { length (D.contents disk.new) ≡ length (D.contents disk.old) }
    ensures honest { D.is_honest disk.new → D.is_honest disk.old }
{
    match there {
        Found::Zero => Ok(Found::Zero),
        Found::Data { slot: from, offset } => {
            let place = copied.stored;
            copy_data(
                alloc,
                disk,
                slot,
                place,
                (from, offset),
                &mut copied.digester,
            )?;
            copied.stored = place + 1;
            let offset = PAGE_BYTES + PAGE_BYTES * place as u64;
            Ok(Found::Data { slot, offset })
        }
    }
}

/// Copies a page into a slot.
fn copy_page<D: Disk>(
    alloc: Global,
    disk: &mut D,
    slot: usize,
    page: &MappedPage,
    copied: &mut Copied,
) -> Result<(), ReceiveError>
    requires slot { slot < length (D.contents disk.old) }
    requires few { copied.old.stored < 2 ^ 39 }
    requires elsewhere { IsElsewhere slot (length (D.contents disk.old)) page.now.there }
    ensures keeps { HasPages (D.contents disk.old) (D.may_leave disk.old) slot copied.old.stored copied.old.digester
        → LeavesOnly D.Disk disk.old disk.new (KeepsImages (D.contents disk.old)) }
    ensures copied { D.is_honest disk.new → (from : List (List ℕ)) (pages : List PlacedPage)
        → AreAlikeBut slot from (D.contents disk.old)
        → HasCopies from (D.contents disk.old) (D.may_leave disk.old) slot pages copied.old
        → OnOk result (HasCopies from (D.contents disk.new) (D.may_leave disk.new) slot
        (pages ++ page_of page.now ∷ []) copied.new) }
    ensures stored { copied.new.stored ≤ copied.old.stored + 1 }
    ensures others { (other : ℕ) → other ≢ slot
        → file_at (D.contents disk.new) other ≡ file_at (D.contents disk.old) other }
    ensures count { length (D.contents disk.new) ≡ length (D.contents disk.old) }
    ensures honest { D.is_honest disk.new → D.is_honest disk.old }
{
    let there = copy_bytes(alloc, disk, slot, page.there, copied)?;
    push(&mut copied.pages, MappedPage { there, ..*page })?;
    Ok(())
}

/// Copies pages into a slot that is ready for them.
fn copy_pages<D: Disk>(
    alloc: Global,
    disk: &mut D,
    slot: usize,
    pages: &[MappedPage],
    copied: &mut Copied,
) -> Result<(), ReceiveError>
    requires slot { slot < length (D.contents disk.old) }
    requires few { length pages.now ≤ 65536 }
    requires none { copied.old.stored ≡ 0 }
    requires elsewhere { All (λ (p : MappedPage). IsElsewhere slot (length (D.contents disk.old)) p.there) pages.now }
    ensures keeps { D.is_honest disk.new → (from : List (List ℕ)) → AreAlikeBut slot from (D.contents disk.old)
        → HasCopies from (D.contents disk.old) (D.may_leave disk.old) slot [] copied.old
        → LeavesOnly D.Disk disk.old disk.new (KeepsImages (D.contents disk.old)) }
    ensures copied { D.is_honest disk.new → (from : List (List ℕ)) → AreAlikeBut slot from (D.contents disk.old)
        → HasCopies from (D.contents disk.old) (D.may_leave disk.old) slot [] copied.old
        → OnOk result (HasCopies from (D.contents disk.new) (D.may_leave disk.new) slot
        (pages_seen pages.now) copied.new) }
    ensures few { OnOk result (copied.new.stored ≤ 65536) }
    ensures others { (other : ℕ) → other ≢ slot
        → file_at (D.contents disk.new) other ≡ file_at (D.contents disk.old) other }
    ensures count { length (D.contents disk.new) ≡ length (D.contents disk.old) }
    ensures honest { D.is_honest disk.new → D.is_honest disk.old }
{
    for page in pages {
        copy_page(alloc, disk, slot, page, copied)?;
    }
    Ok(())
}

/// Makes a closed slot ready, and copies pages into it that stand in other slots.
pub(crate) fn copy_memory<D: Disk>(
    alloc: Global,
    disk: &mut D,
    slot: usize,
    pages: &[MappedPage],
) -> Result<Copied, ReceiveError>
    requires slot { slot < length (D.contents disk.old) }
    requires few { length pages.now ≤ 65536 }
    requires elsewhere { All (λ (p : MappedPage). IsElsewhere slot (length (D.contents disk.old)) p.there) pages.now }
    ensures keeps { D.is_honest disk.new → IsSettled (D.contents disk.old) (D.may_leave disk.old)
        → is_open (file_at (D.contents disk.old) slot) ≡ false
        → LeavesOnly D.Disk disk.old disk.new (KeepsImages (D.contents disk.old)) }
    ensures copied { D.is_honest disk.new → IsSettled (D.contents disk.old) (D.may_leave disk.old)
        → is_open (file_at (D.contents disk.old) slot) ≡ false
        → IfOk result (HasCopies (D.contents disk.old) (D.contents disk.new) (D.may_leave disk.new) slot
        (pages_seen pages.now)) }
    ensures few { IfOk result (λ copied. copied.stored ≤ 65536) }
    ensures count { length (D.contents disk.new) ≡ length (D.contents disk.old) }
    ensures honest { D.is_honest disk.new → D.is_honest disk.old }
{
    format(disk, slot)?;
    let mut copied = Copied {
        pages: Vec::new(alloc),
        stored: 0,
        digester: Digester::new(),
    };
    copy_pages(alloc, disk, slot, pages, &mut copied)?;
    Ok(copied)
}
