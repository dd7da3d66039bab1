//! The effects of commands, made beside the memory that they are carried out on.
ghost use Rattle.std.specs.Prelude.{◌≡◌, ◌⊎◌, ◌+◌, ◌≤◌, ◌%◌, ◌^◌, ◌<◌, true, false, length, reverse, OnOk, IfOk};
ghost use Rattle.std.specs.Prelude.{IsSome};
ghost use Rattle.sd_areas.specs.Memory.{memory_of};
ghost use Rattle.sd_areas.specs.Pages.{page_of, pages_for};
ghost use Rattle.sd_pagetable.specs.Effects.{after_exit, after_fork, after_mmap, after_mprotect, after_munmap};
ghost use Rattle.sd_pagetable.specs.Effects.{after_store};
ghost use Rattle.sd_pagetable.specs.Nested.{is_alive, value_at};
ghost use Rattle.sd_command.specs.declared.refusal.Refusal.TheVariants.{Frozen};
ghost use Rattle.sd_command.specs.declared.reply.Reply.TheVariants as told;
ghost use Rattle.sd_command.specs.Replies.{IsLegalReply, effect};
ghost use Rattle.sd_journal.specs.History.{Base, memory_after};
ghost use Rattle.sd_journal.specs.Legal.{IsLegal};
ghost use Rattle.sd_fold.specs.Overlay.{memory_over};

use crate::changes::{changes_of_child, map_run, page_with, protect_run, store, unmap_run};
use crate::overlay::{Overlay, changes_in, end_space, pages_in, put_changes, take_changes};
use sd_areas::{PAGE_BYTES, PageNo, Prot, Snapshot, SpaceId};
use sd_command::{Command, Reply};
use sd_journal::Entry;
use std::alloc::{AllocError, Global};
use std::collections::BTreeMap;

/// What the entries of a legal journal change of the memory that a run started from.
pub(crate) fn changes_by(
    alloc: Global,
    base: &Snapshot,
    entries: &[Entry],
) -> Result<Overlay, AllocError>
    requires legal { (start : Base) × (start.memory ≡ memory_of base.now)
        × IsLegal start (reverse entries.now) }
    ensures { (start : Base) → start.memory ≡ memory_of base.now
        → IfOk result (λ overlay. memory_over overlay.entries (memory_of base.now)
        ≡ memory_after start (reverse entries.now)) }
{
    let mut overlay = BTreeMap::new(alloc);
    for entry in entries {
        if let Entry::Applied { command, reply, .. } = entry {
            apply(alloc, &mut overlay, base, command, reply)?;
        }
    }
    Ok(overlay)
}

/// Makes the effect of a command with a legal reply.
fn apply(
    alloc: Global,
    overlay: &mut Overlay,
    base: &Snapshot,
    command: &Command,
    reply: &Reply,
) -> Result<(), AllocError>
    requires { IsLegalReply (memory_over overlay.old.entries (memory_of base.now)) false command.now reply.now
        ⊎ (reply.now ≡ told.Refused Frozen) }
    ensures { OnOk result (memory_over overlay.new.entries (memory_of base.now)
        ≡ effect command.now reply.now (memory_over overlay.old.entries (memory_of base.now))) }
{
    match reply {
        Reply::Done => apply_done(alloc, overlay, base, command),
        Reply::Child(child) => apply_child(alloc, overlay, base, command, *child),
        _ => Ok(()),
    }
}

/// Makes the effect of a fork that returned a child.
fn apply_child(
    alloc: Global,
    overlay: &mut Overlay,
    base: &Snapshot,
    command: &Command,
    child: SpaceId,
) -> Result<(), AllocError>
    requires { IsLegalReply (memory_over overlay.old.entries (memory_of base.now)) false command.now
        (told.Child child) }
    ensures { OnOk result (memory_over overlay.new.entries (memory_of base.now)
        ≡ effect command.now (told.Child child) (memory_over overlay.old.entries (memory_of base.now))) }
{
    match command {
        Command::Fork { space } => fork(alloc, overlay, base, *space, child),
        _ => Ok(()),
    }
}

/// Makes the effect of a command that was carried out.
fn apply_done(
    alloc: Global,
    overlay: &mut Overlay,
    base: &Snapshot,
    command: &Command,
) -> Result<(), AllocError>
    requires { IsLegalReply (memory_over overlay.old.entries (memory_of base.now)) false command.now told.Done }
    ensures { OnOk result (memory_over overlay.new.entries (memory_of base.now)
        ≡ effect command.now told.Done (memory_over overlay.old.entries (memory_of base.now))) }
{
    match command {
        Command::Mmap {
            space,
            address,
            length,
            prot,
        } => mmap(alloc, overlay, base, *space, *address, *length, *prot),
        Command::Munmap {
            space,
            address,
            length,
        } => munmap(alloc, overlay, base, *space, *address, *length),
        Command::Mprotect {
            space,
            address,
            length,
            prot,
        } => mprotect(alloc, overlay, base, *space, *address, *length, *prot),
        Command::Exit { space } => end_space(overlay, *space),
        Command::TryStore {
            space,
            address,
            bytes,
        } => store_at(alloc, overlay, base, *space, *address, bytes.as_slice()),
        Command::Store {
            space,
            address,
            bytes,
        } => store_at(alloc, overlay, base, *space, *address, bytes.as_slice()),
        _ => Ok(()),
    }
}

/// The first page of a range that is within the addresses, and the number after its last page.
fn run_of(address: u64, length: u64) -> (PageNo, u64)
    requires some { 0 < length }
    requires within { page_of address + pages_for length ≤ 2 ^ 35 }
    ensures first { result.0 ≡ page_of address }
    ensures end { result.1 ≡ page_of address + pages_for length }
    ensures ordered { result.0 < result.1 }
{
    let first = address / PAGE_BYTES;
    let end = first + length.div_ceil(PAGE_BYTES);
    (PageNo::new(first).unwrap(), end)
}

fn mmap(
    alloc: Global,
    overlay: &mut Overlay,
    base: &Snapshot,
    space: SpaceId,
    address: u64,
    length: u64,
    prot: Prot,
) -> Result<(), AllocError>
    requires alive { is_alive (memory_over overlay.old.entries (memory_of base.now)) space ≡ true }
    requires some { 0 < length }
    requires within { page_of address + pages_for length ≤ 2 ^ 35 }
    ensures { OnOk result (memory_over overlay.new.entries (memory_of base.now)
        ≡ after_mmap (memory_over overlay.old.entries (memory_of base.now)) space address length prot) }
{
    let (first, end) = run_of(address, length);
    let mut changes = take_changes(alloc, overlay, space);
    map_run(alloc, &mut changes, first.number(), end, prot)?;
    put_changes(overlay, space, changes)
}

fn munmap(
    alloc: Global,
    overlay: &mut Overlay,
    base: &Snapshot,
    space: SpaceId,
    address: u64,
    length: u64,
) -> Result<(), AllocError>
    requires alive { is_alive (memory_over overlay.old.entries (memory_of base.now)) space ≡ true }
    requires some { 0 < length }
    requires within { page_of address + pages_for length ≤ 2 ^ 35 }
    ensures { OnOk result (memory_over overlay.new.entries (memory_of base.now)
        ≡ after_munmap (memory_over overlay.old.entries (memory_of base.now)) space address length) }
{
    let (first, end) = run_of(address, length);
    let none = BTreeMap::new(alloc);
    let mut changes = take_changes(alloc, overlay, space);
    unmap_run(&mut changes, pages_in(base, &none, space), first, end)?;
    put_changes(overlay, space, changes)
}

fn mprotect(
    alloc: Global,
    overlay: &mut Overlay,
    base: &Snapshot,
    space: SpaceId,
    address: u64,
    length: u64,
    prot: Prot,
) -> Result<(), AllocError>
    requires alive { is_alive (memory_over overlay.old.entries (memory_of base.now)) space ≡ true }
    requires within { 0 < length → page_of address + pages_for length ≤ 2 ^ 35 }
    ensures { OnOk result (memory_over overlay.new.entries (memory_of base.now)
        ≡ after_mprotect (memory_over overlay.old.entries (memory_of base.now)) space address length prot) }
{
    if length == 0 {
        return Ok(());
    }
    let (first, end) = run_of(address, length);
    let none = BTreeMap::new(alloc);
    let pages = pages_in(base, &none, space);
    let mut changes = take_changes(alloc, overlay, space);
    protect_run(alloc, &mut changes, pages, first.number(), end, prot)?;
    put_changes(overlay, space, changes)
}

fn fork(
    alloc: Global,
    overlay: &mut Overlay,
    base: &Snapshot,
    parent: SpaceId,
    child: SpaceId,
) -> Result<(), AllocError>
    requires alive { is_alive (memory_over overlay.old.entries (memory_of base.now)) parent ≡ true }
    ensures { OnOk result (memory_over overlay.new.entries (memory_of base.now)
        ≡ after_fork (memory_over overlay.old.entries (memory_of base.now)) parent child) }
{
    let none = BTreeMap::new(alloc);
    let unchanged = BTreeMap::new(alloc);
    let copy = changes_of_child(
        alloc,
        changes_in(overlay, &unchanged, parent),
        pages_in(base, &none, parent),
        pages_in(base, &none, child),
    )?;
    put_changes(overlay, child, copy)
}

fn store_at(
    alloc: Global,
    overlay: &mut Overlay,
    base: &Snapshot,
    space: SpaceId,
    address: u64,
    bytes: &[u8],
) -> Result<(), AllocError>
    requires alive { is_alive (memory_over overlay.old.entries (memory_of base.now)) space ≡ true }
    requires within { address % 4096 + length bytes.now ≤ 4096 }
    requires mapped { IsSome (value_at (memory_over overlay.old.entries (memory_of base.now)) space (page_of address)) }
    ensures { OnOk result (memory_over overlay.new.entries (memory_of base.now)
        ≡ after_store (memory_over overlay.old.entries (memory_of base.now)) space address bytes.now) }
{
    let offset = (address % PAGE_BYTES) as usize;
    let none = BTreeMap::new(alloc);
    let pages = pages_in(base, &none, space);
    let mut changes = take_changes(alloc, overlay, space);
    let Some(page) = page_with(&changes, pages, address / PAGE_BYTES) else {
        return Ok(());
    };
    store(alloc, &mut changes, pages, page, offset, bytes)?;
    put_changes(overlay, space, changes)
}
