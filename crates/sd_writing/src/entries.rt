//! Entries of an image, as the runs of each space.
ghost use Rattle.std.specs.Prelude.{◌≡◌, ◌-◌, ◌==◌, ℕ, ◌≤◌, false, length, slice_get, OnOk, OnErr};
ghost use Rattle.std.specs.Option.{option_map_or};
ghost use Rattle.sd_image.specs.declared.table.SpaceTable.{SpaceTable};
ghost use Rattle.sd_image.specs.Runs.{IsSourced};
ghost use Rattle.sd_writing.specs.Tables.{AreTables, EndBefore, IsPushed, SpaceIsBegun, listed};

use sd_areas::{PageNo, SpaceId};
use sd_image::{RunKind, SpaceTable, push_page};
use std::alloc::{AllocError, Global};

/// Puts a page after the entries. It takes constant time.
///
/// # Errors
///
/// Out of memory where a run or a table finds no room: the entries stay.
#[inline]
pub fn push_entry(
    alloc: Global,
    tables: &mut Vec<SpaceTable>,
    space: SpaceId,
    page: PageNo,
    kind: RunKind,
) -> Result<(), AllocError>
    requires after { EndBefore (space, page) (listed tables.old.items) }
    ensures more { (parent least : ℕ) → AreTables parent least (listed tables.old.items)
        → IsSourced parent kind → least ≤ space
        → OnOk result (IsPushed parent least (listed tables.old.items) (listed tables.new.items)
        (space, page) kind) }
    ensures err { OnErr result (listed tables.new.items ≡ listed tables.old.items) }
{
    if !end_in(tables, space) {
        return push_space(alloc, tables, space, page, kind);
    }
    let place = tables.len() - 1;
    let last = &mut tables[place];
    push_page(&mut last.runs, page, kind)
}

/// Whether the last of some tables is of a space.
#[inline]
fn end_in(tables: &[SpaceTable], space: SpaceId) -> bool
    ensures { result ≡ option_map_or (λ (last : SpaceTable). last.space == space)
        (slice_get tables.now (length tables.now - 1)) false }
{
    match tables.last() {
        Some(last) => last.space.number() == space.number(),
        None => false,
    }
}

/// Puts the first page of a space after the entries.
#[inline(never)]
fn push_space(
    alloc: Global,
    tables: &mut Vec<SpaceTable>,
    space: SpaceId,
    page: PageNo,
    kind: RunKind,
) -> Result<(), AllocError>
    ensures begun { OnOk result (SpaceIsBegun tables.old.items tables.new.items (space, page) kind) }
    ensures err { OnErr result (listed tables.new.items ≡ listed tables.old.items) }
{
    let mut runs = Vec::new(alloc);
    push_page(&mut runs, page, kind)?;
    tables.push(SpaceTable {
        space,
        areas: Vec::new(alloc),
        runs,
    })?;
    Ok(())
}
