//! The table of an image, from the runs that a pass made.
ghost use Rattle.std.specs.Prelude.{◌≡◌, ◌+◌, ◌≤◌, map, IfOk, OnOk};
ghost use Rattle.sd_image.specs.Table.{listing_of, mapped_count};
ghost use Rattle.sd_pagetable.specs.Contents.{plain_of};
ghost use Rattle.sd_pagetable.specs.Law.{pages_below};
ghost use Rattle.sd_rounds.specs.SpaceTables.{AreAllSpaces, AreSpacesBelow, space_runs, without_areas};
ghost use Rattle.sd_writing.specs.Tables.{listed};

use sd_areas::{SPACE_LIMIT, SpaceId};
use sd_image::{Run, SpaceTable, Table};
use sd_pagetable::Memory;
use std::alloc::{AllocError, Global};

/// The table of a pre-dump: the spaces that have entries, without areas.
///
/// # Errors
///
/// Out of memory where it finds no room.
pub(crate) fn pre_dump_table(alloc: Global, tables: &[SpaceTable]) -> Result<Table, AllocError>
    ensures { IfOk result (λ table. listed table.spaces.items ≡ map without_areas (listed tables.now)) }
{
    let mut spaces = Vec::new(alloc);
    for table in tables {
        spaces.push(SpaceTable {
            space: table.space,
            areas: Vec::new(alloc),
            runs: table.runs.to_vec(alloc)?,
        })?;
    }
    Ok(Table { spaces })
}

/// The table of a dump: the living spaces with their areas and the runs of their entries.
///
/// # Errors
///
/// Out of memory where it finds no room.
pub(crate) fn dump_table(
    alloc: Global,
    tables: &[SpaceTable],
    memory: &Memory,
) -> Result<Table, AllocError>
    ensures { IfOk result (λ table. AreAllSpaces (plain_of memory.now) (listed tables.now)
        (listed table.spaces.items)) }
{
    sd_pagetable::plain_law();
    sd_pagetable::count_law();
    memory.sound();
    let mut spaces = Vec::new(alloc);
    for number in 1..SPACE_LIMIT + 1 {
        push_living(alloc, &mut spaces, tables, memory, SpaceId::new(number))?;
    }
    Ok(Table { spaces })
}

/// Adds a space to the table of a dump, if it is alive.
fn push_living(
    alloc: Global,
    spaces: &mut Vec<SpaceTable>,
    tables: &[SpaceTable],
    memory: &Memory,
    space: SpaceId,
) -> Result<(), AllocError>
    requires least { 1 ≤ space }
    requires greatest { space ≤ 16 }
    ensures more { AreSpacesBelow space (plain_of memory.now) (listed tables.now)
        (listed spaces.old.items)
        → OnOk result (AreSpacesBelow (space + 1) (plain_of memory.now) (listed tables.now)
        (listed spaces.new.items)) }
    ensures count { mapped_count (listed spaces.old.items) ≡ pages_below memory.now.spaces space
        → OnOk result (mapped_count (listed spaces.new.items)
        ≡ pages_below memory.now.spaces (space + 1)) }
{
    sd_pagetable::plain_law();
    sd_areas::count_law();
    let Some(mapped) = memory.areas(space) else {
        return Ok(());
    };
    let areas = mapped.areas().to_vec(alloc)?;
    let runs = runs_in(tables, space).to_vec(alloc)?;
    spaces.push(SpaceTable { space, areas, runs })?;
    Ok(())
}

/// The runs of a space's entries.
fn runs_in(tables: &[SpaceTable], space: SpaceId) -> &[Run]
    ensures { result.now ≡ space_runs (listed tables.now) space }
{
    for table in tables {
        if table.space.number() == space.number() {
            return table.runs.as_slice();
        }
    }
    &[]
}
