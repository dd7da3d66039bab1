//! The table of a merged image, from that of its source and the pages that were taken.
ghost use Rattle.std.specs.Prelude.{◌≡◌, IfOk};
ghost use Rattle.sd_writing.specs.Tables.{listed};
ghost use Rattle.sd_merge.specs.Gathered.{front_runs, spaces_after, tables_of};

use sd_areas::SpaceId;
use sd_image::{Run, SpaceTable, Table};
use std::alloc::{AllocError, Global};

/// The runs of a space that may be the first of these, and the spaces after it.
fn split_space(spaces: &[SpaceTable], space: SpaceId) -> (&[Run], &[SpaceTable])
    ensures runs { result.0.now ≡ front_runs space (listed spaces.now) }
    ensures after { listed result.1.now ≡ spaces_after space (listed spaces.now) }
{
    let Some((first, others)) = spaces.split_first() else {
        return (&[], spaces);
    };
    if first.space.number() == space.number() {
        return (first.runs.as_slice(), others);
    }
    (&[], spaces)
}

/// The table that has the spaces and the areas of a source, and the pages that were taken of it.
///
/// # Errors
///
/// Out of memory where it finds no room.
pub(crate) fn gathered_table(
    alloc: Global,
    source: &Table,
    spaces: &[SpaceTable],
) -> Result<Table, AllocError>
    ensures { IfOk result (λ table. listed table.spaces.items
        ≡ tables_of (listed source.now.spaces.items) (listed spaces.now)) }
{
    let mut tables = Vec::new(alloc);
    let mut left = spaces;
    for listed in &source.spaces {
        let (runs, others) = split_space(left, listed.space);
        left = others;
        tables.push(SpaceTable {
            space: listed.space,
            areas: listed.areas.to_vec(alloc)?,
            runs: runs.to_vec(alloc)?,
        })?;
    }
    Ok(Table { spaces: tables })
}
