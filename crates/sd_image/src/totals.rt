//! How many pages a table has, against a limit.

ghost use Rattle.std.specs.Prelude.{◌≡◌, ◌-◌, ◌≤◌, if◌then◌else◌, map, sum_by, SomeIff};
ghost use Rattle.sd_image.specs.Table.{listing_of, is_data, data_count, mapped_count};

use crate::run::{Run, RunKind};
use crate::table::SpaceTable;
use sd_areas::Area;

/// What the areas' pages leave of a limit, or none where they are more.
fn left_by_areas(limit: u64, areas: &[Area]) -> Option<u64>
    ensures { SomeIff result (sum_by (λ area. area.count) areas.now ≤ limit)
        (limit - sum_by (λ area. area.count) areas.now) }
{
    let mut left = limit;
    for area in areas {
        left = left.checked_sub(area.count)?;
    }
    Some(left)
}

/// How many pages of a run have their bytes in the image.
fn data_pages(run: &Run) -> u64
    ensures { result ≡ (if is_data run.now then run.now.count else 0) }
{
    match run.kind {
        RunKind::Data => run.count,
        RunKind::Parent | RunKind::Zero => 0,
    }
}

/// What the pages with data leave of a limit, or none where they are more.
fn left_by_runs(limit: u64, runs: &[Run]) -> Option<u64>
    ensures { SomeIff result (sum_by (λ run. if is_data run then run.count else 0) runs.now ≤ limit)
        (limit - sum_by (λ run. if is_data run then run.count else 0) runs.now) }
{
    let mut left = limit;
    for run in runs {
        left = left.checked_sub(data_pages(run))?;
    }
    Some(left)
}

/// What all mapped pages leave of a limit, or none where they are more.
pub(crate) fn left_by_mapped(limit: u64, spaces: &[SpaceTable]) -> Option<u64>
    ensures { SomeIff result (mapped_count (map listing_of spaces.now) ≤ limit)
        (limit - mapped_count (map listing_of spaces.now)) }
{
    let mut left = limit;
    for space in spaces {
        left = left_by_areas(left, &space.areas)?;
    }
    Some(left)
}

/// What all pages with data leave of a limit, or none where they are more.
pub(crate) fn left_by_data(limit: u64, spaces: &[SpaceTable]) -> Option<u64>
    ensures { SomeIff result (data_count (map listing_of spaces.now) ≤ limit)
        (limit - data_count (map listing_of spaces.now)) }
{
    let mut left = limit;
    for space in spaces {
        left = left_by_runs(left, &space.runs)?;
    }
    Some(left)
}
