//! The memory that a store shows as a document, without its bytes.
ghost use Rattle.std.specs.Prelude.{◌≡◌, ◌+◌, ◌-◌, ◌^◌, map, min, IfOk};
ghost use Rattle.serde_json.specs.Data.{array};
ghost use Rattle.serde_json.specs.View.{items_of, view};
ghost use Rattle.sd_disk.specs.Reads.{OnlyReads};
ghost use Rattle.sd_image.specs.declared.table.SpaceTable.{SpaceTable};
ghost use Rattle.sd_image.specs.Table.{listing_of};
ghost use Rattle.sd_json.specs.Documents.{IsMemory, IsMemoryAt, area_fields, memory_fields, page_count, runs_of};
ghost use Rattle.sd_json.specs.Documents.{space_fields, zero_count, zeros_there};

use sd_areas::{Area, SpaceId};
use sd_chain::Found;
use sd_disk::Disk;
use sd_image::SpaceTable;
use sd_restore::{Fault, PlacedMemory, PlacedRun, place_at, place_newest, scan};
use sd_show::numbers_object;
use serde_json::{Value, put};
use std::alloc::{AllocError, Global};

/// How many pages, and how many of them are zeros without bytes in a file.
#[derive(Clone, Copy, PartialEq, Eq)]
struct Counts {
    pages: u64,
    zeros: u64,
}

impl Counts {
    /// With the pages of one run more.
    fn with(self, run: &PlacedRun) -> Self
        ensures pages { result.pages ≡ min (self.pages + run.now.count) (2 ^ 64 - 1) }
        ensures zeros { result.zeros ≡ min (self.zeros + zeros_there run.now.there run.now.count) (2 ^ 64 - 1) }
    {
        Counts {
            pages: self.pages.saturating_add(run.count),
            zeros: self.zeros.saturating_add(zeros_of(run)),
        }
    }
}

/// How many of a run's pages are zeros without bytes in a file.
fn zeros_of(run: &PlacedRun) -> u64
    ensures { result ≡ zeros_there run.now.there run.now.count }
{
    match run.there {
        Found::Data { .. } => 0,
        Found::Zero => run.count,
    }
}

/// How many pages of all runs there are.
fn count_all(runs: &[PlacedRun]) -> Counts
    ensures pages { result.pages ≡ page_count runs.now }
    ensures zeros { result.zeros ≡ zero_count runs.now }
{
    let mut counts = Counts { pages: 0, zeros: 0 };
    for run in runs {
        counts = counts.with(run);
    }
    counts
}

/// How many pages of a space there are.
fn count_in(runs: &[PlacedRun], space: SpaceId) -> Counts
    ensures pages { result.pages ≡ page_count (runs_of space runs.now) }
    ensures zeros { result.zeros ≡ zero_count (runs_of space runs.now) }
{
    let mut counts = Counts { pages: 0, zeros: 0 };
    for run in runs {
        if run.space.number() == space.number() {
            counts = counts.with(run);
        }
    }
    counts
}

/// An area.
fn area_json(alloc: Global, area: &Area) -> Result<Value, AllocError>
    ensures { IfOk result (λ document. view document ≡ area_fields area.now) }
{
    let shown = numbers_object(
        alloc,
        &[
            ("first", area.first.number()),
            ("count", area.count),
            ("permissions", u64::from(area.prot.bits())),
        ],
    )?;
    Ok(Value::Object(shown))
}

/// Areas, in their order.
fn areas_json(alloc: Global, areas: &[Area]) -> Result<Value, AllocError>
    ensures { IfOk result (λ document. view document ≡ array (items_of (map area_fields areas.now))) }
{
    let mut shown = Vec::new(alloc);
    for area in areas {
        shown.push(area_json(alloc, area)?)?;
    }
    Ok(Value::from(shown))
}

/// A space: its areas, and how many of these pages are its.
fn space_json(alloc: Global, space: &SpaceTable, runs: &[PlacedRun]) -> Result<Value, AllocError>
    ensures { IfOk result (λ document. view document ≡ space_fields runs.now (listing_of space.now)) }
{
    let counts = count_in(runs, space.space);
    let mut shown = numbers_object(
        alloc,
        &[
            ("space", space.space.number()),
            ("pages", counts.pages),
            ("zeros", counts.zeros),
        ],
    )?;
    put(&mut shown, alloc, "areas", areas_json(alloc, &space.areas)?)?;
    Ok(Value::Object(shown))
}

/// Each space, in their order, with the counts of its pages among these.
fn each_space(alloc: Global, spaces: &[SpaceTable], runs: &[PlacedRun]) -> Result<Value, AllocError>
    ensures { IfOk result (λ document. view document
        ≡ array (items_of (map (λ (s : SpaceTable). space_fields runs.now (listing_of s)) spaces.now))) }
{
    let mut shown = Vec::new(alloc);
    for space in spaces {
        shown.push(space_json(alloc, space, runs)?)?;
    }
    Ok(Value::from(shown))
}

/// Spaces, in their order, with the counts of their pages among these.
fn spaces_json(
    alloc: Global,
    spaces: &[SpaceTable],
    runs: &[PlacedRun],
) -> Result<Value, AllocError>
    ensures { IfOk result (λ document. view document
        ≡ array (items_of (map (space_fields runs.now) (map listing_of spaces.now)))) }
{
    each_space(alloc, spaces, runs)
}

/// A memory: its checkpoint, its spaces, and how many pages there are.
fn memory_json(alloc: Global, placed: &PlacedMemory<'_>) -> Result<Value, AllocError>
    ensures { IfOk result (λ document. view document
        ≡ memory_fields placed.now.checkpoint (map listing_of placed.now.spaces.now) placed.now.runs.items) }
{
    let counts = count_all(&placed.runs);
    let mut shown = numbers_object(
        alloc,
        &[
            ("checkpoint", placed.checkpoint),
            ("pages", counts.pages),
            ("zeros", counts.zeros),
        ],
    )?;
    let spaces = spaces_json(alloc, placed.spaces, &placed.runs)?;
    put(&mut shown, alloc, "spaces", spaces)?;
    Ok(Value::Object(shown))
}

/// A document of the memory that a store shows: its checkpoint, its spaces with their areas, and how many pages are
/// mapped, and how many of them are zeros without bytes in a file. It makes the checks of a restore, and reads no page
/// but for the digests.
///
/// # Errors
///
/// Those of `restore`.
pub fn memory_document<D: Disk>(alloc: Global, disk: &mut D) -> Result<Value, Fault>
    ensures exact { D.is_honest disk.new
        → IfOk result (λ document. IsMemory (D.contents disk.old) (view document)) }
    ensures reads { OnlyReads D.Disk disk.old disk.new }
{
    let catalog = scan(alloc, disk)?;
    let placed = place_newest(alloc, &catalog)?;
    Ok(memory_json(alloc, &placed)?)
}

/// The same document of the memory that a store has at a checkpoint, whether it is the newest or not.
///
/// # Errors
///
/// Those of `restore_at`: `EmptyChain` where the store has no image of the checkpoint.
pub fn memory_document_at<D: Disk>(alloc: Global, disk: &mut D, number: u64) -> Result<Value, Fault>
    ensures exact { D.is_honest disk.new
        → IfOk result (λ document. IsMemoryAt (D.contents disk.old) number (view document)) }
    ensures reads { OnlyReads D.Disk disk.old disk.new }
{
    let catalog = scan(alloc, disk)?;
    let placed = place_at(alloc, &catalog, number)?;
    Ok(memory_json(alloc, &placed)?)
}
