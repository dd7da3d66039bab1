//! A table, with the places of its data pages.
ghost use Rattle.std.specs.Prelude.{◌≡◌, ◌==◌, ◌≤◌, ◌<◌, ◌+◌, ◌↔◌, ℕ, IfOk, IfSome, MatchOption, All, Some, None};
ghost use Rattle.std.specs.Prelude.{IsTrue, IsNone, length, slice_get, map, position};
ghost use Rattle.sd_areas.specs.Pages.{is_within};
ghost use Rattle.sd_image.specs.declared.header.Header.{Header};
ghost use Rattle.sd_image.specs.declared.run.Run.{Run};
ghost use Rattle.sd_image.specs.Table.{listing_of, AreRuns, IsTable};
ghost use Rattle.sd_chain.specs.declared.way.Way.{Way};
ghost use Rattle.sd_chain.specs.Placed.{after_run, after_runs, places_of, all_places_of};
ghost use Rattle.sd_chain.specs.Chains.{AreAlike};
ghost use Rattle.sd_chain.specs.Ways.{HasPage};

use crate::spot::Spot;
use crate::stretch::Stretch;
use crate::way::Way;
use sd_areas::{PageNo, SpaceId};
use sd_image::{Run, RunKind, SpaceTable, Table, few_pages, one_kind, one_place};
use std::alloc::{AllocError, Global};
use std::marker::Model;

/// A table that knows for each run how many data pages of its image stand before it, so that a page is found in a
/// time that grows with the logarithm of the runs.
#[derive(Drop)]
pub struct PlacedTable {
    pub(crate) table: Table,
    pub(crate) places: Vec<Vec<u64>>,
}

impl Model for PlacedTable {
    ghost use Rattle.std.specs.Prelude.{◌≡◌, List, map};
    ghost use Rattle.sd_image.specs.Table.{Listed, listing_of};
    ghost use Rattle.sd_chain.specs.Placed.{all_places_of};

    ghost Value = { List Listed };

    ghost view = { λ t. map listing_of t.table.spaces.items };

    ghost invariant = { λ t. map (λ row. row.items) t.places.items ≡ all_places_of 0 t.table.spaces.items };
}

/// How many data pages stand before the end of a run.
fn after(before: u64, run: &Run) -> u64
    ensures { result ≡ after_run before run.now }
{
    match run.kind {
        RunKind::Data => before.saturating_add(run.count),
        RunKind::Parent | RunKind::Zero => before,
    }
}

/// How many data pages stand before each run, and before their end.
fn places_before(alloc: Global, runs: &[Run], before: u64) -> Result<(Vec<u64>, u64), AllocError>
    ensures row { IfOk result (λ r. r.0.items ≡ places_of before runs.now) }
    ensures end { IfOk result (λ r. r.1 ≡ after_runs before runs.now) }
{
    let mut row = Vec::new(alloc);
    let mut next = before;
    for run in runs {
        row.push(next)?;
        next = after(next, run);
    }
    Ok((row, next))
}

/// Where the table has a space.
fn space_index(spaces: &[SpaceTable], space: SpaceId) -> Option<usize>
    ensures { result ≡ position (λ (s : _). s.space == space) spaces.now }
{
    spaces
        .iter()
        .position(|s| s.space.number() == space.number())
}

/// Whether a run has a page.
fn has_page(run: &Run, page: PageNo) -> bool
    ensures { result ≡ is_within run.now.first run.now.count page }
{
    run.first.number() <= page.number() && page.number() - run.first.number() < run.count
}

/// Which of a space's runs has a page. The time grows with the logarithm of the runs.
fn run_index(runs: &[Run], page: PageNo) -> Option<usize>
    ensures place { IfSome result (λ at. at < length runs.now) }
    ensures run { IfSome result
        (λ at. (run : Run) → slice_get runs.now at ≡ Some run
        → IsTrue (is_within run.first run.count page)) }
    ensures none { (parent : ℕ) → AreRuns parent None runs.now → IsNone result
        → All (λ run. IsTrue (is_within run.first run.count page) → ⊥) runs.now }
{
    let after = runs.partition_point(|run| run.first.number() <= page.number());
    if after == 0 {
        return None;
    }
    let at = after - 1;
    has_page(&runs[at], page).then_some(at)
}

/// Where the table has a space, looked for first at a place.
fn space_near(spaces: &[SpaceTable], near: usize, space: SpaceId) -> Option<usize>
    ensures place { IfSome result (λ at. at < length spaces.now) }
    ensures space { IfSome result (λ at. (s : SpaceTable) → slice_get spaces.now at ≡ Some s
        → s.space ≡ space) }
    ensures none { IsNone result → position (λ (s : _). s.space == space) spaces.now ≡ None }
{
    if near < spaces.len() && spaces[near].space.number() == space.number() {
        return Some(near);
    }
    space_index(spaces, space)
}

/// Whether the run at a place is there and has a page.
fn is_at(runs: &[Run], at: usize, page: PageNo) -> bool
    ensures place { IsTrue result → at < length runs.now }
    ensures run { IsTrue result → (run : Run) → slice_get runs.now at ≡ Some run
        → IsTrue (is_within run.first run.count page) }
{
    at < runs.len() && has_page(&runs[at], page)
}

/// Which of a space's runs has a page, looked for first at a place and after it.
fn run_near(runs: &[Run], near: usize, page: PageNo) -> Option<usize>
    ensures place { IfSome result (λ at. at < length runs.now) }
    ensures run { IfSome result
        (λ at. (run : Run) → slice_get runs.now at ≡ Some run
        → IsTrue (is_within run.first run.count page)) }
    ensures none { (parent : ℕ) → AreRuns parent None runs.now → IsNone result
        → All (λ run. IsTrue (is_within run.first run.count page) → ⊥) runs.now }
{
    if is_at(runs, near, page) {
        return Some(near);
    }
    let next = near.saturating_add(1);
    if is_at(runs, next, page) {
        return Some(next);
    }
    run_index(runs, page)
}

impl PlacedTable {
    /// Counts the data pages before each run, in one pass over the runs.
    ///
    /// # Errors
    ///
    /// Out of memory where the counts find no room.
    pub fn new(alloc: Global, table: Table) -> Result<Self, AllocError>
        ensures { IfOk result (λ placed. placed ≡ map listing_of table.spaces.items) }
    {
        let mut places = Vec::new(alloc);
        let mut before = 0;
        for space in &table.spaces {
            let (row, end) = places_before(alloc, &space.runs, before)?;
            places.push(row)?;
            before = end;
        }
        Ok(PlacedTable { table, places })
    }

    /// What it says of the spaces.
    pub fn table(&self) -> &Table
        ensures { map listing_of result.now.spaces.items ≡ self.now }
    {
        &self.table
    }

    /// How the table has a page of a space, or none where it doesn't list it.
    /// The time grows with the logarithm of the space's runs.
    pub(crate) fn way(&self, space: SpaceId, page: PageNo) -> Option<Way>
        ensures { (h : Header) → IsTable h self.now → (way : Way)
            → (result ≡ Some way) ↔ HasPage self.now (space, page) way }
    {
        one_kind();
        one_place();
        let stretch = self.stretch(space, page, Spot::FIRST)?;
        Some(stretch.way)
    }

    /// How the table has a page of a space and as many after it as it has alike, or none where it doesn't list the
    /// page. At a spot or in the run after it a page is found at once. Else the time grows with the logarithm of the
    /// space's runs.
    pub(crate) fn stretch(&self, space: SpaceId, page: PageNo, near: Spot) -> Option<Stretch>
        ensures some { IfSome result (λ s. 0 < s.count) }
        ensures alike { (h : Header) → IsTable h self.now
            → IfSome result (λ s. AreAlike self.now (space, page) s.way s.count) }
        ensures none { (h : Header) → IsTable h self.now → IsNone result
            → (way : Way) → HasPage self.now (space, page) way → ⊥ }
    {
        few_pages();
        let index = space_near(&self.table.spaces, near.space, space)?;
        let runs = &self.table.spaces[index].runs;
        let at = run_near(runs, near.run, page)?;
        let run = runs[at];
        let within = page.number() - run.first.number();
        let count = run.count - within;
        let spot = Spot {
            space: index,
            run: at,
        };
        Some(match run.kind {
            RunKind::Data => {
                let rows = self.places.as_slice();
                let row = rows[index].as_slice();
                let place = row[at].saturating_add(within);
                let way = Way::Data { place };
                Stretch { way, count, spot }
            }
            RunKind::Parent => {
                let way = Way::Parent;
                Stretch { way, count, spot }
            }
            RunKind::Zero => {
                let way = Way::Zero;
                Stretch { way, count, spot }
            }
        })
    }
}
