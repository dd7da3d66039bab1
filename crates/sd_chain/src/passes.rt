//! The pages that a table lists, one after the other.
ghost use Rattle.std.specs.Prelude.{◌≡◌, ◌+◌, ◌-◌, ◌^◌, ℕ, None, min, map};
ghost use Rattle.sd_image.specs.declared.header.Header.{Header};
ghost use Rattle.sd_image.specs.declared.run.Run.{Run};
ghost use Rattle.sd_image.specs.Table.{AreRuns, IsTable, listing_of};
ghost use Rattle.sd_chain.specs.Passes.{IsFirstPageFrom, IsLeastFrom, from_within, start_of};

use sd_areas::{PAGE_NUMBER_LIMIT, PageNo, SpaceId};
use sd_image::{Run, SpaceTable};

/// The number after the last page of a run.
fn end_of(run: &Run) -> u64
    ensures { result ≡ min (run.now.first + run.now.count) (2 ^ 64 - 1) }
{
    run.first.number().saturating_add(run.count)
}

/// The least page from this number on that a space's runs have. The time grows with the logarithm of the runs.
fn page_from(runs: &[Run], from: u64) -> Option<PageNo>
    ensures { (parent : ℕ) → AreRuns parent None runs.now → IsLeastFrom runs.now from result }
{
    let at = runs.partition_point(|run| end_of(run) <= from);
    if at >= runs.len() {
        return None;
    }
    let first = runs[at].first.number();
    PageNo::new(first.max(from))
}

/// From which number on the pages of a space are at a place of a table or after it.
fn from_in(number: u64, space: u64, page: u64) -> u64
    ensures { result ≡ from_within number (space, page) }
{
    if number < space {
        PAGE_NUMBER_LIMIT
    } else if number == space {
        page
    } else {
        0
    }
}

/// The number of a space and a page from which on pages are after this one, or from which on all are.
pub(crate) fn place_after(after: Option<(SpaceId, PageNo)>) -> (u64, u64)
    ensures { result ≡ start_of after }
{
    let Some((space, page)) = after else {
        return (0, 0);
    };
    (space.number(), page.number() + 1)
}

/// The first page of a table's spaces from a place on. The time grows with the spaces, and with the logarithm of the
/// runs of each.
pub(crate) fn first_from(spaces: &[SpaceTable], space: u64, page: u64) -> Option<(SpaceId, PageNo)>
    ensures { (h : Header) → IsTable h (map listing_of spaces.now)
        → IsFirstPageFrom spaces.now (space, page) result }
{
    for listed in spaces {
        let from = from_in(listed.space.number(), space, page);
        if let Some(found) = page_from(&listed.runs, from) {
            return Some((listed.space, found));
        }
    }
    None
}
