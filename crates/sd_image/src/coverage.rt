//! Whether runs have exactly the pages of areas.

ghost use Rattle.std.specs.Prelude.{◌≡◌, ◌==◌, ℕ, ◌+◌, ◌<◌, ◌^◌, List, [], ◌++◌, MatchOption, IfSome};
ghost use Rattle.std.specs.List.{flat_map, list_all};
ghost use Rattle.sd_areas.specs.Areas.{area_pages};
ghost use Rattle.sd_image.specs.Table.{run_pages};
ghost use Rattle.sd_image.specs.Coverage.{pages_left};
ghost use Rattle.sd_image.specs.Reading.{pages_eq};

use crate::run::Run;
use sd_areas::Area;

/// The pages of areas that no run had yet: what is left of one, and those after it.
#[derive(Clone, Copy)]
pub(crate) struct PagesLeft<'a> {
    pub(crate) first: u128,
    pub(crate) count: u64,
    pub(crate) areas: &'a [Area],
}

/// What is left after the pages of a run, or none where they are not the next ones.
fn behind<'a>(left: PagesLeft<'a>, run: &Run) -> Option<PagesLeft<'a>>
    requires { left.first + left.count < 2 ^ 65 }
    ensures fits { IfSome result (λ rest. rest.first + rest.count < 2 ^ 65) }
    ensures pages { MatchOption result
        ((others : List ℕ) → pages_left left.entry ≡ run_pages run.now ++ others → ⊥)
        (λ rest. pages_left left.entry ≡ run_pages run.now ++ pages_left rest) }
{
    let PagesLeft {
        first: mut page,
        mut count,
        mut areas,
    } = left;
    let mut first = u128::from(run.first.number());
    let mut wanted = run.count;
    while wanted > 0 {
        if count > 0 {
            if page != first {
                return None;
            }
            let both = wanted.min(count);
            first += u128::from(both);
            wanted -= both;
            page += u128::from(both);
            count -= both;
        } else {
            let (area, rest) = areas.split_first()?;
            page = u128::from(area.first.number());
            count = area.count;
            areas = rest;
        }
    }
    Some(PagesLeft {
        first: page,
        count,
        areas,
    })
}

/// Whether none of the areas has a page.
fn are_empty(areas: &[Area]) -> bool
    ensures { result ≡ list_all (λ area. area.count == 0) areas.now }
{
    areas.iter().all(|area| area.count == 0)
}

/// Whether no page is left.
fn is_empty(left: PagesLeft) -> bool
    ensures { result ≡ pages_eq (pages_left left.entry) [] }
{
    left.count == 0 && are_empty(left.areas)
}

/// Whether the runs' pages are the areas' pages.
pub(crate) fn have_same_pages(areas: &[Area], runs: &[Run]) -> bool
    ensures { result ≡ pages_eq (flat_map area_pages areas.now) (flat_map run_pages runs.now) }
{
    let mut left = PagesLeft {
        first: 0,
        count: 0,
        areas,
    };
    for run in runs {
        let Some(rest) = behind(left, run) else {
            return false;
        };
        left = rest;
    }
    is_empty(left)
}
