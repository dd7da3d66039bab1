//! What runs of a space have from a page on.
ghost use Rattle.std.specs.Prelude.{◌≡◌, ◌+◌, ◌-◌, ◌<◌, ◌≤◌, ◌^◌, ℕ, All, drop, length};
ghost use Rattle.sd_chain.specs.Chains.{found_on};
ghost use Rattle.sd_restore.specs.Placed.{IsInSlots, IsWithin};
ghost use Rattle.sd_diff.specs.Held.{AreRising, EndsAfter, held_at};
ghost use Rattle.sd_diff.specs.Parts.{IsPart};

use sd_areas::{PAGE_NUMBER_LIMIT, PageNo};
use sd_restore::PlacedRun;

/// What runs of a space have from a page on: nothing, or the pages of a run.
#[derive(Clone, Copy)]
pub(crate) struct Part {
    /// The page after the last of the part.
    pub until: u64,
    /// The run that has these pages, from the first of them on.
    pub run: Option<PlacedRun>,
}

/// The pages of a run from one on.
fn rest_of(run: &PlacedRun, behind: u64) -> PlacedRun
    requires within { IsWithin run.now }
    requires behind { behind < run.now.count }
    ensures within { IsWithin result }
    ensures first { result.first ≡ run.now.first + behind }
    ensures count { result.count ≡ run.now.count - behind }
    ensures prot { result.prot ≡ run.now.prot }
    ensures place { result.there ≡ found_on run.now.there behind }
    ensures slot { (count : ℕ) → IsInSlots count run.now.there → IsInSlots count result.there }
{
    PlacedRun {
        space: run.space,
        first: PageNo::new(run.first.number() + behind).unwrap(),
        count: run.count - behind,
        prot: run.prot,
        there: run.place(behind),
    }
}

/// What runs of a space have from a page on, as far as that is alike.
pub(crate) fn part_at(runs: &[PlacedRun], at: u64) -> Part
    requires at { at < 2 ^ 35 }
    requires within { All IsWithin runs.now }
    requires ahead { EndsAfter at runs.now }
    ensures part { IsPart runs.now at result }
{
    let Some((run, _)) = runs.split_first() else {
        let until = PAGE_NUMBER_LIMIT;
        return Part { until, run: None };
    };
    let first = run.first.number();
    if at < first {
        return Part {
            until: first,
            run: None,
        };
    }
    Part {
        until: first + run.count,
        run: Some(rest_of(run, at - first)),
    }
}

/// How many runs of these end before a page or at it, one after the other from the first on.
fn ended(runs: &[PlacedRun], at: u64) -> usize
    requires { All IsWithin runs.now }
    ensures within { result ≤ length runs.now }
    ensures same { (page : ℕ) → at ≤ page
        → held_at (drop result runs.now) page ≡ held_at runs.now page }
    ensures ahead { EndsAfter at (drop result runs.now) }
{
    let mut place = 0;
    while place < runs.len() {
        if at < runs[place].first.number() + runs[place].count {
            return place;
        }
        place += 1;
    }
    place
}

/// The runs that have pages from one on.
pub(crate) fn runs_from(runs: &[PlacedRun], at: u64) -> &[PlacedRun]
    requires within { All IsWithin runs.now }
    ensures same { (page : ℕ) → at ≤ page → held_at result.now page ≡ held_at runs.now page }
    ensures within { All IsWithin result.now }
    ensures rising { AreRising runs.now → AreRising result.now }
    ensures ahead { EndsAfter at result.now }
    ensures slots { (count : ℕ) → All (λ r. IsInSlots count r.there) runs.now
        → All (λ r. IsInSlots count r.there) result.now }
{
    &runs[ended(runs, at)..]
}
