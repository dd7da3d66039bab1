//! The runs of pages that rise, page by page.
ghost use Rattle.std.specs.Prelude.{◌≡◌, ℕ, List, ◌+◌, ◌≤◌, ◌^◌, ◌++◌, ◌∷◌, [], OnOk, OnErr};
ghost use Rattle.sd_image.specs.Runs.{AreRunsOf, IsSourced, PageWay, RunsHavePages, end_of, is_continued};

use crate::run::{Run, RunKind};
use sd_areas::PageNo;
use std::alloc::AllocError;

/// Whether a page that an image has in this way goes on where a run ends.
fn continues(run: &Run, page: u64, kind: RunKind) -> bool
    requires { run.now.first + run.now.count ≤ 2 ^ 35 }
    ensures { result ≡ is_continued run.now page kind }
{
    run.kind == kind && run.first.number() + run.count == page
}

/// Puts a page after those of some runs: it makes the last run longer, or begins a new one. It takes constant time,
/// and memory only for a new run.
///
/// # Errors
///
/// Out of memory where a new run finds no room; the runs stay then.
pub fn push_page(runs: &mut Vec<Run>, page: PageNo, kind: RunKind) -> Result<(), AllocError>
    requires behind { end_of runs.old.items ≤ page }
    // The maximal runs of some pages become those of these and one more.
    ensures more { (parent : ℕ) (pages : List PageWay) → AreRunsOf parent pages runs.old.items
        → IsSourced parent kind
        → OnOk result (AreRunsOf parent (pages ++ (page, kind) ∷ []) runs.new.items) }
    ensures end { OnOk result (end_of runs.new.items ≡ page + 1) }
    ensures err { OnErr result (runs.new.items ≡ runs.old.items) }
{
    let number = page.number();
    let single = Run {
        first: page,
        count: 1,
        kind,
    };
    let Some(last) = runs.pop() else {
        runs.push(single)?;
        return Ok(());
    };
    if continues(&last, number, kind) {
        runs.push(Run {
            first: last.first,
            count: last.count + 1,
            kind: last.kind,
        })?;
        return Ok(());
    }
    runs.push(last)?;
    runs.push(single)?;
    Ok(())
}

/// A law: the runs of some pages have exactly these pages, and in each way those that are to be had so.
pub fn runs_have_pages()
    ensures { RunsHavePages }
{}
