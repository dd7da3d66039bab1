//! The mapped pages of a memory, one by one.
ghost use Rattle.std.specs.Prelude.{◌≡◌, ◌++◌, ◌∷◌, [], true, All, IfOk, OnOk};
ghost use Rattle.sd_restore.specs.Placed.{IsWithin, pages_in, placed_pages};
ghost use Rattle.sd_receive.specs.Merged.{page_of, pages_seen};

use sd_areas::{PageNo, Prot, SpaceId};
use sd_chain::Found;
use sd_restore::PlacedRun;
use std::alloc::{AllocError, Global};

/// A mapped page, and where its bytes are.
#[derive(Clone, Copy, PartialEq, Eq)]
pub(crate) struct MappedPage {
    pub(crate) space: SpaceId,
    pub(crate) page: PageNo,
    pub(crate) prot: Prot,
    pub(crate) there: Found,
}

/// Puts a page after others.
pub(crate) fn push(pages: &mut Vec<MappedPage>, page: MappedPage) -> Result<(), AllocError>
    ensures { OnOk result (pages_seen pages.new.items ≡ pages_seen pages.old.items ++ page_of page ∷ []) }
{
    pages.push(page)?;
    Ok(())
}

/// Puts the pages of a run after others.
fn push_run(pages: &mut Vec<MappedPage>, run: &PlacedRun) -> Result<(), AllocError>
    requires { IsWithin run.now }
    ensures { OnOk result (pages_seen pages.new.items ≡ pages_seen pages.old.items ++ pages_in run.now) }
{
    for k in 0..run.count {
        let page = PageNo::new(run.first.number() + k).unwrap();
        let page = MappedPage {
            space: run.space,
            page,
            prot: run.prot,
            there: run.place(k),
        };
        push(pages, page)?;
    }
    Ok(())
}

/// The pages of runs, one by one.
pub(crate) fn pages_of(alloc: Global, runs: &[PlacedRun]) -> Result<Vec<MappedPage>, AllocError>
    requires { All IsWithin runs.now }
    ensures { IfOk result (λ pages. pages_seen pages.items ≡ placed_pages runs.now) }
{
    let mut pages = Vec::new(alloc);
    for run in runs {
        push_run(&mut pages, run)?;
    }
    Ok(pages)
}

/// Whether two pages are the same, with their bytes in the same place.
fn is_same(page: &MappedPage, other: &MappedPage) -> bool
    ensures { result ≡ true → page.now ≡ other.now }
{
    page == other
}

/// Whether two lists have the same pages.
pub(crate) fn are_same(pages: &[MappedPage], others: &[MappedPage]) -> bool
    ensures { result ≡ true → pages_seen pages.now ≡ pages_seen others.now }
{
    if pages.len() != others.len() {
        return false;
    }
    for place in 0..pages.len() {
        if !is_same(&pages[place], &others[place]) {
            return false;
        }
    }
    true
}
