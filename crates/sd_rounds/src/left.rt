//! How much a checkpoint has before it, at most: steps that are accepted, and outcomes of requests that were out.
ghost use Rattle.std.specs.Prelude.{◌≡◌, ◌≤◌, ◌^◌};
ghost use Rattle.sd_pagetable.specs.Contents.{plain_of};
ghost use Rattle.sd_rounds.specs.Left.{pages_ahead};

use sd_areas::{PageNo, SpaceId};
use sd_pagetable::{Memory, SECTORS, plain_law};

/// A page that is ahead: a visit, the copies of its sectors, and the request and the outcome of its write.
pub(crate) const PAGE_AHEAD: u64 = 1 + SECTORS as u64 + WRITE;

/// The write of a page that is copied: a request and its outcome.
pub(crate) const WRITE: u64 = 2;

/// A format that hasn't begun: requests and outcomes of three calls at most.
pub(crate) const FORMAT: u128 = 6;

/// The freeze.
pub(crate) const FREEZE: u128 = 1;

/// The close of a body that hasn't begun: requests and outcomes of five calls.
pub(crate) const CLOSE: u128 = 10;

/// The end of a checkpoint.
pub(crate) const END: u128 = 1;

/// How many pages are mapped above this one, or in all. It goes over them one by one.
pub(crate) fn pages_ahead(memory: &Memory, cursor: Option<(SpaceId, PageNo)>) -> u64
    ensures ahead { result ≡ pages_ahead cursor (plain_of memory.now) }
    ensures few { result ≤ 2 ^ 40 }
{
    plain_law();
    memory.sound();
    let mut count = 0;
    let mut after = cursor;
    while let Some(next) = memory.next_page(after) {
        count += 1;
        after = Some(next);
    }
    count
}
