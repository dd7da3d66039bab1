//! What a merge knows of the image that it repeats.
ghost use Rattle.std.specs.Prelude.{◌≡◌, ◌+◌};
ghost use Rattle.sd_writing.specs.Tables.{listed};
ghost use Rattle.sd_merge.specs.Sources.{few_pages, listed_count, runs_count, source_from};

use sd_chain::OpenImage;
use sd_image::{Run, SpaceTable};

/// How many pages an image has at most that can be restored.
pub(crate) const PAGE_LIMIT: u64 = 65_536;

/// What a merge knows of the image that it repeats.
#[derive(Clone, Copy, PartialEq, Eq)]
pub struct Source {
    pub serial: u64,
    pub stands_for: u64,
    pub checkpoint: u64,
    /// How many pages it lists, at most 65,536.
    pub pages: u64,
}

/// How many pages these are, at most 65,536.
fn capped(count: u64, more: u64) -> u64
    ensures { result ≡ few_pages (count + more) }
{
    count.saturating_add(more).min(PAGE_LIMIT)
}

/// How many pages runs have, at most 65,536.
fn count_runs(runs: &[Run]) -> u64
    ensures { result ≡ few_pages (runs_count runs.now) }
{
    let mut count = 0;
    for run in runs {
        count = capped(count, run.count);
    }
    count
}

/// How many pages spaces list, at most 65,536.
fn count_spaces(spaces: &[SpaceTable]) -> u64
    ensures { result ≡ few_pages (listed_count (listed spaces.now)) }
{
    let mut count = 0;
    for space in spaces {
        count = capped(count, count_runs(&space.runs));
    }
    count
}

impl Source {
    /// What a merge knows of this image. It goes over the image's runs once.
    pub fn of(image: &OpenImage) -> Self
        ensures { result ≡ source_from image.now }
    {
        Source {
            serial: image.header().serial,
            stands_for: image.header().stands_for,
            checkpoint: image.header().checkpoint,
            pages: count_spaces(&image.table().spaces),
        }
    }
}
