//! How many pages a table lists, by how its image has them.

ghost use Rattle.std.specs.Prelude.{◌≡◌, ◌+◌, ◌-◌, ◌^◌, min};
ghost use Rattle.sd_show.specs.Counts.{run_page_count, runs_pages, spaces_pages, table_pages};
ghost use Rattle.sd_show.specs.Items.{spaces_in};

use crate::items::{ITEM_SIZE, SPACE_HEAD_SIZE, TABLE_HEAD_SIZE, place_after_space, runs_in};
use sd_image::{u32_at, u64_at};

/// How many pages an image lists: with bytes of its own, in its parent, and of zeros.
#[derive(Clone, Copy, PartialEq, Eq)]
pub struct PageCounts {
    pub data: u64,
    pub parent: u64,
    pub zeros: u64,
}

impl PageCounts {
    /// No page.
    pub const NONE: PageCounts = PageCounts {
        data: 0,
        parent: 0,
        zeros: 0,
    };

    /// How many pages in all. The number stops at 2^64 - 1.
    pub fn all(self) -> u64
        ensures { result ≡ min (self.data + self.parent + self.zeros) (2 ^ 64 - 1) }
    {
        self.data
            .saturating_add(self.parent)
            .saturating_add(self.zeros)
    }

    /// These pages and others. Each number stops at 2^64 - 1.
    pub fn and(self, others: PageCounts) -> PageCounts
        ensures data { result.data ≡ min (self.data + others.data) (2 ^ 64 - 1) }
        ensures parent { result.parent ≡ min (self.parent + others.parent) (2 ^ 64 - 1) }
        ensures zeros { result.zeros ≡ min (self.zeros + others.zeros) (2 ^ 64 - 1) }
    {
        PageCounts {
            data: self.data.saturating_add(others.data),
            parent: self.parent.saturating_add(others.parent),
            zeros: self.zeros.saturating_add(others.zeros),
        }
    }
}

/// The pages of a run, if it is of this kind.
fn count_run(kind: u32, run: &[u8; ITEM_SIZE]) -> u64
    ensures { result ≡ run_page_count kind run.now }
{
    if u32_at(run, 16) == kind {
        u64_at(run, 8)
    } else {
        0
    }
}

/// The pages of the runs of this kind.
fn count_runs(kind: u32, runs: &[[u8; ITEM_SIZE]]) -> u64
    ensures { result ≡ min (runs_pages kind runs.now) (2 ^ 64 - 1) }
{
    let mut pages = 0u64;
    for run in runs {
        pages = pages.saturating_add(count_run(kind, run));
    }
    pages
}

/// The pages of the runs of this kind in so many spaces, as far as the bytes go.
fn count_spaces(kind: u32, count: u32, bytes: &[u8]) -> u64
    ensures { result ≡ min (spaces_pages kind (spaces_in count bytes.now)) (2 ^ 64 - 1) }
{
    let mut pages = 0u64;
    let mut left = count;
    let mut rest = bytes;
    while left > 0 && rest.len() >= SPACE_HEAD_SIZE {
        pages = pages.saturating_add(count_runs(kind, runs_in(rest)));
        rest = place_after_space(rest);
        left -= 1;
    }
    pages
}

/// The pages of the runs of this kind in a table, as far as its bytes go.
fn count_kind(kind: u32, table: &[u8]) -> u64
    ensures { result ≡ min (table_pages kind table.now) (2 ^ 64 - 1) }
{
    if table.len() < TABLE_HEAD_SIZE {
        return 0;
    }
    count_spaces(kind, u32_at(table, 0), &table[TABLE_HEAD_SIZE..])
}

/// How many pages a table lists, as far as its bytes go.
pub fn count_pages(table: &[u8]) -> PageCounts
    // Those of its runs of each kind. Each number stops at 2^64 - 1.
    ensures data { result.data ≡ min (table_pages 1 table.now) (2 ^ 64 - 1) }
    ensures parent { result.parent ≡ min (table_pages 2 table.now) (2 ^ 64 - 1) }
    ensures zeros { result.zeros ≡ min (table_pages 3 table.now) (2 ^ 64 - 1) }
{
    PageCounts {
        data: count_kind(1, table),
        parent: count_kind(2, table),
        zeros: count_kind(3, table),
    }
}
