//! Whether two snapshots hold the same memory.
ghost use Rattle.std.specs.Prelude.{◌≡◌, ◌↔◌, IsTrue};
ghost use Rattle.sd_areas.specs.Memory.{memory_of, page_of_snapshot, space_of};

use sd_areas::{Snapshot, SnapshotPage};
use sd_journal::Pages;

/// Whether two snapshots have the same spaces, pages, permissions and bytes.
pub fn is_same_memory(one: &Snapshot, other: &Snapshot) -> bool
    ensures { IsTrue result ↔ (memory_of one.now ≡ memory_of other.now) }
{
    if one.spaces.len() != other.spaces.len() {
        return false;
    }
    for ((space, pages), (twin, others)) in one.spaces.iter().zip(&other.spaces) {
        if space != twin || !is_same_space(pages, others) {
            return false;
        }
    }
    true
}

/// Whether two spaces have the same pages, permissions and bytes.
fn is_same_space(one: &Pages, other: &Pages) -> bool
    ensures { IsTrue result ↔ (space_of one.now.entries ≡ space_of other.now.entries) }
{
    if one.len() != other.len() {
        return false;
    }
    for ((page, found), (twin, wanted)) in one.iter().zip(other) {
        if page != twin || !is_same_page(found, wanted) {
            return false;
        }
    }
    true
}

/// Whether two pages have the same permissions and bytes.
fn is_same_page(one: &SnapshotPage, other: &SnapshotPage) -> bool
    ensures { IsTrue result ↔ (page_of_snapshot one.now ≡ page_of_snapshot other.now) }
{
    one.prot == other.prot && *one.bytes == *other.bytes
}
