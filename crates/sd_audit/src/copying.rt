//! Copies of snapshots.
ghost use Rattle.std.specs.Prelude.{◌≡◌, IfOk};
ghost use Rattle.sd_areas.specs.Memory.{memory_of};

use sd_areas::Snapshot;
use sd_journal::copy_of_pages;
use std::alloc::{AllocError, Global};
use std::collections::BTreeMap;

/// A copy of a snapshot.
pub(crate) fn copy_of(alloc: Global, snapshot: &Snapshot) -> Result<Snapshot, AllocError>
    ensures { IfOk result (λ copy. memory_of copy ≡ memory_of snapshot.now) }
{
    let mut spaces = BTreeMap::new(alloc);
    for (space, pages) in &snapshot.spaces {
        spaces.insert(*space, copy_of_pages(alloc, pages)?)?;
    }
    Ok(Snapshot {
        checkpoint: snapshot.checkpoint,
        spaces,
    })
}
