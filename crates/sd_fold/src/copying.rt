//! Copies of pages.
ghost use Rattle.std.specs.Prelude.{◌≡◌, IfOk};
ghost use Rattle.std.specs.Option.{option_copied, option_map};
ghost use Rattle.sd_areas.specs.Memory.{page_of_snapshot};

use sd_areas::SnapshotPage;
use std::alloc::{AllocError, Global};

/// A copy of a page, where there is one.
pub(crate) fn copy_of_found(
    alloc: Global,
    found: Option<&SnapshotPage>,
) -> Result<Option<SnapshotPage>, AllocError>
    ensures { IfOk result (λ copy. option_map page_of_snapshot copy
        ≡ option_map page_of_snapshot (option_copied found.entry)) }
{
    match found {
        Some(page) => Ok(Some(page.try_clone(alloc)?)),
        None => Ok(None),
    }
}
