//! What is so of each memory that a store shows, and of each image's digest.
ghost use Rattle.sd_restore.specs.At.{ShownIsAt};
ghost use Rattle.sd_restore.specs.Digested.{ClosedIsRightlyDigested, ImageIsRightlyDigested, StoreIsRightlyDigested};
ghost use Rattle.sd_restore.specs.Fits.{ShownIsWithinLimits};

use sd_areas::{areas_law, count_law, one_list_law};
use sd_image::{good_file_has_no_reason, good_header_has_no_reason};

/// A memory that a store shows is within the limits of a page table: its spaces have numbers of 1 to 16, each has at
/// most 1,024 areas, and all together have at most 65,536 pages. So whoever takes it over is refused only for lack of
/// frames or of memory.
pub fn shown_is_within_limits()
    ensures { ShownIsWithinLimits }
{
    areas_law();
    one_list_law();
    count_law();
}

/// An image is rightly digested.
pub fn image_is_rightly_digested()
    ensures { ImageIsRightlyDigested }
{
    good_file_has_no_reason();
    good_header_has_no_reason();
}

/// A file that isn't open is rightly digested: it has no header.
pub fn closed_is_rightly_digested()
    ensures { ClosedIsRightlyDigested }
{}

/// Files of which each that is open is an image are rightly digested.
pub fn store_is_rightly_digested()
    ensures { StoreIsRightlyDigested }
{
    good_file_has_no_reason();
    good_header_has_no_reason();
}

/// What contents show is what they have at that checkpoint: the newest is one of those to which a store goes back.
pub fn shown_is_at()
    ensures { ShownIsAt }
{}
