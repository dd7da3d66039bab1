//! Laws of a merge, each the contract of a function that does nothing.
ghost use Rattle.sd_merge.specs.Files.{FileLaws};
ghost use Rattle.sd_merge.specs.Left.{LeftLaws};
ghost use Rattle.sd_merge.specs.Merging.{MergeLaws};

use sd_gate::bodies_fill;
use sd_image::{held_once_among, text_is_image};
use sd_store_laws::{cut_holds_the_same, merged_repeats};
use sd_writing::entries_law;

/// How many steps and outcomes a merge has before it: none exactly where none runs, and fewer with each step, with each
/// outcome of a request that was out, and with the list of the images to close.
pub fn left_law()
    ensures { LeftLaws }
{}

/// A merged image in the making is a copy of its source so far, through each of its steps, each outcome, and while
/// other images enter and leave the catalog.
pub fn merge_law()
    ensures { MergeLaws }
{
    entries_law();
    cut_holds_the_same();
}

/// The file of a merged image is an image that holds at each page what its source holds, with the source's checkpoint,
/// number and areas, and without a parent.
pub fn merged_file_law()
    ensures { FileLaws }
{
    entries_law();
    text_is_image();
    bodies_fill();
    held_once_among();
    merged_repeats();
}
