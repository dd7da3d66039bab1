//! Laws of a pass over a memory, each the contract of a function that does nothing.
ghost use Rattle.sd_rounds.specs.Dump.{DumpLaws};
ghost use Rattle.sd_rounds.specs.Files.{FileLaws};
ghost use Rattle.sd_rounds.specs.ImageVisits.{ImageVisitLaws};
ghost use Rattle.sd_rounds.specs.Keeps.{KeepsLaws};
ghost use Rattle.sd_rounds.specs.Left.{LeftLaws};
ghost use Rattle.sd_rounds.specs.LittleWork.{LittleLaws};
ghost use Rattle.sd_rounds.specs.Made.{MadeLaws};
ghost use Rattle.sd_rounds.specs.MakingLaws.{MakingLaws};
ghost use Rattle.sd_rounds.specs.Rises.{RisesLaws};
ghost use Rattle.sd_rounds.specs.Steps.{StepLaws};
ghost use Rattle.sd_rounds.specs.Visits.{VisitLaws};

use sd_gate::bodies_fill;
use sd_image::text_is_image;
use sd_pagetable::{clean_law, clear_law, plain_law};

/// What an image in the making and the images below it give of a memory, through each step of its pass and through
/// whatever is called on the memory meanwhile.
pub fn keeps_law()
    ensures { KeepsLaws }
{
    clean_law();
    clear_law();
}

/// The entries of an image rise, and no page has two.
pub fn rises_law()
    ensures { RisesLaws }
{}

/// The dump of a frozen memory has each page in the right way.
pub fn dump_law()
    ensures { DumpLaws }
{
    clear_law();
    plain_law();
}

/// Which pages a pass takes, and which it leaves to the parent, by its visits.
pub fn visits_law()
    ensures { VisitLaws }
{}

/// The image that a pass made holds what its entries give.
pub fn made_law()
    ensures { MadeLaws }
{
    plain_law();
}

/// What each step of a [`Round`](crate::Round) keeps of all that.
pub fn step_law()
    ensures { StepLaws }
{
    keeps_law();
    rises_law();
    dump_law();
    made_law();
}

/// What the steps of an image and the outcomes of its calls keep, and what the dump has.
pub fn making_law()
    ensures { MakingLaws }
{
    keeps_law();
    dump_law();
    step_law();
}

/// The file of an image is an image with its entries, and that of a dump shows the memory at the freeze.
pub fn file_law()
    ensures { FileLaws }
{
    text_is_image();
    bodies_fill();
    plain_law();
    made_law();
    making_law();
}

/// Which pages an image visits, and which of them it leaves to its parent.
pub fn image_visits_law()
    ensures { ImageVisitLaws }
{
    visits_law();
}

/// Which pages an image takes: of a dump those that must be dumped at the freeze, of a pre-dump none but those that
/// were soft-dirty at their visit.
pub fn little_law()
    ensures { LittleLaws }
{
    plain_law();
    rises_law();
    dump_law();
    step_law();
    visits_law();
}

/// How many steps and outcomes a checkpoint has before it: none exactly where none runs, and fewer with each step and
/// with each outcome of a request that was out.
pub fn left_law()
    ensures { LeftLaws }
{
    plain_law();
}
