//! What is so of the definitions.
ghost use Rattle.sd_show.specs.Slots.{DamagedOrImage};

use sd_image::one_reason;

/// A law: an open slot is damaged, and its file no image, or it is not damaged, and its file is one.
pub fn damaged_or_image()
    ensures { DamagedOrImage }
{
    one_reason();
}
