//! Numbers that are written, lowest byte first.
ghost use Rattle.std.specs.Prelude.{◌≡◌, ◌++◌, OnOk};
ghost use Rattle.sd_image.specs.Words.{number_bytes};

use std::alloc::AllocError;

/// Writes the two bytes of a number.
#[tactic(auto, unfolding(sd_image::specs::Words::number_bytes))]
pub(crate) fn put_u16(out: &mut Vec<u8>, number: u16) -> Result<(), AllocError>
    ensures { OnOk result (out.new.items ≡ out.old.items ++ number_bytes 2 number) }
{
    out.extend_from_slice(&number.to_le_bytes())
}

/// Writes the four bytes of a number.
#[tactic(auto, unfolding(sd_image::specs::Words::number_bytes))]
pub(crate) fn put_u32(out: &mut Vec<u8>, number: u32) -> Result<(), AllocError>
    ensures { OnOk result (out.new.items ≡ out.old.items ++ number_bytes 4 number) }
{
    out.extend_from_slice(&number.to_le_bytes())
}

/// Writes the eight bytes of a number.
#[tactic(auto, unfolding(sd_image::specs::Words::number_bytes))]
pub(crate) fn put_u64(out: &mut Vec<u8>, number: u64) -> Result<(), AllocError>
    ensures { OnOk result (out.new.items ≡ out.old.items ++ number_bytes 8 number) }
{
    out.extend_from_slice(&number.to_le_bytes())
}
