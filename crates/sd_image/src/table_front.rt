//! The front of a table that is longer.
ghost use Rattle.std.specs.Prelude.{◌≡◌, IfOk};
ghost use Rattle.sd_image.specs.Fronts.{FrontDecides, front_fault};
ghost use Rattle.sd_image.specs.Reading.{table_in};

use crate::header::Header;
use crate::reason::Reason;
use crate::table_error::TableError;
use crate::table_reading::decode_table;
use std::alloc::{AllocError, Global};

/// Why nothing after this header is a table that begins so and is longer, where the front says: the reason that
/// reading all of it would give. None where an item goes past the front.
///
/// # Errors
///
/// Out of memory where the front's items find no room.
pub fn fault_of_front(
    alloc: Global,
    header: &Header,
    front: &[u8],
) -> Result<Option<Reason>, AllocError>
    ensures exact { IfOk result (λ fault. fault ≡ front_fault (table_in header.now front.now)) }
    ensures decides { FrontDecides header.now front.now }
{
    match decode_table(alloc, header, front) {
        Ok(_) => Ok(Some(Reason::Total)),
        Err(TableError::Damaged(Reason::PastEnd)) => Ok(None),
        Err(TableError::Damaged(reason)) => Ok(Some(reason)),
        Err(TableError::OutOfMemory) => Err(AllocError),
    }
}
