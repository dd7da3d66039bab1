//! What a slot says of its image.
ghost use Rattle.std.specs.Prelude.{◌≡◌, ◌≢◌, List, ℕ, Ok, map, IfOk, IfErr, IsOk};
ghost use Rattle.sd_image.specs.Header.{IsHeader};
ghost use Rattle.sd_image.specs.Reading.{head_at, table_in};
ghost use Rattle.sd_image.specs.Table.{listing_of};
ghost use Rattle.sd_restore.specs.Faulty.{FaultNames, IsFaulty};
ghost use Rattle.sd_restore.specs.Reading.{HasDigestOf, HasHeader, IsDecodedAs, IsSoundTable, table_bytes};

use crate::fault::Fault;
use sd_image::{Header, Table, TableError, decode_table, file_is_image, good_header_has_no_reason};
use std::alloc::Global;

/// What an open slot says of its image.
#[derive(Drop)]
pub struct Decoded {
    pub header: Header,
    pub table: Table,
}

/// What an open slot says of its image, from its header and from the bytes of its table, which were read already. It
/// sees no data page, so it checks no digest.
///
/// # Errors
///
/// `Damaged` names the slot and the reason why the bytes are no table after this header. `OutOfMemory` where the
/// table finds no room.
pub fn decode_slot(
    alloc: Global,
    slot: usize,
    header: Header,
    table: &[u8],
) -> Result<Decoded, Fault>
    // Where they are those of an open file, that file is an image if its digest is right, and this is what it says; or
    // it is faulty, whatever its digest is.
    ensures decoded { (file : List ℕ) → HasHeader file header → table.now ≡ table_bytes header file
        → HasDigestOf file header → IfOk result (IsDecodedAs file) }
    ensures faulty { (file : List ℕ) → HasHeader file header → table.now ≡ table_bytes header file
        → IfErr result (FaultNames (λ s reason. (s ≡ slot) × IsFaulty file reason)) }
    // What is read is what the bytes spell, also of a device that lies.
    ensures read { IfOk result
        (λ decoded. table_in header table.now ≡ Ok (map listing_of decoded.table.spaces.items)) }
    ensures sound { (len : ℕ) → IsHeader header len → IfOk result IsSoundTable }
    ensures empty { result ≢ Err Fault.EmptyChain }
    ensures device { result ≢ Err Fault.Device }
    // Memory is taken after the table's head.
    ensures tested { result ≡ Err Fault.OutOfMemory → IsOk (head_at table.now) }
{
    file_is_image();
    good_header_has_no_reason();
    match decode_table(alloc, &header, table) {
        Ok(table) => Ok(Decoded { header, table }),
        Err(TableError::Damaged(reason)) => Err(Fault::Damaged { slot, reason }),
        Err(TableError::OutOfMemory) => Err(Fault::OutOfMemory),
    }
}
