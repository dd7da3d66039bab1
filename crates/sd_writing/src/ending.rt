//! The end of an image's file: its table and its header.
ghost use Rattle.std.specs.Prelude.{◌≡◌, ◌≤◌, ◌^◌, ℕ, List, IfOk, ◌++◌, length, map};
ghost use Rattle.sha2.specs.Sha256.{sha256};
ghost use Rattle.sd_image.specs.Digests.{HasFed};
ghost use Rattle.sd_image.specs.Header.{HasWords, header_front};
ghost use Rattle.sd_image.specs.Table.{listing_of};
ghost use Rattle.sd_writing.specs.Endings.{EndsFile, header_with};

use crate::digests::with_digest;
use sd_chain::PlacedTable;
use sd_gate::Plan;
use sd_image::{Digester, Header, Kind, Table, Version, encode_table};
use std::alloc::{AllocError, Global};

/// The numbers of an image that are fixed before its pages are known.
#[derive(Clone, Copy, PartialEq, Eq)]
pub struct ImageNumbers {
    pub kind: Kind,
    pub serial: u64,
    pub stands_for: u64,
    pub parent: u64,
    pub checkpoint: u64,
}

/// The end of an image's file, and the calls that write it and open the gate.
#[derive(Drop)]
pub struct Ending {
    pub plan: Plan,
    pub header: Header,
    pub table: PlacedTable,
}

/// The header of an image whose data pages were digested, and whose table has this text.
fn header_for(digester: Digester, numbers: ImageNumbers, pages: u64, text: &[u8]) -> Header
    ensures numbers { result ≡ header_with numbers pages (length text.now) result.digest }
    ensures digest { (fed : List ℕ) → HasFed digester fed
        → result.digest ≡ sha256 (fed ++ text.now ++ header_front result) }
    ensures words { HasWords result }
{
    let header = Header {
        version: Version::Two,
        kind: numbers.kind,
        serial: numbers.serial,
        stands_for: numbers.stands_for,
        parent: numbers.parent,
        checkpoint: numbers.checkpoint,
        pages,
        table_len: text.len() as u64,
        digest: [0; 32],
    };
    with_digest(digester, text, header)
}

/// Ends the file of an image with its table, after so many data pages, which were digested.
///
/// # Errors
///
/// Out of memory where the table or its text finds no room.
pub fn end_file(
    alloc: Global,
    slot: usize,
    numbers: ImageNumbers,
    pages: usize,
    digester: &Digester,
    table: Table,
) -> Result<Ending, AllocError>
    requires few { pages ≤ 2 ^ 39 }
    ensures ends { IfOk result (λ end. EndsFile slot numbers pages digester.now
        (map listing_of table.spaces.items) end) }
{
    let text = encode_table(alloc, &table)?;
    let header = header_for(digester.clone()?, numbers, pages as u64, &text);
    let table = PlacedTable::new(alloc, table)?;
    let plan = Plan::close_body(slot, header, text);
    Ok(Ending {
        plan,
        header,
        table,
    })
}
