//! The table and the header of a merged image.
ghost use Rattle.std.specs.Prelude.{◌≡◌, ◌<◌, ◌≤◌, ◌^◌, ◌++◌, ℕ, List, length, map, IfOk};
ghost use Rattle.std.specs.List.{concat};
ghost use Rattle.sha2.specs.Sha256.{sha256};
ghost use Rattle.sd_image.specs.Digests.{HasFed};
ghost use Rattle.sd_image.specs.Header.{HasWords, header_front};
ghost use Rattle.sd_image.specs.Table.{IsTable, listing_of};
ghost use Rattle.sd_receive.specs.Arrived.{GoesWith};
ghost use Rattle.sd_receive.specs.Merged.{header_after};

use crate::arrived::{Arrived, read_table};
use crate::copying::Copied;
use crate::mapped::MappedPage;
use crate::receive_error::ReceiveError;
use sd_areas::SpaceId;
use sd_chain::Found;
use sd_image::{
    Digester, Header, Kind, Reason, Run, RunKind, SpaceTable, Table, Version, encode_table,
};
use std::alloc::{AllocError, Global};

/// In which way an image has a page whose copy lies there.
fn kind_of(there: Found) -> RunKind {
    match there {
        Found::Zero => RunKind::Zero,
        Found::Data { .. } => RunKind::Data,
    }
}

/// A run that is one page longer, where a page goes on where it ends, in the same way.
fn longer(run: &Run, page: &MappedPage) -> Option<Run> {
    let end = run.first.number().checked_add(run.count)?;
    if end != page.page.number() || run.kind != kind_of(page.there) {
        return None;
    }
    let count = run.count.checked_add(1)?;
    Some(Run { count, ..*run })
}

/// Puts a page after those of some runs.
fn push_page(runs: &mut Vec<Run>, page: &MappedPage) -> Result<(), AllocError> {
    if let Some(last) = runs.last_mut() {
        if let Some(run) = longer(last, page) {
            *last = run;
            return Ok(());
        }
    }
    runs.push(Run {
        first: page.page,
        count: 1,
        kind: kind_of(page.there),
    })?;
    Ok(())
}

/// The runs of pages.
fn runs_of(alloc: Global, pages: &[MappedPage]) -> Result<Vec<Run>, AllocError> {
    let mut runs = Vec::new(alloc);
    for page in pages {
        push_page(&mut runs, page)?;
    }
    Ok(runs)
}

/// How many pages from the first on are of a space.
fn count_in(pages: &[MappedPage], space: SpaceId) -> usize
    ensures { result ≤ length pages.now }
{
    let mut count = 0;
    for page in pages {
        if page.space != space {
            return count;
        }
        count += 1;
    }
    count
}

/// The table of an image with the spaces and areas of another, and these pages.
fn table_of(
    alloc: Global,
    spaces: &[SpaceTable],
    pages: &[MappedPage],
) -> Result<Table, AllocError> {
    let mut tables = Vec::new(alloc);
    let mut rest = pages;
    for listed in spaces {
        let (own, others) = rest.split_at(count_in(rest, listed.space));
        rest = others;
        tables.push(SpaceTable {
            space: listed.space,
            areas: listed.areas.to_vec(alloc)?,
            runs: runs_of(alloc, own)?,
        })?;
    }
    Ok(Table { spaces: tables })
}

/// The header of an image that takes the place of one with this header, after its data pages were digested.
fn header_of(
    tip: &Header,
    serial: u64,
    pages: usize,
    table: &[u8],
    mut digester: Digester,
) -> Header
    ensures fields { result ≡ header_after tip.now serial pages (length table.now) result.digest }
    ensures digest { (fed : List ℕ) → HasFed digester fed
        → result.digest ≡ sha256 ((fed ++ table.now) ++ header_front result) }
    ensures words { HasWords tip.now → HasWords result }
{
    let header = Header {
        version: Version::Two,
        kind: Kind::Merged,
        serial,
        stands_for: tip.stands_for,
        parent: 0,
        checkpoint: tip.checkpoint,
        pages: pages as u64,
        table_len: table.len() as u64,
        digest: [0; 32],
    };
    digester.table(table);
    let digest = digester.finish(&header);
    Header { digest, ..header }
}

/// The header and the table of a merged image, whose pages were copied, and which takes the place of one with this
/// header and these spaces.
pub(crate) fn spell(
    alloc: Global,
    tip: &Header,
    serial: u64,
    spaces: &[SpaceTable],
    copied: &Copied,
) -> Result<(Header, Arrived), ReceiveError>
    ensures fields { IfOk result (λ spelled. spelled.0
        ≡ header_after tip.now serial copied.now.stored spelled.0.table_len spelled.0.digest) }
    ensures words { IfOk result (λ spelled. HasWords spelled.0) }
    ensures good { (pages : List (List ℕ)) → HasFed copied.now.digester (concat pages)
        → IfOk result (λ spelled. GoesWith spelled.0 pages spelled.1) }
    ensures table { IfOk result
        (λ spelled. IsTable spelled.0 (map listing_of spelled.1.table.spaces.items)) }
    ensures some { IfOk result (λ spelled. 0 < length spelled.1.bytes.items) }
{
    let table = table_of(alloc, spaces, &copied.pages)?;
    let bytes = encode_table(alloc, &table)?;
    if bytes.is_empty() {
        return Err(ReceiveError::Image(Reason::PastEnd));
    }
    let header = header_of(tip, serial, copied.stored, &bytes, copied.digester.clone()?);
    let table = read_table(alloc, &header, &bytes)?;
    Ok((header, Arrived { bytes, table }))
}
