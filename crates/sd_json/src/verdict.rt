//! Whether a store can be restored, as a document.
ghost use Rattle.std.specs.Prelude.{◌≡◌, length, IfOk};
ghost use Rattle.serde_json.specs.View.{view};
ghost use Rattle.sd_disk.specs.Reads.{OnlyReads};
ghost use Rattle.sd_chain.specs.Catalog.{images};
ghost use Rattle.sd_json.specs.Documents.{IsVerdict, IsVerdictAt, verdict};

use sd_chain::Catalog;
use sd_disk::Disk;
use sd_restore::{Fault, Report, place_at, scan, verify};
use serde_json::{Value, json};
use std::alloc::{AllocError, Global};

/// A report: its checkpoint, or null, and how many images are open.
fn report_json(alloc: Global, report: Report) -> Result<Value, AllocError>
    ensures { IfOk result (λ document. view document ≡ verdict report.checkpoint report.images) }
{
    json!(in alloc; {"checkpoint": report.checkpoint, "images": report.images})
}

/// A document of the checkpoint that a store shows, or null, and of how many images it has.
///
/// # Errors
///
/// Those of `verify`.
pub fn verdict_document<D: Disk>(alloc: Global, disk: &mut D) -> Result<Value, Fault>
    ensures exact { D.is_honest disk.new
        → IfOk result (λ document. IsVerdict (D.contents disk.old) (view document)) }
    ensures reads { OnlyReads D.Disk disk.old disk.new }
{
    let report = verify(alloc, disk)?;
    Ok(report_json(alloc, report)?)
}

/// How many images a catalog has.
fn image_count(catalog: &Catalog) -> Result<usize, AllocError>
    ensures { IfOk result (λ count. count ≡ length (images catalog.now)) }
{
    Ok(catalog.list()?.len())
}

/// The same document of a checkpoint that can be restored, whether it is the newest or not.
///
/// # Errors
///
/// Those of `restore_at`: `EmptyChain` where the store has no image of the checkpoint.
pub fn verdict_document_at<D: Disk>(
    alloc: Global,
    disk: &mut D,
    number: u64,
) -> Result<Value, Fault>
    ensures exact { D.is_honest disk.new
        → IfOk result (λ document. IsVerdictAt (D.contents disk.old) number (view document)) }
    ensures reads { OnlyReads D.Disk disk.old disk.new }
{
    let catalog = scan(alloc, disk)?;
    place_at(alloc, &catalog, number)?;
    let images = image_count(&catalog)?;
    let report = Report {
        checkpoint: Some(number),
        images,
    };
    Ok(report_json(alloc, report)?)
}
