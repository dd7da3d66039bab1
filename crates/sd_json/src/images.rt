//! The images of a store as a document.
ghost use Rattle.std.specs.Prelude.{◌≡◌, ℕ, Option, map, IfOk};
ghost use Rattle.serde_json.specs.Data.{array};
ghost use Rattle.serde_json.specs.View.{items_of, view};
ghost use Rattle.sd_chain.specs.Catalog.{images};
ghost use Rattle.sd_json.specs.Documents.{IsListing, IsTipSerial, entry, fields, listing, shown_with};
ghost use Rattle.sd_disk.specs.Reads.{OnlyReads};

use sd_chain::{Catalog, OpenImage};
use sd_disk::Disk;
use sd_image::Header;
use sd_restore::{Fault, scan};
use sd_show::numbers_object;
use serde_json::{Value, json, put};
use std::alloc::{AllocError, Global};

/// The fields of a header.
fn header_json(alloc: Global, header: &Header) -> Result<Value, AllocError>
    ensures { IfOk result (λ document. view document ≡ fields header.now) }
{
    let digest = hex::encode(alloc, &header.digest)?;
    let mut shown = numbers_object(
        alloc,
        &[
            ("version", u64::from(header.version.number())),
            ("kind", u64::from(header.kind.number())),
            ("serial", header.serial),
            ("stands_for", header.stands_for),
            ("parent", header.parent),
            ("checkpoint", header.checkpoint),
            ("pages", header.pages),
            ("table_len", header.table_len),
        ],
    )?;
    put(&mut shown, alloc, "digest", Value::String(digest))?;
    Ok(Value::Object(shown))
}

/// An image: its slot and its header.
fn image_json(alloc: Global, image: &OpenImage) -> Result<Value, AllocError>
    ensures { IfOk result (λ document. view document ≡ entry image.now) }
{
    let mut shown = numbers_object(alloc, &[("slot", image.slot() as u64)])?;
    put(
        &mut shown,
        alloc,
        "header",
        header_json(alloc, image.header())?,
    )?;
    Ok(Value::Object(shown))
}

/// Images, in their order.
fn images_json(alloc: Global, images: &[&OpenImage]) -> Result<Value, AllocError>
    ensures { IfOk result (λ document. view document
        ≡ array (items_of (map (λ i. entry i.now) images.now))) }
{
    let mut shown = Vec::new(alloc);
    for image in images {
        shown.push(image_json(alloc, image)?)?;
    }
    Ok(Value::from(shown))
}

/// The serial of the newest dump or merged image, if there is one.
fn tip_serial(catalog: &Catalog) -> Option<u64>
    ensures { IsTipSerial catalog.now result }
{
    let image = catalog.tip()?;
    Some(image.header().serial)
}

/// Images, in their order, and the serial of their tip, or null.
fn listed_json(alloc: Global, images: &[&OpenImage], tip: Option<u64>) -> Result<Value, AllocError>
    ensures { IfOk result (λ document. view document ≡ shown_with (map (λ i. entry i.now) images.now) tip) }
{
    let images = images_json(alloc, images)?;
    json!(in alloc; {"images": images, "tip": tip})
}

/// A catalog: its images, rising by serial, and the serial of its tip.
fn catalog_json(alloc: Global, catalog: &Catalog) -> Result<Value, AllocError>
    ensures { IfOk result (λ document. (tip : Option ℕ) × IsTipSerial catalog.now tip
        × (view document ≡ listing (images catalog.now) tip)) }
{
    let tip = tip_serial(catalog);
    listed_json(alloc, &catalog.list()?, tip)
}

/// A document of the open images, rising by serial, and of the serial of the newest dump or merged one, or null.
///
/// # Errors
///
/// Those of `scan`.
pub fn images_document<D: Disk>(alloc: Global, disk: &mut D) -> Result<Value, Fault>
    ensures exact { D.is_honest disk.new
        → IfOk result (λ document. IsListing (D.contents disk.old) (view document)) }
    ensures reads { OnlyReads D.Disk disk.old disk.new }
{
    let catalog = scan(alloc, disk)?;
    Ok(catalog_json(alloc, &catalog)?)
}
