//! The images of a store as text.
ghost use Rattle.std.specs.Prelude.{◌≡◌, ◌++◌, codes, IfOk, OnOk};
ghost use Rattle.sd_exit.specs.Texts.{slot_text};
ghost use Rattle.sd_readers.specs.Listing.{IsListing, image_line};

use sd_chain::{Catalog, OpenImage};
use std::alloc::{AllocError, Global};
use std::fmt::Write;

/// A line for each open image, rising by serial, and a last one with the serial of the tip.
///
/// # Errors
///
/// Out of memory where the text can't grow.
pub fn list_text(alloc: Global, catalog: &Catalog) -> Result<String, AllocError>
    ensures { IfOk result (λ text. IsListing catalog.now text.bytes.items) }
{
    let mut text = String::new(alloc);
    for image in &catalog.list()? {
        push_image(&mut text, image)?;
    }
    match catalog.tip() {
        Some(tip) => writeln!(text, "tip {}", tip.header().serial)?,
        None => writeln!(text, "tip none")?,
    }
    Ok(text)
}

fn push_slot(text: &mut String, slot: usize) -> Result<(), AllocError>
    ensures { OnOk result
        (text.new.bytes.items ≡ text.old.bytes.items ++ (codes "slot " ++ slot_text slot)) }
{
    write!(text, "slot {slot:03}")
}

fn push_image(text: &mut String, image: &OpenImage) -> Result<(), AllocError>
    ensures { OnOk result (text.new.bytes.items ≡ text.old.bytes.items ++ image_line image.now) }
{
    push_slot(text, image.slot())?;
    let header = image.header();
    writeln!(
        text,
        " {} serial {} stands {} parent {} checkpoint {} pages {}",
        header.kind.name(),
        header.serial,
        header.stands_for,
        header.parent,
        header.checkpoint,
        header.pages,
    )
}
