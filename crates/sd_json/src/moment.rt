//! Documents that are of one moment of a store.
ghost use Rattle.std.specs.Prelude.{◌≡◌, false, string_bytes, IfOk};
ghost use Rattle.serde_json.specs.View.{view};
ghost use Rattle.serde_json.specs.Written.{compact_text, has_float};
ghost use Rattle.sd_disk.specs.Reads.{OnlyReads};
ghost use Rattle.sd_json.specs.Documents.{IsDocument, IsTextOf, faulty, lacking};

use crate::fault::{fault_document, lacks_document};
use crate::images::images_document;
use crate::memory::{memory_document, memory_document_at};
use crate::verdict::{verdict_document, verdict_document_at};
use sd_disk::Disk;
use sd_readers::{Reader, ReaderAt, fronts};
use sd_restore::Fault;
use serde_json::Value;
use std::alloc::{AllocError, Global};

/// Which document of a store.
#[derive(Clone, Copy)]
pub enum Document {
    /// What a program prints of the store, or of its newest checkpoint.
    Newest(Reader),
    /// What it prints of the checkpoint with this number.
    At(ReaderAt, u64),
}

/// The document that a program prints of a store.
fn newest_document<D: Disk>(alloc: Global, reader: Reader, disk: &mut D) -> Result<Value, Fault>
    ensures exact { D.is_honest disk.new
        → IfOk result (λ document. IsDocument (Document.Newest reader) (D.contents disk.old) (view document)) }
    ensures reads { OnlyReads D.Disk disk.old disk.new }
{
    match reader {
        Reader::Restore => memory_document(alloc, disk),
        Reader::List => images_document(alloc, disk),
        Reader::Verify => verdict_document(alloc, disk),
    }
}

/// The document that a program prints of a checkpoint.
fn document_at<D: Disk>(
    alloc: Global,
    reader: ReaderAt,
    disk: &mut D,
    number: u64,
) -> Result<Value, Fault>
    ensures exact { D.is_honest disk.new
        → IfOk result (λ document. IsDocument (Document.At reader number) (D.contents disk.old) (view document)) }
    ensures reads { OnlyReads D.Disk disk.old disk.new }
{
    match reader {
        ReaderAt::Restore => memory_document_at(alloc, disk, number),
        ReaderAt::Verify => verdict_document_at(alloc, disk, number),
    }
}

/// A document of a store.
fn document_of<D: Disk>(alloc: Global, document: Document, disk: &mut D) -> Result<Value, Fault>
    ensures exact { D.is_honest disk.new
        → IfOk result (λ made. IsDocument document (D.contents disk.old) (view made)) }
    ensures reads { OnlyReads D.Disk disk.old disk.new }
{
    match document {
        Document::Newest(reader) => newest_document(alloc, reader, disk),
        Document::At(reader, number) => document_at(alloc, reader, disk, number),
    }
}

/// A document as text on one line, without its end.
fn text_of(alloc: Global, document: &Value) -> Result<String, AllocError>
    ensures { IfOk result (λ text. has_float (view document.now) ≡ false
        → string_bytes text ≡ compact_text (view document.now)) }
{
    document.to_string(alloc)
}

/// A document of a store as text, or why it isn't read. Where its images changed meanwhile, the device failed: no
/// document mixes two moments.
///
/// # Errors
///
/// Those of the document; `Device` and `OutOfMemory`.
pub fn document_text<D: Disk>(
    alloc: Global,
    document: Document,
    disk: &mut D,
) -> Result<String, Fault>
    // It has exactly what the files show and have.
    ensures exact { D.is_honest disk.new
        → IfOk result (λ text. IsTextOf (IsDocument document (D.contents disk.old)) (string_bytes text)) }
    ensures reads { OnlyReads D.Disk disk.old disk.new }
{
    let before = fronts(alloc, disk)?;
    let made = document_of(alloc, document, disk);
    if fronts(alloc, disk)? != before {
        return Err(Fault::Device);
    }
    Ok(text_of(alloc, &made?)?)
}

/// The document of why a store isn't read, as text.
pub fn fault_text(alloc: Global, fault: &Fault) -> Result<String, AllocError>
    ensures { IfOk result (λ text. string_bytes text ≡ compact_text (faulty fault.now)) }
{
    text_of(alloc, &fault_document(alloc, fault)?)
}

/// The document of a store without an image of the checkpoint with this number, as text.
pub fn lacks_text(alloc: Global, number: u64) -> Result<String, AllocError>
    ensures { IfOk result (λ text. string_bytes text ≡ compact_text (lacking number)) }
{
    text_of(alloc, &lacks_document(alloc, number)?)
}
