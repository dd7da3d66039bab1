//! A store, sent: its images, written as a stream.
ghost use Rattle.std.specs.Prelude.{◌≡◌, ◌<◌, ℕ, List, [], Option, All, IfErr, IfOk, OnOk, length};
ghost use Rattle.std.specs.Prelude.{map};
ghost use Rattle.sd_disk.specs.Contents.{file_at};
ghost use Rattle.sd_disk.specs.Reads.{OnlyReads};
ghost use Rattle.sd_stream.specs.Progress.{Progress};
ghost use Rattle.sd_stream.specs.Writing.{HasWritten};
ghost use Rattle.sd_send.specs.Last.{IsOfSending};
ghost use Rattle.sd_send.specs.Sent.{IsBaseAt, IsStop};
ghost use Rattle.sd_send.specs.Sending.{HasSent, SendsStream, with_file, with_opened};

use crate::base::memory_digest;
use crate::images::images_since;
use crate::send_error::SendError;
use crate::sent::Sent;
use sd_chain::{Catalog, OpenImage};
use sd_disk::{DeviceError, Disk, file_len, read_file};
use sd_image::{GATE, Kind, encode_header};
use sd_restore::{Fault, scan};
use sd_stream::{Base, StreamWriter};
use std::alloc::Global;
use std::io::Write;

/// How many bytes of a file are read at once.
pub(crate) const PIECE: usize = 65_536;

/// How much of a slot's file distinguishes its image: with its serial and its digest.
const FRONT: usize = 96;

/// The base of a stream that continues a checkpoint: its number, and the digest of its memory.
pub(crate) fn base_of<D: Disk>(
    alloc: Global,
    disk: &mut D,
    since: Option<u64>,
) -> Result<Option<Base>, SendError>
    ensures base { D.is_honest disk.new → IfOk result (λ base. IsBaseAt (D.contents disk.old) since base) }
    ensures reads { OnlyReads D.Disk disk.old disk.new }
{
    let Some(number) = since else {
        return Ok(None);
    };
    match memory_digest(alloc, disk, number) {
        Ok(digest) => Ok(Some(Base { number, digest })),
        Err(Fault::EmptyChain) => Err(SendError::NotThere),
        Err(fault) => Err(SendError::Fault(fault)),
    }
}

/// Writes the file of a slot as an image of a stream.
fn send_file<D: Disk, W: Write>(
    disk: &mut D,
    slot: usize,
    writer: &mut StreamWriter<W>,
    buffer: &mut [u8],
) -> Result<u64, SendError>
    requires slot { slot < length (D.contents disk.old) }
    requires room { 0 < length buffer.old }
    ensures sent { D.is_honest disk.new → OnOk result ((before : Option (List ℕ)) (p : Progress)
        → HasWritten W.contents before p writer.old
        → HasWritten W.contents before (with_file p (file_at (D.contents disk.old) slot)) writer.new) }
    ensures errors { IfErr result IsOfSending }
    ensures room { length buffer.new ≡ length buffer.old }
    ensures reads { OnlyReads D.Disk disk.old disk.new }
{
    let len = file_len(disk, slot)?;
    writer.image(len as u64)?;
    let mut done = 0;
    while done < len {
        let count = buffer.len().min(len - done);
        read_file(disk, slot, done, &mut buffer[..count])?;
        writer.bytes(&buffer[..count])?;
        done += count;
    }
    Ok(len as u64)
}

/// Whether a slot still has an image. A serial is never given twice: so it stood there all the time.
fn is_still_there<D: Disk>(disk: &mut D, image: &OpenImage) -> Result<bool, DeviceError>
    requires { image.now.slot < length (D.contents disk.old) }
    ensures reads { OnlyReads D.Disk disk.old disk.new }
{
    let mut front = [0; FRONT];
    read_file(disk, image.slot(), 0, &mut front)?;
    let header = encode_header(image.header());
    Ok(front[0] == GATE && front[1..] == header[..FRONT - 1])
}

/// Writes an image, and its checkpoint's number where it is the last of one. A store that is written meanwhile may
/// have closed it: then the device failed.
fn send_image<D: Disk, W: Write>(
    disk: &mut D,
    image: &OpenImage,
    writer: &mut StreamWriter<W>,
    buffer: &mut [u8],
) -> Result<u64, SendError>
    requires slot { image.now.slot < length (D.contents disk.old) }
    requires room { 0 < length buffer.old }
    ensures sent { D.is_honest disk.new → OnOk result ((before : Option (List ℕ)) (p : Progress)
        → HasWritten W.contents before p writer.old
        → HasWritten W.contents before (with_opened (D.contents disk.old) p image.now) writer.new) }
    ensures errors { IfErr result IsOfSending }
    ensures room { length buffer.new ≡ length buffer.old }
    ensures reads { OnlyReads D.Disk disk.old disk.new }
{
    let len = send_file(disk, image.slot(), writer, buffer)?;
    if !is_still_there(disk, image)? {
        return Err(SendError::Fault(Fault::Device));
    }
    match image.header().kind {
        Kind::PreDump => {}
        Kind::Dump | Kind::Merged => writer.acknowledged(image.header().checkpoint)?,
    }
    Ok(len)
}

/// Writes images, one after the other, and says how much they are.
pub(crate) fn send_images<D: Disk, W: Write>(
    disk: &mut D,
    images: &[&OpenImage],
    writer: &mut StreamWriter<W>,
    buffer: &mut [u8],
) -> Result<Sent, SendError>
    requires slots { All (λ i. i.now.slot < length (D.contents disk.old)) images.now }
    requires room { 0 < length buffer.old }
    ensures sent { D.is_honest disk.new → OnOk result ((before : Option (List ℕ)) (p : Progress)
        → HasWritten W.contents before p writer.old
        → HasSent W.contents before p (D.contents disk.old) (map (λ i. i.now) images.now) [] writer.new) }
    ensures errors { IfErr result IsOfSending }
    ensures reads { OnlyReads D.Disk disk.old disk.new }
{
    let mut bytes = 0u64;
    for image in images {
        let len = send_image(disk, image, writer, buffer)?;
        bytes = bytes.saturating_add(len);
    }
    Ok(Sent {
        images: images.len(),
        bytes,
    })
}

/// The slot of the base's image, at which the images that are sent begin.
fn stop_of(catalog: &Catalog, since: Option<u64>) -> Result<Option<usize>, SendError>
    ensures { IfOk result (IsStop catalog.now since) }
{
    let Some(number) = since else {
        return Ok(None);
    };
    match catalog.of_checkpoint(number) {
        Some(image) => Ok(Some(image.slot())),
        None => Err(SendError::NotThere),
    }
}

/// Writes the stream of what a store has after a checkpoint, or of the whole chain of its newest: the base, then the
/// images of the newest checkpoint that the base doesn't have, parents first, each checkpoint's number after its last,
/// and the end. It only reads the store, and gives the output back, flushed.
///
/// # Errors
///
/// `NotThere` where the store has no image of the base's checkpoint. `Fault`: what is wrong with the store;
/// `EmptyChain` where it shows no checkpoint; `Device` also where an image was closed meanwhile. `Stream`: the output
/// failed, or an image can't stand in a stream.
pub fn send_to<D: Disk, W: Write + Drop>(
    alloc: Global,
    disk: &mut D,
    since: Option<u64>,
    out: W,
) -> Result<(W, Sent), SendError>
    // What is written is the stream of these images, of one moment of the store, to its end.
    ensures stream { D.is_honest disk.new → IfOk result
        (λ sent. SendsStream (D.contents disk.old) since (W.contents out) (W.contents sent.0)) }
    ensures reads { OnlyReads D.Disk disk.old disk.new }
{
    let catalog = scan(alloc, disk)?;
    if catalog.tip().is_none() {
        return Err(SendError::Fault(Fault::EmptyChain));
    }
    let stop = stop_of(&catalog, since)?;
    let base = base_of(alloc, disk, since)?;
    let images = images_since(alloc, &catalog, stop)?;
    let mut buffer = vec![in alloc; 0; PIECE]?;
    let mut writer = StreamWriter::begin(out, base)?;
    let sent = send_images(disk, &images, &mut writer, &mut buffer)?;
    let out = writer.end()?;
    Ok((out, sent))
}
