//! A stream of a store that goes on while the store grows.
ghost use Rattle.std.specs.Prelude.{◌≡◌, ◌↔◌, ◌<◌, ℕ, List, true, Option, All, IfOk, IfSome, IsErrOf, IsTrue, OnErr};
ghost use Rattle.std.specs.Prelude.{OnOk, length, option_map};
ghost use Rattle.sd_disk.specs.Reads.{OnlyReads};
ghost use Rattle.sd_stream.specs.Progress.{Progress, started};
ghost use Rattle.sd_stream.specs.Stream.{IsStream, stream_text};
ghost use Rattle.std.specs.Io.KnownBytes.{Appends};
ghost use Rattle.sd_stream.specs.Writing.{HasWritten};
ghost use Rattle.sd_chain.specs.Catalog.{IsTip, Opened};
ghost use Rattle.sd_send.specs.declared.send_error.SendError.TheVariants as send;
ghost use Rattle.sd_send.specs.Last.{IsGone, IsLastIn, IsStopAfter, last_of_base};
ghost use Rattle.sd_send.specs.Sending.{SendsNewest};

use crate::images::images_since;
use crate::send_error::SendError;
use crate::sending::{PIECE, send_images};
use crate::sent::Sent;
use sd_chain::{Catalog, OpenImage};
use sd_disk::Disk;
use sd_restore::Fault;
use sd_stream::{Base, StreamWriter};
use std::alloc::Global;
use std::io::Write;

/// The checkpoint that a receiver has: its number, and the serial that its image stands for, where that was sent.
#[derive(Clone, Copy)]
struct Last {
    number: u64,
    stands_for: Option<u64>,
}

impl Last {
    /// Whether an image is that of the checkpoint, or merged from it.
    fn is_of(self, image: &OpenImage) -> bool
        ensures { IsTrue result ↔ IfSome self.stands_for (λ serial. image.now.header.stands_for ≡ serial) }
    {
        match self.stands_for {
            Some(serial) => image.header().stands_for == serial,
            None => true,
        }
    }
}

/// Writes what a store has as a stream, and then what it has more, as often as it is asked to.
#[derive(Drop)]
pub struct Sender<W> {
    writer: StreamWriter<W>,
    last: Option<Last>,
    sent: Sent,
}

/// Whether each of these images stands in one of so many slots.
fn are_in_slots(images: &[&OpenImage], slots: usize) -> bool
    ensures { result ≡ true → All (λ i. i.now.slot < slots) images.now }
{
    for image in images {
        if image.slot() >= slots {
            return false;
        }
    }
    true
}

/// The newest checkpoint of a catalog.
fn last_in(catalog: &Catalog) -> Option<Last>
    ensures { IsLastIn catalog.now result }
{
    let header = catalog.tip()?.header();
    Some(Last {
        number: header.checkpoint,
        stands_for: Some(header.stands_for),
    })
}

/// Whether a catalog has a checkpoint above this number.
fn has_newer(catalog: &Catalog, number: u64) -> bool
    ensures { IsTrue result ↔ ((i : Opened) × IsTip catalog.now i × (number < i.header.checkpoint)) }
{
    catalog.sound();
    match catalog.tip() {
        Some(tip) => tip.header().checkpoint > number,
        None => false,
    }
}

/// The slot of the image after which the images of the newest checkpoint are sent. None where that stands on no image
/// that was sent: then all of them are.
fn stop_after(catalog: &Catalog, last: Option<Last>) -> Result<Option<usize>, SendError>
    ensures stop { IfOk result (IsStopAfter catalog.now last) }
    ensures gone { (number : ℕ) → IsErrOf result (send.Gone number) ↔ IsGone catalog.now last number }
{
    catalog.sound();
    let Some(last) = last else {
        return Ok(None);
    };
    match catalog.of_checkpoint(last.number) {
        Some(image) if last.is_of(image) => Ok(Some(image.slot())),
        None if last.stands_for.is_some() && has_newer(catalog, last.number) => Ok(None),
        _ => Err(SendError::Gone(last.number)),
    }
}

impl<W: Write> Sender<W> {
    /// Writes the head of a stream, whose images continue this checkpoint, or none.
    ///
    /// # Errors
    ///
    /// `Stream` where the output failed.
    pub fn begin(out: W, base: Option<Base>) -> Result<Sender<W>, SendError>
    where
        W: Drop,
        ensures begun { IfOk result (λ sender. HasWritten W.contents (W.contents out) (started base) sender.writer) }
        ensures last { IfOk result (λ sender. sender.last ≡ option_map last_of_base base) }
    {
        let last = match base {
            Some(Base { number, .. }) => Some(Last {
                number,
                stands_for: None,
            }),
            None => None,
        };
        let writer = StreamWriter::begin(out, base)?;
        Ok(Sender {
            writer,
            last,
            sent: Sent::default(),
        })
    }

    /// Writes the images of the newest checkpoint of a catalog that weren't sent, parents first, each checkpoint's
    /// number after its last, and flushes. It only reads the store.
    ///
    /// # Errors
    ///
    /// `Gone` where the store has neither the checkpoint that was sent last nor a newer one.
    /// `Fault`: what is wrong with the store; `Device` also where an image was closed meanwhile. `Stream`: the output
    /// failed, or an image can't stand in the stream. After an error of `Fault` or `Stream` the stream can't go on.
    pub fn more<D: Disk>(
        &mut self,
        alloc: Global,
        disk: &mut D,
        catalog: &Catalog,
    ) -> Result<(), SendError>
        ensures sent { D.is_honest disk.new → OnOk result ((before : Option (List ℕ)) (p : Progress)
            → HasWritten W.contents before p self.old.writer
            → SendsNewest W.contents before p (D.contents disk.old) catalog.now self.old.last self.new.writer) }
        // What was sent last is then the newest checkpoint; after an error it is as before.
        ensures last { OnOk result (IsLastIn catalog.now self.new.last) }
        ensures kept { OnErr result (self.new.last ≡ self.old.last) }
        // There is no further piece exactly where the store has lost what was sent last, and has nothing newer.
        ensures gone { (number : ℕ) → IsErrOf result (send.Gone number) ↔ IsGone catalog.now self.old.last number }
        ensures reads { OnlyReads D.Disk disk.old disk.new }
    {
        let stop = stop_after(catalog, self.last)?;
        let images = images_since(alloc, catalog, stop)?;
        if !are_in_slots(&images, disk.slots()) {
            return Err(SendError::Fault(Fault::Device));
        }
        let mut buffer = vec![in alloc; 0; PIECE]?;
        let sent = send_images(disk, &images, &mut self.writer, &mut buffer)?;
        self.writer.flush()?;
        self.sent.add(sent);
        self.last = last_in(catalog);
        Ok(())
    }

    /// Writes the end of the stream, flushes, and gives the output back, with how much was sent.
    ///
    /// # Errors
    ///
    /// `Stream` where the output failed; `Fault` `EmptyChain` where nothing was sent, and none is continued.
    pub fn end(self) -> Result<(W, Sent), SendError>
    where
        W: Drop,
        ensures stream { IfOk result (λ ended. (before : Option (List ℕ)) (p : Progress)
            → HasWritten W.contents before p self.writer
            → Appends before (W.contents ended.0) (stream_text p.base p.groups) × IsStream p.base p.groups) }
    {
        if self.last.is_none() {
            return Err(SendError::Fault(Fault::EmptyChain));
        }
        let sent = self.sent;
        let out = self.writer.end()?;
        Ok((out, sent))
    }
}
