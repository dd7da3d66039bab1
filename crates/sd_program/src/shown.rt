//! How far the reading of a store is that takes long, as a line on a terminal.

ghost use Rattle.std.specs.Prelude.{◌≡◌, ◌<◌, length};
ghost use Rattle.sd_disk.specs.Reads.{OnlyReads};

use crate::pace::{CLEAR, Done, Pace};
use crate::verbose::is_open;
use sd_disk::{Disk, FileCall, Observed, Observer, file_len};
use sd_image::HEADER_SIZE;
use std::io;
use std::io::Write;
use std::time::Duration;

/// The line of a reading.
#[derive(Drop)]
pub struct ReadingLine<'a> {
    rt: &'a HostRuntime,
    /// What is done with the store.
    does: &'static str,
    is_on: bool,
    pace: Pace,
    images: usize,
    bytes: u64,
    image: usize,
    top: Option<usize>,
    read: u64,
    is_shown: bool,
}

impl<'a> ReadingLine<'a> {
    /// A line of which nothing is known yet.
    fn new(rt: &'a HostRuntime, does: &'static str) -> Self {
        ReadingLine {
            rt,
            does,
            is_on: false,
            pace: Pace::IDLE,
            images: 0,
            bytes: 0,
            image: 0,
            top: None,
            read: 0,
            is_shown: false,
        }
    }

    /// Takes in how much there is to be read of each image.
    fn measure<D: Disk>(&mut self, disk: &mut D)
        ensures reads { OnlyReads D.Disk disk.old disk.new }
    {
        for slot in 0..disk.slots() {
            let length = body_len(disk, slot);
            self.bytes = self.bytes.saturating_add(length);
            self.images = self.images.saturating_add(usize::from(length > 0));
        }
        self.is_on = self.bytes > 0;
        let _ = self.pace.due(self.rt);
    }

    /// Clears the line.
    fn clear(&mut self) {
        if self.is_shown {
            let _ = self.rt.stderr().write_all(CLEAR.as_bytes());
        }
        self.is_shown = false;
    }

    /// Writes the line over the one that stands there.
    fn write(&mut self, took: Duration) -> io::Result<()> {
        let done = Done {
            done: u128::from(self.read),
            of: u128::from(self.bytes),
            took,
        };
        let mut line = Vec::new(self.rt.alloc());
        write!(
            line,
            "{CLEAR}{}: {done}, image {} of {}",
            self.does, self.image, self.images
        )?;
        self.is_shown = true;
        self.rt.stderr().write_all(&line)
    }

    /// Whether a slot stands after those that were read.
    fn is_after_entries(&self, slot: usize) -> bool {
        match self.top {
            Some(top) => slot > top,
            None => true,
        }
    }

    /// Counts a read after a header. After the last the line is off.
    fn count(&mut self, slot: usize, length: usize) {
        if self.is_after_entries(slot) {
            self.top = Some(slot);
            self.image = self.image.saturating_add(1);
        }
        self.read = self.read.saturating_add(length as u64);
        if self.read >= self.bytes {
            self.clear();
            self.is_on = false;
        } else if let Some(took) = self.pace.due(self.rt) {
            let _ = self.write(took);
        }
    }
}

/// A disk whose first reading is shown: of each image, what stands after its header.
pub type Shown<'a, D> = Observed<ReadingLine<'a>, D>;

/// What the file of an open slot has after the header of an image, in bytes. A closed one isn't read.
fn body_len<D: Disk>(disk: &mut D, slot: usize) -> u64
    requires { slot < length (D.contents disk.old) }
    ensures reads { OnlyReads D.Disk disk.old disk.new }
{
    let length = file_len(disk, slot).unwrap_or(0);
    if length > HEADER_SIZE && is_open(disk, slot) {
        (length - HEADER_SIZE) as u64
    } else {
        0
    }
}

/// A disk whose reading is shown where it is on.
pub fn shown<'a, D: Disk>(
    rt: &'a HostRuntime,
    does: &'static str,
    is_on: bool,
    disk: D,
) -> Shown<'a, D>
    ensures reads { OnlyReads D.Disk disk result.disk }
{
    let mut line = ReadingLine::new(rt, does);
    let mut disk = disk;
    if is_on {
        line.measure(&mut disk);
    }
    Observed::new(line, disk)
}

/// The disk within. The line is cleared.
pub fn unshown<D: Disk>(shown: Shown<'_, D>) -> D
    ensures { result ≡ shown.entry.disk }
{
    let (mut line, disk) = shown.into_parts();
    line.clear();
    disk
}

impl Observer for ReadingLine<'_> {
    fn made(&mut self, slot: usize, call: FileCall<'_>, _is_done: bool) {
        let FileCall::Read { at, bytes } = call else {
            return;
        };
        if self.is_on && at >= HEADER_SIZE {
            self.count(slot, bytes.len());
        }
    }
}
