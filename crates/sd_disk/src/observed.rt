//! A disk whose calls are observed.
ghost use Rattle.std.specs.Prelude.{◌≡◌};

use crate::disk::Disk;
use crate::error::DeviceError;
use std::fmt;

/// A call on a slot's file, with the bytes that it carries.
#[derive(Clone, Copy, Debug)]
pub enum FileCall<'a> {
    Len,
    /// The bytes that were read from byte `at` on: any bytes, where it failed.
    Read { at: usize, bytes: &'a [u8] },
    /// The bytes that are written from byte `at` on.
    Write { at: usize, bytes: &'a [u8] },
    Cut { len: usize },
    Sync,
}

impl fmt::Display for FileCall<'_> {
    fn fmt<W: fmt::Write>(&self, f: &mut fmt::Formatter<W>) -> fmt::Result {
        match self {
            FileCall::Len => f.write_str("length"),
            FileCall::Read { at, bytes } => write!(f, "read {} bytes at {at}", bytes.len()),
            FileCall::Write { at, bytes } => write!(f, "write {} bytes at {at}", bytes.len()),
            FileCall::Cut { len } => write!(f, "cut to {len} bytes"),
            FileCall::Sync => f.write_str("sync"),
        }
    }
}

/// Who sees the calls on a disk. It changes none of them.
pub trait Observer {
    /// These bytes are about to be written to a slot's file.
    fn before_write(&mut self, _bytes: &[u8]) {}

    /// A call was made, and it was done or failed.
    fn made(&mut self, _slot: usize, _call: FileCall<'_>, _is_done: bool) {}
}

/// A disk whose calls are seen, each of which it hands on to the disk within.
#[derive(Drop)]
pub struct Observed<O, D> {
    observer: O,
    disk: D,
}

impl<O, D> Observed<O, D> {
    /// The calls on a disk are seen from now on.
    pub fn new(observer: O, disk: D) -> Self
        ensures observer { result.observer ≡ observer }
        ensures disk { result.disk ≡ disk }
    {
        Observed { observer, disk }
    }

    /// Who saw its calls, and the disk within.
    pub fn into_parts(self) -> (O, D)
        ensures observer { result.0 ≡ self.observer }
        ensures disk { result.1 ≡ self.disk }
    {
        (self.observer, self.disk)
    }
}

impl<O: Observer, D: Disk> Disk for Observed<O, D> {
    ghost contents = { λ observed. D.contents observed.disk };

    ghost may_leave = { λ observed. D.may_leave observed.disk };

    ghost moment = { λ observed. D.moment observed.disk };

    ghost left_since = { λ observed. D.left_since observed.disk };

    ghost failed = { λ observed. D.failed observed.disk };

    ghost calls = { λ observed. D.calls observed.disk };

    ghost is_honest = { λ observed. D.is_honest observed.disk };

    ghost as_read = { λ observed. D.as_read observed.disk };

    ghost same_slots = { λ observed. D.same_slots observed.disk };

    ghost counts_now = { λ observed. D.counts_now observed.disk };

    ghost only_now = { λ observed. D.only_now observed.disk };

    fn slots(&self) -> usize {
        self.disk.slots()
    }

    fn failures(&self) -> u64 {
        self.disk.failures()
    }

    fn len(&mut self, slot: usize) -> Result<usize, DeviceError> {
        let answer = self.disk.len(slot);
        self.observer.made(slot, FileCall::Len, answer.is_ok());
        answer
    }

    fn read(&mut self, slot: usize, at: usize, buffer: &mut [u8]) -> Result<(), DeviceError> {
        let answer = self.disk.read(slot, at, buffer);
        let call = FileCall::Read { at, bytes: buffer };
        self.observer.made(slot, call, answer.is_ok());
        answer
    }

    fn write_at(&mut self, slot: usize, at: usize, bytes: &[u8]) -> Result<(), DeviceError> {
        self.observer.before_write(bytes);
        let answer = self.disk.write_at(slot, at, bytes);
        let call = FileCall::Write { at, bytes };
        self.observer.made(slot, call, answer.is_ok());
        answer
    }

    fn cut(&mut self, slot: usize, len: usize) -> Result<(), DeviceError> {
        let answer = self.disk.cut(slot, len);
        self.observer
            .made(slot, FileCall::Cut { len }, answer.is_ok());
        answer
    }

    fn sync(&mut self, slot: usize) -> Result<(), DeviceError> {
        let answer = self.disk.sync(slot);
        self.observer.made(slot, FileCall::Sync, answer.is_ok());
        answer
    }
}
