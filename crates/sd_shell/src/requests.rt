//! The requests of a shell, as its input brings them: lines, and raw bytes after some of them.

use std::alloc::{AllocError, Global};
use std::io;
use std::io::{ErrorKind, Read};

/// The most bytes that one call of the input takes.
const TAKEN: usize = 65_536;

/// What the input brought and nobody took yet.
#[derive(Drop)]
pub(crate) struct Requests<I> {
    input: I,
    /// Room, of which the bytes from `first` up to `end` wait to be taken.
    room: Vec<u8>,
    first: usize,
    end: usize,
    has_ended: bool,
}

/// What one more call of the input brought.
#[derive(Clone, Copy, PartialEq, Eq)]
pub(crate) enum Brought {
    Bytes,
    End,
}

impl<I: Read> Requests<I> {
    pub(crate) fn new(alloc: Global, input: I) -> Self {
        Requests {
            input,
            room: Vec::new(alloc),
            first: 0,
            end: 0,
            has_ended: false,
        }
    }

    /// How many bytes wait to be taken.
    pub(crate) fn waiting(&self) -> usize {
        self.end.saturating_sub(self.first)
    }

    /// The bytes that wait to be taken.
    fn bytes(&self) -> &[u8] {
        self.room.get(self.first..self.end).unwrap_or(&[])
    }

    /// How long the next line is, without its end, if the whole line is there, or the input ended within it.
    pub(crate) fn line_length(&self) -> Option<usize> {
        let bytes = self.bytes();
        match bytes.iter().position(|byte| *byte == b'\n') {
            None if self.has_ended && !bytes.is_empty() => Some(bytes.len()),
            place => place,
        }
    }

    /// Takes the line of this length, and its end.
    pub(crate) fn take_line(&mut self, length: usize) -> &[u8] {
        let first = self.first;
        let end = first.saturating_add(length).min(self.end);
        self.first = end.saturating_add(1).min(self.end);
        self.room.get(first..end).unwrap_or(&[])
    }

    /// Takes bytes, so many at most.
    pub(crate) fn take(&mut self, most: usize) -> &[u8] {
        let first = self.first;
        self.first = first.saturating_add(most).min(self.end);
        self.room.get(first..self.first).unwrap_or(&[])
    }

    /// Waits for what comes, by one call of the input that takes what is there, up to 64 KiB.
    ///
    /// # Errors
    ///
    /// Those of the input, and `OutOfMemory` where there is no room for what is to come.
    pub(crate) fn wait(&mut self) -> io::Result<Brought> {
        self.make_room()?;
        let count = self.read_some()?;
        self.end = self.end.saturating_add(count);
        self.has_ended = count == 0;
        Ok(match count {
            0 => Brought::End,
            _ => Brought::Bytes,
        })
    }

    /// Moves what waits to the front, and makes room for one call after it.
    fn make_room(&mut self) -> Result<(), AllocError> {
        let (first, end) = (self.first, self.end);
        if first <= end && end <= self.room.len() {
            self.room.copy_within(first..end, 0);
            self.first = 0;
            self.end = end - first;
        }
        let wanted = self.end.saturating_add(TAKEN);
        if self.room.len() < wanted {
            self.room.resize(wanted, 0)?;
        }
        Ok(())
    }

    /// One call of the input into the room after what waits, made again where a signal interrupted it.
    fn read_some(&mut self) -> io::Result<usize> {
        let first = self.end.min(self.room.len());
        let end = first.saturating_add(TAKEN).min(self.room.len());
        let room = &mut self.room[first..end];
        for _ in 0..u64::MAX {
            match self.input.read(room) {
                Err(error) if error.kind() == ErrorKind::Interrupted => {}
                ended => return ended,
            }
        }
        Err(io::Error::from(ErrorKind::Interrupted))
    }
}
