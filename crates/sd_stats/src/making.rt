//! What is seen of a slot.

use sd_image::{GATE, HEADER_SIZE, Header, decode_header};
use sd_show::{PageCounts, count_pages};
use std::time::Duration;

/// An image that is being made in a slot.
#[derive(Clone, Copy)]
pub(crate) struct Making {
    /// When its first call was made, the number of that call, and how many calls had read pages before.
    pub(crate) begun: Duration,
    pub(crate) first_call: u64,
    pub(crate) first_read: u64,
    /// How many calls were made on the slot.
    pub(crate) calls: u64,
    /// How many bytes were written.
    pub(crate) bytes: u64,
    /// Where the writes end.
    end: u64,
    /// What was written last after the header, taken for a table.
    pages: PageCounts,
    /// When the first call after its formatting was made, and how many were made from it on.
    pub(crate) body_begun: Option<Duration>,
    pub(crate) body_calls: u64,
    pub(crate) header: Option<Header>,
    pub(crate) table: PageCounts,
    is_opened: bool,
    is_cut: bool,
    /// An image is closed here after a merge.
    pub(crate) closes: bool,
}

impl Making {
    /// An image of which no call was counted yet.
    pub(crate) fn new(now: Duration, call: u64, reads: u64) -> Making {
        Making {
            begun: now,
            first_call: call,
            first_read: reads,
            calls: 0,
            bytes: 0,
            end: 0,
            pages: PageCounts::NONE,
            body_begun: None,
            body_calls: 0,
            header: None,
            table: PageCounts::NONE,
            is_opened: false,
            is_cut: false,
            closes: false,
        }
    }

    /// Whether the next cut is one of this image: it is written over, and wasn't cut yet.
    pub(crate) fn awaits_cut(&self) -> bool {
        !self.is_cut && self.body_begun.is_none()
    }

    /// Counts the cut, which is the last call that formats the slot.
    pub(crate) fn cut(&mut self) {
        self.is_cut = true;
        self.format();
    }

    /// Counts a call that formats the slot.
    pub(crate) fn format(&mut self) {
        self.calls = self.calls.saturating_add(1);
    }

    /// Counts a call after the formatting.
    pub(crate) fn body(&mut self, now: Duration) {
        self.calls = self.calls.saturating_add(1);
        self.body_calls = self.body_calls.saturating_add(1);
        if self.body_begun.is_none() {
            self.body_begun = Some(now);
        }
    }

    /// Counts a sync, of the formatting or after it.
    pub(crate) fn sync(&mut self, now: Duration) {
        if self.body_begun.is_none() {
            self.format();
        } else {
            self.body(now);
        }
    }

    /// Takes a write in: of a page or the table, of the header, or of the gate.
    pub(crate) fn write(&mut self, at: usize, bytes: &[u8]) {
        let length = bytes.len() as u64;
        self.bytes = self.bytes.saturating_add(length);
        self.end = self.end.max((at as u64).saturating_add(length));
        match at {
            0 => self.is_opened = bytes.first() == Some(&GATE),
            1 => self.take_header(bytes),
            _ => self.pages = count_pages(bytes),
        }
    }

    /// Takes the header in, after its table.
    fn take_header(&mut self, bytes: &[u8]) {
        if bytes.len() != HEADER_SIZE - 1 {
            return;
        }
        let mut front = [0; HEADER_SIZE];
        front[1..].copy_from_slice(bytes);
        self.header = decode_header(&front, self.end).ok();
        self.table = self.pages;
    }

    /// The header of the image, once its gate is open.
    pub(crate) fn opened(&self) -> Option<&Header> {
        if self.is_opened {
            self.header.as_ref()
        } else {
            None
        }
    }
}

/// What is seen of a slot.
#[derive(Clone, Copy)]
pub(crate) struct SeenSlot {
    /// Whether its gate was seen open.
    pub(crate) is_open: bool,
    /// The number of the last call that read a page of it, 0 for none.
    pub(crate) last_read: u64,
    pub(crate) making: Option<Making>,
}
