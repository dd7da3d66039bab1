//! What is seen of a device's calls, and the records that are made of it.
ghost use Rattle.std.specs.Prelude.{◌≡◌, ◌⊎◌, ◌∷◌, ◌++◌, ◌+◌, ◌-◌, ◌^◌, min, true, false, [], None, Some, IfOk, IsSome};

use crate::making::{Making, SeenSlot};
use crate::record::{CheckpointRecord, ImageRecord, MergeRecord, Record};
use sd_gate::Worker;
use sd_image::{GATE, HEADER_SIZE, Header, Kind};
use sd_show::PageCounts;
use std::alloc::{AllocError, Global};
use std::mem;
use std::time::Duration;

/// The images of a checkpoint that is being made.
#[derive(Clone, Copy)]
struct Running {
    number: u64,
    begun: Duration,
    rounds: u64,
    pages: PageCounts,
    bytes: u64,
    calls: u64,
}

/// Sees the device calls of a run, and makes records of them. Times are those of one clock.
#[derive(Drop)]
pub struct Meter {
    alloc: Global,
    /// How many device calls were made.
    calls: u64,
    /// How many of the calls read pages.
    reads: u64,
    slots: Vec<SeenSlot>,
    running: Option<Running>,
    /// Whose calls are made, where that was seen.
    worker: Option<Worker>,
    /// Since when the memory was seen frozen.
    frozen: Option<Duration>,
    /// A merge whose image is there, while images are closed after it.
    merge: Option<MergeRecord>,
    merge_begun: Duration,
    done: Vec<Record>,
    /// How many records found no room.
    left_out: u64,
}

/// Whether an image is a pre-dump.
fn is_pre_dump(kind: Kind) -> bool {
    matches!(kind, Kind::PreDump)
}

impl Meter {
    /// Of so many slots nothing was seen.
    ///
    /// # Errors
    ///
    /// Out of memory where the slots find no room.
    pub fn new(alloc: Global, slots: usize) -> Result<Meter, AllocError>
        ensures calls { IfOk result (λ meter. meter.calls ≡ 0) }
        ensures records { IfOk result (λ meter. meter.done.items ≡ []) }
        ensures left_out { IfOk result (λ meter. meter.left_out ≡ 0) }
    {
        let unseen = SeenSlot {
            is_open: false,
            last_read: 0,
            making: None,
        };
        Ok(Meter {
            alloc,
            calls: 0,
            reads: 0,
            slots: vec![in alloc; unseen; slots]?,
            running: None,
            worker: None,
            frozen: None,
            merge: None,
            merge_begun: Duration::ZERO,
            done: Vec::new(alloc),
            left_out: 0,
        })
    }

    /// The records that were made since this was asked before.
    pub fn take(&mut self) -> Vec<Record>
        ensures records { result.items ≡ self.old.done.items }
        ensures none { self.new.done.items ≡ [] }
        ensures left_out { self.new.left_out ≡ self.old.left_out }
    {
        mem::replace(&mut self.done, Vec::new(self.alloc))
    }

    /// How many records were made and left out, since they found no room.
    pub fn left_out(&self) -> u64
        ensures { result ≡ self.now.left_out }
    {
        self.left_out
    }

    /// Takes in whose calls are made from now on.
    pub fn see_worker(&mut self, worker: Worker)
        ensures worker { self.new.worker ≡ Some worker }
        ensures calls { self.new.calls ≡ self.old.calls }
        ensures records { self.new.done.items ≡ self.old.done.items }
    {
        self.worker = Some(worker);
    }

    /// Takes in whether the memory is frozen.
    pub fn see_frozen(&mut self, is_frozen: bool, now: Duration)
        ensures thawed { is_frozen ≡ false → self.new.frozen ≡ None }
        ensures since { is_frozen ≡ true → self.old.frozen ≡ None → self.new.frozen ≡ Some now }
        ensures still { is_frozen ≡ true → IsSome self.old.frozen → self.new.frozen ≡ self.old.frozen }
    {
        if !is_frozen {
            self.frozen = None;
        } else if self.frozen.is_none() {
            self.frozen = Some(now);
        }
    }

    /// The merge has ended: its record is made.
    pub fn end_merge(&mut self)
        ensures none { self.new.merge ≡ None }
        ensures calls { self.new.calls ≡ self.old.calls }
    {
        if let Some(record) = self.merge.take() {
            self.add(Record::Merge(record));
        }
    }

    /// Adds a record. Where it finds no room it is left out, and counted.
    fn add(&mut self, made: Record)
        ensures calls { self.new.calls ≡ self.old.calls }
        ensures merge { self.new.merge ≡ self.old.merge }
        // It is the last of those that are kept, or it is counted.
        ensures added { ((self.new.done.items ≡ self.old.done.items ++ made ∷ [])
            × (self.new.left_out ≡ self.old.left_out))
            ⊎ ((self.new.done.items ≡ self.old.done.items)
            × (self.new.left_out ≡ min (self.old.left_out + 1) (2 ^ 64 - 1))) }
    {
        if self.done.push(made).is_err() {
            self.left_out = self.left_out.saturating_add(1);
        }
    }

    /// A call was made.
    pub(crate) fn called(&mut self)
        ensures { self.new.calls ≡ min (self.old.calls + 1) (2 ^ 64 - 1) }
    {
        self.calls = self.calls.saturating_add(1);
    }

    /// Bytes of a slot were read.
    pub(crate) fn read(&mut self, slot: usize, at: usize, bytes: &[u8])
        ensures { self.new.calls ≡ min (self.old.calls + 1) (2 ^ 64 - 1) }
    {
        self.called();
        let calls = self.calls;
        let Some(seen) = self.slots.get_mut(slot) else {
            return;
        };
        if at >= HEADER_SIZE {
            seen.last_read = calls;
            self.reads = self.reads.saturating_add(1);
        } else if at == 0 {
            seen.is_open = bytes.first() == Some(&GATE);
        }
    }

    /// A call that closes an image after a merge was made.
    fn count_closing(&mut self, now: Duration)
        ensures { self.new.calls ≡ self.old.calls }
    {
        let begun = self.merge_begun;
        if let Some(merge) = &mut self.merge {
            merge.calls = merge.calls.saturating_add(1);
            merge.took = now.saturating_sub(begun);
        }
    }

    /// An image was closed after a merge.
    fn count_closed(&mut self, now: Duration)
        ensures { self.new.calls ≡ self.old.calls }
    {
        if let Some(merge) = &mut self.merge {
            merge.closed = merge.closed.saturating_add(1);
        }
        self.count_closing(now);
    }

    /// A slot was closed: an image begins to be made there, or the merger closes one that isn't needed any more.
    fn close(&mut self, slot: usize, now: Duration)
        ensures { self.new.calls ≡ self.old.calls }
    {
        let mut making = Making::new(now, self.calls, self.reads);
        making.format();
        let merges = self.merge.is_some() && self.worker == Some(Worker::Merger);
        let Some(seen) = self.slots.get_mut(slot) else {
            return;
        };
        making.closes = seen.is_open && merges;
        seen.is_open = false;
        seen.making = Some(making);
        if making.closes {
            self.count_closed(now);
        }
    }

    /// Bytes were written into a slot's file.
    pub(crate) fn wrote(&mut self, slot: usize, at: usize, bytes: &[u8], now: Duration)
        ensures { self.new.calls ≡ min (self.old.calls + 1) (2 ^ 64 - 1) }
    {
        self.called();
        if at == 0 && bytes.first() != Some(&GATE) {
            self.close(slot, now);
            return;
        }
        let Some(seen) = self.slots.get_mut(slot) else {
            return;
        };
        if let Some(making) = &mut seen.making {
            making.body(now);
            making.write(at, bytes);
        }
    }

    /// A slot's file was cut.
    pub(crate) fn cut(&mut self, slot: usize, now: Duration)
        ensures { self.new.calls ≡ min (self.old.calls + 1) (2 ^ 64 - 1) }
    {
        self.called();
        let fresh = Making::new(now, self.calls, self.reads);
        let Some(seen) = self.slots.get_mut(slot) else {
            return;
        };
        let before = seen.making.unwrap_or(fresh);
        let mut making = if before.awaits_cut() { before } else { fresh };
        making.cut();
        seen.making = Some(making);
        if making.closes {
            self.count_closing(now);
        }
    }

    /// A slot's file was synced. An image whose gate is open is there.
    pub(crate) fn synced(&mut self, slot: usize, now: Duration)
        ensures { self.new.calls ≡ min (self.old.calls + 1) (2 ^ 64 - 1) }
    {
        self.called();
        let Some(seen) = self.slots.get_mut(slot) else {
            return;
        };
        let Some(mut made) = seen.making else {
            return;
        };
        made.sync(now);
        seen.making = Some(made);
        if let Some(header) = made.opened() {
            seen.making = None;
            seen.is_open = true;
            self.enter(slot, header, &made, now);
        } else if made.closes {
            self.count_closing(now);
        }
    }

    /// Makes the record of an image that is there, and of its checkpoint or its merge.
    fn enter(&mut self, slot: usize, header: &Header, made: &Making, now: Duration)
        ensures { self.new.calls ≡ self.old.calls }
    {
        let record = ImageRecord {
            serial: header.serial,
            slot,
            kind: header.kind,
            checkpoint: header.checkpoint,
            pages: made.table,
            bytes: made.bytes,
            calls: made.calls,
            took: now.saturating_sub(made.begun),
        };
        self.add(Record::Image(record));
        match header.kind {
            Kind::Merged => self.enter_merged(&record, made),
            Kind::PreDump => self.running = Some(self.joined(&record, made)),
            Kind::Dump => self.enter_dump(&record, made, now),
        }
    }

    /// The checkpoint that runs, with one image more.
    fn joined(&self, record: &ImageRecord, made: &Making) -> Running {
        let before = match self.running {
            Some(running) if running.number == record.checkpoint => running,
            _ => Running {
                number: record.checkpoint,
                begun: made.begun,
                rounds: 0,
                pages: PageCounts::NONE,
                bytes: 0,
                calls: 0,
            },
        };
        Running {
            rounds: before
                .rounds
                .saturating_add(u64::from(is_pre_dump(record.kind))),
            pages: before.pages.and(record.pages),
            bytes: before.bytes.saturating_add(record.bytes),
            calls: before.calls.saturating_add(record.calls),
            ..before
        }
    }

    /// Makes the record of a checkpoint whose dump is there.
    fn enter_dump(&mut self, record: &ImageRecord, made: &Making, now: Duration)
        ensures { self.new.calls ≡ self.old.calls }
    {
        let running = self.joined(record, made);
        let frozen = self.frozen.or(made.body_begun).unwrap_or(now);
        self.running = None;
        self.frozen = None;
        self.add(Record::Checkpoint(CheckpointRecord {
            number: record.checkpoint,
            serial: record.serial,
            slot: record.slot,
            rounds: running.rounds,
            pages: running.pages,
            bytes: running.bytes,
            calls: running.calls,
            took: now.saturating_sub(running.begun),
            frozen_calls: made.body_calls,
            frozen: now.saturating_sub(frozen),
        }));
    }

    /// Begins the record of a merge whose image is there.
    fn enter_merged(&mut self, record: &ImageRecord, made: &Making)
        ensures { self.new.calls ≡ self.old.calls }
    {
        self.end_merge();
        let since = made.first_call;
        let read = self
            .slots
            .iter()
            .filter(|seen| seen.last_read > since)
            .count();
        self.merge_begun = made.begun;
        self.merge = Some(MergeRecord {
            serial: record.serial,
            slot: record.slot,
            read: read as u64,
            closed: 0,
            calls: record
                .calls
                .saturating_add(self.reads.saturating_sub(made.first_read)),
            took: record.took,
        });
    }
}
