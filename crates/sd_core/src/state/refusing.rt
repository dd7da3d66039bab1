//! Why calls of a core are refused.
ghost use Rattle.std.specs.Prelude.{◌≡◌};
ghost use Rattle.sd_core.specs.Refusals.{cancel_refusal, cant_cancel, has_checkpoint, is_store_busy, must_wait};
ghost use Rattle.sd_core.specs.Refusals.{must_wait_for_pages, reopen_refusal, needs_entry, work_refusal};

use super::Core;
use crate::beginning::first_of;
use crate::lanes::{is_nobody_out, is_page_out, is_resting};
use crate::opening::is_open;
use sd_command::Refusal;
use sd_gate::Worker;

impl Core {
    /// Whether a checkpoint runs or is pending.
    fn has_checkpoint(&self) -> bool
        ensures { result ≡ has_checkpoint self.now }
    {
        !self.dumper.is_idle() || self.pending.is_some()
    }

    /// Whether an opener runs, a request of the dumper is out, or the opening of the dump's gate was taken up.
    fn cant_cancel(&self) -> bool
        ensures { result ≡ cant_cancel self.now }
    {
        self.opener.is_some()
            || !is_resting(&self.outs, Worker::Dumper)
            || is_page_out(&self.outs)
            || self.committing
    }

    /// Why nothing can be cancelled.
    pub(super) fn refusal_of_cancel(&self) -> Option<Refusal>
        ensures { result ≡ cancel_refusal self.now }
    {
        first_of(&[
            (!self.has_checkpoint(), Refusal::Idle),
            (self.cant_cancel(), Refusal::Busy),
        ])
    }

    /// Whether the store is open, an opener runs, or a request is out.
    fn is_store_busy(&self) -> bool
        ensures { result ≡ is_store_busy self.now }
    {
        is_open(self.standing) || self.opener.is_some() || !is_nobody_out(&self.outs)
    }

    /// Whether no entry is held for a pending checkpoint, and none is free.
    fn needs_entry(&self) -> bool
        ensures { result ≡ needs_entry self.now }
    {
        self.pending.is_none() && self.journal.free() == 0
    }

    /// Why the store can't be opened again.
    pub(super) fn refusal_of_reopen(&self) -> Option<Refusal>
        ensures { result ≡ reopen_refusal self.now }
    {
        first_of(&[
            (self.is_store_busy(), Refusal::Busy),
            (self.needs_entry(), Refusal::JournalFull),
        ])
    }

    /// Whether the outcome of the write of a data page is awaited: eight are out, or some where no page is left. A
    /// checkpoint that has ended waits for all of them.
    fn must_wait_for_pages(&self) -> bool
        ensures { result ≡ must_wait_for_pages self.now }
    {
        if self.dumper.is_idle() {
            is_page_out(&self.outs)
        } else {
            self.dumper.must_wait(&self.memory)
        }
    }

    /// Whether an outcome of a worker is awaited before it goes on.
    fn must_wait(&self, worker: Worker) -> bool
        ensures { result ≡ must_wait self.now worker }
    {
        match worker {
            Worker::Dumper => !is_resting(&self.outs, worker) || self.must_wait_for_pages(),
            Worker::Merger | Worker::Opener => !is_resting(&self.outs, worker),
        }
    }

    /// Why a worker can't go on.
    pub(super) fn refusal_of_work(&self, worker: Worker) -> Option<Refusal>
        ensures { result ≡ work_refusal self.now worker }
    {
        first_of(&[
            (self.must_wait(worker), Refusal::Busy),
            (self.is_idle(worker), Refusal::Idle),
        ])
    }
}
