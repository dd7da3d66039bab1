//! The public calls that order something: each makes the right to one order, and hands it on.
ghost use Rattle.std.specs.Prelude.{◌≡◌, true};
ghost use Rattle.sd_command.specs.declared.refusal.Refusal.TheVariants.{Einval};
ghost use Rattle.sd_command.specs.declared.reply.Reply.TheVariants as reply;
ghost use Rattle.sd_gate.specs.declared.worker.Worker.TheVariants as its;
ghost use Rattle.sd_shared.specs.Told.{ends_job};
ghost use Rattle.sd_shared.specs.Turns.{AreOutside, Cancels, MakesJob, RelaysJob, TrimsOnce};

mod one_order;

use crate::hold::Hold;
use crate::shared::Shared;
pub(crate) use one_order::OneOrder;
use sd_command::{Refusal, Reply};
use sd_disk::Disk;
use sd_gate::Worker;
use sd_receipts::Folded;
use std::sync::Wait;
use std::thread::Threads;

impl<D: Disk + Drop> Shared<D> {
    /// Cancels the checkpoint that runs or is pending: the seats go on, and the next checkpoint is whole. Returns
    /// `Cancelled` with its number.
    ///
    /// # Errors
    ///
    /// `Idle` where none runs or is pending; `Busy` while a device call of it is out or the gate of its dump may be
    /// open, or an opener runs. Nothing changed: whoever runs it goes on with it.
    pub fn cancel(&self, rt: &impl Wait) -> Reply
        ensures turn { Cancels result }
    {
        self.cancel_once(rt, OneOrder::new())
    }

    /// Trims the journal, as `Core::trim`. It waits for the core's lock alone.
    ///
    /// # Errors
    ///
    /// `Idle` where no checkpoint was acknowledged, or named by a reopening, since the run started or the journal was
    /// trimmed; `NumbersUsed` where over 2^62 entries would have been folded in all; `OutOfMemory` where a growth was
    /// refused. Nothing changed.
    pub fn trim(&self, rt: &impl Wait) -> Result<Folded, Refusal>
        ensures turn { TrimsOnce result }
    {
        self.trim_once(rt, OneOrder::new())
    }

    /// Begins a checkpoint with 0 to 8 rounds before its freeze and makes it, beside the seats, whose commands are
    /// answered but between its freeze and its end. Returns the last reply: `Acked` with its number where it came to
    /// its end. Note that number for `close`.
    ///
    /// # Errors
    ///
    /// The refusal of its beginning, as `Core::begin`: nothing changed. `OutOfMemory` of a step: it stands, and
    /// [`Shared::go_on_dumper`] goes on with it, or [`Shared::cancel`] gives it up. `Device` or `StoreDown` where a
    /// device call failed: next comes [`Shared::run_opener`]. `Idle` where another thread cancelled it meanwhile, or
    /// goes on with it: that one is answered how it ends.
    pub fn run_dumper<R: Wait>(&self, rt: &R, rounds: u64, hold: &impl Hold) -> Reply
        ensures over { ends_job result ≡ true }
        ensures job { MakesJob D.contents its.Dumper rounds result }
    {
        self.run(rt, OneOrder::new(), Worker::Dumper, rounds, hold)
    }

    /// Begins a checkpoint of so many rounds and makes it, beside the seats, as `run_dumper` does. Its writes of data
    /// pages are made by so many writers, 1 to 8, each in a thread of its own, up to eight at once; this thread makes
    /// every other device call, and all of them where no thread can be made. The hold is called before each device call
    /// with its number, counted from 1 in the order in which they were taken up.
    ///
    /// Returns the last reply; or the refusal of an outcome that a writer handed in, where the checkpoint ended by it.
    ///
    /// # Errors
    ///
    /// `Einval` where there are no writers or over 8 of them, and `OutOfMemory` where the writers' channel finds no
    /// memory: nothing was begun. Else as `run_dumper`.
    pub fn run_relay<R: Threads + Wait + Sync, H: Hold + Sync>(
        &self,
        rt: &R,
        rounds: u64,
        writers: usize,
        hold: &H,
    ) -> Reply
    where
        D: Send,
        ensures over { ends_job result ≡ true }
        ensures refused { AreOutside writers → result ≡ reply.Refused Einval }
        ensures job { (AreOutside writers → ⊥) → RelaysJob D.contents rounds result }
    {
        self.run_with_writers(rt, OneOrder::new(), rounds, writers, hold)
    }

    /// Begins a merge of the newest checkpoint's chain and makes it, also beside a checkpoint. Returns the last reply:
    /// `Merged` with the image's serial where it came to its end.
    ///
    /// # Errors
    ///
    /// The refusal of its beginning, as `Core::merge`, `Idle` where there is no checkpoint: nothing changed. Else as
    /// [`Shared::run_dumper`]; [`Shared::go_on_merger`] goes on with it.
    pub fn run_merger<R: Wait>(&self, rt: &R, hold: &impl Hold) -> Reply
        ensures over { ends_job result ≡ true }
        ensures job { MakesJob D.contents its.Merger 0 result }
    {
        self.run(rt, OneOrder::new(), Worker::Merger, 0, hold)
    }

    /// Opens the store, at first or after a device call that failed. Returns the last reply: `Reopened` with the
    /// number of the checkpoint that the store shows, if it shows one. Seats are answered meanwhile, but of a memory
    /// that is frozen.
    ///
    /// # Errors
    ///
    /// `Busy` where the store is open or a device call is out. `Damaged` where the disk holds another store than this
    /// one. Else as [`Shared::run_dumper`]; [`Shared::go_on_opener`] goes on with it.
    pub fn run_opener<R: Wait>(&self, rt: &R, hold: &impl Hold) -> Reply
        ensures over { ends_job result ≡ true }
        ensures job { MakesJob D.contents its.Opener 0 result }
    {
        self.run(rt, OneOrder::new(), Worker::Opener, 0, hold)
    }
}
