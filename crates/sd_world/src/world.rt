//! A world: a core, its disk, and what is kept of the workers between events.
ghost use Rattle.std.specs.Prelude.{◌≡◌, ◌≤◌, [], None, IfOk, IfErr};
ghost use Rattle.sd_command.specs.declared.refusal.Refusal.TheVariants.{OutOfMemory};
ghost use Rattle.sd_disk.specs.Crash.{Within};
ghost use Rattle.sd_disk.specs.Reads.{OnlyReads};
ghost use Rattle.sd_disk.specs.Spans.{LeavesOnly};
ghost use Rattle.sd_image.specs.Shows.{Shows};
ghost use Rattle.sd_pagetable.specs.Contents.{plain_of};
ghost use Rattle.sd_crash_safety.specs.declared.standing.Standing.TheVariants.{NotOpen};
ghost use Rattle.sd_core.specs.Flags.{numbers_from};
ghost use Rattle.sd_core.specs.Starts.{shown_base};
ghost use Rattle.sd_world.specs.Opens.{HasNoFrame, IsFaultOf, bare_memory};
ghost use Rattle.sd_journal.specs.Marked.{IsTracked};
ghost use Rattle.sd_crash_safety.specs.Shown.{ShowsAllowed};
ghost use Rattle.sd_crash_safety.specs.View.{history_of};
ghost use Rattle.sd_world.specs.Acked.{HasPreDumpsThere};
ghost use Rattle.sd_world.specs.Begun.{RunsAsBegun};
ghost use Rattle.sd_world.specs.Lifetimes.{ImagesStay};
ghost use Rattle.sd_world.specs.Made.{IsMade, MadeCounts, MadeIsStep, MovesOn};
ghost use Rattle.sd_world.specs.Merged.{MergesStand};
ghost use Rattle.sd_world.specs.Moments.{GoesLeave};
ghost use Rattle.sd_world.specs.Points.{FirstStands, PointsFollow, StandsAt};
ghost use Rattle.sd_world.specs.Promise.{Goes, Point};
ghost use Rattle.sd_world.specs.Restored.{IsRestored};
ghost use Rattle.sd_world.specs.Runs.{Runs, ShowsAllowedWithin};
ghost use Rattle.sd_world.specs.Tickets.{HasOwnTickets, TicketsLast};
ghost use Rattle.sd_world.specs.View.{is_asked, nothing_kept};

use crate::event::Event;
use crate::kept::Lanes;
use crate::laws::{store_laws, world_laws};
use crate::open_error::OpenError;
use crate::open_fault::OpenFault;
use crate::opening::start_of;
use crate::restoring::restore_left;
use crate::stepping::make_step;
use sd_areas::Snapshot;
use sd_command::{Refusal, Reply};
use sd_core::Core;
use sd_disk::Disk;
use sd_gate::{Worker, all_found_fit, writes_commute};
use sd_journal::trim_laws;
use sd_restore::Fault;
use sd_store_laws::{contents_show, left_as_believed};
use std::alloc::Global;
use std::marker::Model;

mod applying;
mod passing;

/// A core, its disk, and what is kept of the workers between events.
#[derive(Drop)]
pub struct World<D: Disk> {
    alloc: Global,
    core: Core,
    disk: D,
    kept: Lanes,
}

impl<D: Disk> Model for World<D> {
    ghost use Rattle.std.specs.Coded.{codes};
    ghost use Rattle.sd_world.specs.View.{WorldView, world_code};
    ghost use Rattle.sd_world.specs.Acked.{IsWorldThere};

    ghost Value = { WorldView D };

    ghost coded = { world_code (Prim.hlevel (codes)) D.code (Prim.hlevel (codes)) };

    ghost view = { λ w. record { core = w.core; disk = w.disk; kept = w.kept } };

    ghost invariant = { λ w. IsWorldThere D.Disk (record { core = w.core; disk = w.disk; kept = w.kept }) };
}

impl<D: Disk> World<D> {
    /// Opens a store: syncs each slot, reads what it shows, and starts a run from it, over so many frames, 1 to 65,536.
    /// The core's store isn't open yet, so checkpoints and merges are refused as not open: [`World::reopen_now`] opens
    /// it, and [`World::start`] does both. Where nothing was saved the run starts from space 1 alone, without areas.
    ///
    /// # Errors
    ///
    /// `NoFrame` where more pages than there are frames aren't all zeros. `Damaged` names a slot, as `restore` does.
    /// `Device`, and `OutOfMemory` where a growth was refused. Each hands the disk back.
    pub fn open(alloc: Global, mut disk: D, frames: usize) -> Result<World<D>, OpenError<D>>
        requires least { 1 ≤ frames }
        requires greatest { frames ≤ 65536 }

        // No entry stands in the journal, the store isn't open, nothing is out, and no checkpoint runs. The first
        // numbers come after the base's.
        ensures journal { IfOk result (λ world. world.core.items ≡ []) }
        ensures standing { IfOk result (λ world. world.core.standing ≡ NotOpen) }
        ensures kept { IfOk result (λ world. world.kept ≡ nothing_kept) }
        ensures idle { IfOk result (λ world. world.core.dumper.running ≡ None) }
        ensures numbers { IfOk result (λ world. world.core.numbers ≡ numbers_from world.core.base.number) }
        ensures tickets { IfOk result (λ world. HasOwnTickets world.core) }

        // The contents show the base, or nothing saved where it has no number, and so does every outcome of a crash.
        ensures shows { IfOk result (λ world. D.is_honest world.disk → Shows (D.contents disk)
            (shown_base world.core.base.number world.core.base.memory)) }
        ensures everywhere { IfOk result (λ world. D.is_honest world.disk
            → Within (D.may_leave world.disk) (λ c. Shows c
            (shown_base world.core.base.number world.core.base.memory))) }
        ensures bare { IfOk result (λ world. world.core.base.number ≡ None
            → world.core.base.memory ≡ bare_memory) }
        // The memory that the run starts with is the base's.
        ensures memory { IfOk result
            (λ world. plain_of world.core.memory ≡ world.core.base.memory) }

        // It has so many frames.
        ensures frames { IfOk result (λ world. world.core.memory.pool ≡ frames) }

        // It only reads: the contents stay, and no crash, afterwards or within it, leaves more than one before it.
        ensures reads { IfOk result (λ world. OnlyReads D.Disk disk world.disk) }
        ensures refused { IfErr result (λ error. OnlyReads D.Disk disk error.disk) }
        ensures fault { IfErr result (λ error. D.is_honest error.disk
            → IsFaultOf (D.contents disk) (D.failed disk) (D.failed error.disk) error.fault) }
        ensures no_frame { IfErr result (λ error. D.is_honest error.disk
            → error.fault ≡ OpenFault.NoFrame → HasNoFrame (D.contents disk) frames) }
    {
        match start_of(alloc, &mut disk, frames) {
            Ok(start) => {
                all_found_fit(&disk);
                let core = Core::new(alloc, start);
                let kept = Lanes::new();
                Ok(World {
                    alloc,
                    core,
                    disk,
                    kept,
                })
            }
            Err(fault) => Err(OpenError { fault, disk }),
        }
    }

    /// The core.
    pub fn core(&self) -> &Core
        ensures { result.now ≡ self.now.core }
    {
        &self.core
    }

    /// Whether a device call of a worker is out that wasn't made yet. Its next event is then `Perform`, and else
    /// `Work`.
    pub fn is_out(&self, worker: Worker) -> bool
        ensures { result ≡ is_asked self.now.kept worker }
    {
        self.kept.is_asked(worker)
    }

    /// The disk, as it stands. What was acknowledged is on it; a checkpoint that runs is given up, as by a crash, and
    /// what was stored since the last one is gone. `restore` reads what it shows, and [`World::start`] goes on from it.
    pub fn close(self) -> D
        ensures { result ≡ self.disk }
    {
        let World { core, disk, .. } = self;
        core.discard();
        disk
    }

    /// The core and the disk, as they stand. What is kept of the workers is dropped.
    pub fn into_parts(self) -> (Core, D)
        ensures core { result.0 ≡ self.core }
        ensures disk { result.1 ≡ self.disk }
    {
        let World { core, disk, .. } = self;
        (core, disk)
    }

    /// A law: whatever a crash leaves now shows a pair that the journal allows, and so do the contents as read. The
    /// journal is legal, the memory is the one that it makes, and its bits are those that the commands and visits give.
    /// The pre-dumps so far of the checkpoint that runs are open in their slots.
    pub fn sound(&self)
        ensures allowed { D.is_honest self.now.disk → Within (D.may_leave self.now.disk)
            (ShowsAllowed self.now.core.base (history_of self.now.core)) }
        ensures contents { D.is_honest self.now.disk
            → ShowsAllowed self.now.core.base (history_of self.now.core)
            (D.contents self.now.disk) }
        ensures tracked { IsTracked self.now.core.base self.now.core.items
            self.now.core.memory }
        ensures pre_dumps { D.is_honest self.now.disk → HasPreDumpsThere D.Disk self.now }
    {
        left_as_believed();
        contents_show();
        writes_commute();
        self.core.sound();
    }

    /// A law: after each event of a run that is answered `merged` the image of that serial stands in its slot of the
    /// contents, a copy of its source, as it entered at one of the run's events; and the images of the merge's list are
    /// closed, and cut to one byte.
    pub fn merges_stand(&self)
        ensures { MergesStand D.Disk }
    {
        let _core = &self.core;
    }

    /// A law: in an open store each image that stands in its slot of the contents stays there, whatever run follows,
    /// until a job has the slot: a checkpoint or a merge that makes an image there, or a merge that lists the image. So
    /// it is with the images of a checkpoint after its acknowledgement (`acked` of `IsStep`).
    pub fn images_stay(&self)
        ensures { ImagesStay D.Disk self.now }
    {
        self.core.goes_on();
    }

    /// A law: the checkpoint that runs after a run that began with none was begun by one of the run's events, and has
    /// as many pre-dumps as that order asked for. An acknowledgement is of the checkpoint that ran before it (`acked`
    /// of `IsStep`).
    pub fn runs_as_begun(&self)
        ensures { RunsAsBegun D.Disk }
    {
        let _core = &self.core;
    }

    /// A law: from each point of a run at which a world stands an event goes to one at which it stands then, where the
    /// disk is honest.
    pub fn points_follow(&self)
        ensures { PointsFollow D.Disk }
    {
        trim_laws();
        let _core = &self.core;
    }

    /// A law: a world that was opened, and has made no event, stands at the first point of a run.
    pub fn first_stands(&self)
        ensures { FirstStands D }
    {
        let _core = &self.core;
    }

    /// A law: whatever moment of a run a crash comes, also within a device call, it leaves what the journal allowed at
    /// one of the points of the run.
    pub fn goes_leave(&self)
        ensures { GoesLeave D.Disk }
    {
        let _core = &self.core;
    }

    /// A law: the requests that are out have tickets of their own after each event of a run, as long as 64 bits last.
    /// So the least ticket of a worker is that of its oldest request.
    pub fn tickets_last(&self)
        ensures { TicketsLast D.Disk }
    {
        let _core = &self.core;
    }

    /// Restores a disk that holds what a crash of this world's disk may leave now: exactly a pair that the journal
    /// allows, or the empty chain where nothing was saved.
    ///
    /// # Errors
    ///
    /// Those of `restore`, but none of the store: it is never called damaged.
    pub fn restore_crashed<C: Disk>(&self, crashed: &mut C) -> Result<Snapshot, Fault>
        ensures { D.is_honest self.now.disk → C.is_honest crashed.new
            → D.may_leave self.now.disk (C.contents crashed.old)
            → IsRestored self.now.core.base (history_of self.now.core) result }
    {
        self.sound();
        restore_left(self.alloc, crashed)
    }

    /// Makes one event, and answers it: one command, one order, one step of a worker, or one device call.
    ///
    /// A command is answered by what POSIX.1-2017 and the limits say (`Done`, `Bytes`, `Child`, `NeedsFault`, `Segv`,
    /// or `Refused`), and journaled with its reply; refused as `JournalFull` or `OutOfMemory` it isn't, and nothing
    /// changes. Between a freeze and its end every command is refused as `Frozen`. Orders begin a job or end it:
    /// `Begun`, `Worked`, `Cancelled`, `Trimmed`. A worker's next event is `Perform` where [`World::is_out`], and else
    /// `Work`, up to `Acked`, `Merged` or `Reopened`: [`World::finish`] makes them. After a device call that failed
    /// (`Device`) the next step is refused as `StoreDown`, and so are all jobs until the store is opened again.
    pub fn step(&mut self, event: &Event) -> Reply
        // What it does, from a sound world to one: `made_event_laws` says what follows.
        ensures does { IsMade D.Disk event.now self.old result self.new }
        // From each point of a run at which the world stands it goes to one at which it stands then: a crash at any
        // moment between them leaves what the journal allowed at the first, and after it what it allows at the second.
        ensures moves { D.is_honest self.new.disk → MovesOn D.Disk event.now self.old result self.new }
    {
        store_laws();
        self.points_follow();
        self.made_event_laws();
        world_laws(&self.core, &self.disk);
        let answer = make_step(&mut self.core, &mut self.disk, &mut self.kept, event);
        world_laws(&self.core, &self.disk);
        answer
    }

    /// A law: all else that is said of an event follows from what it does: what it adds to the journal, what an
    /// acknowledgement, a merge and a reopening leave on the disk, which files stay, why a job's step is refused, what
    /// a crash within it and after it leaves, and how many device calls are out then.
    pub fn made_event_laws(&self)
        ensures step { MadeIsStep D.Disk }
        ensures counts { MadeCounts D.Disk }
    {
        writes_commute();
        left_as_believed();
        contents_show();
    }

    /// Makes the steps of events in order, and returns their replies.
    ///
    /// # Errors
    ///
    /// `OutOfMemory` where there is no room for the replies: no step is made.
    pub fn run(&mut self, events: &[Event]) -> Result<Vec<Reply>, Refusal>
        ensures runs { IfOk result
            (λ replies. Runs D.Disk self.old events.now replies.items self.new) }
        ensures refused { IfErr result (λ why. (why ≡ OutOfMemory) × (self.new ≡ self.old)) }
        ensures honest { D.is_honest self.new.disk → D.is_honest self.old.disk }

        // From each point at which the world stands the events go, one by one, to a point at which it stands then.
        // Within an event a crash leaves what the journal allowed before it, and after it what the journal allows
        // then; after `acked` and `reopened` that checkpoint, with the memory at its freeze.
        ensures promise { IfOk result (λ replies. D.is_honest self.new.disk → (first : Point D)
            → StandsAt self.old first → (last : Point D) × StandsAt self.new last
            × Goes D.Disk first events.now replies.items last) }

        // At any moment of it a crash leaves what the journal allowed with which it began, or with which a step ended.
        ensures any_moment { IfOk result (λ replies. D.is_honest self.new.disk
            → LeavesOnly D.Disk self.old.disk self.new.disk
            (ShowsAllowedWithin D.Disk self.old events.now replies.items self.new)) }
        // At its end a crash leaves what the journal allows then, and so do the contents as read.
        ensures at_end { D.is_honest self.new.disk → Within (D.may_leave self.new.disk)
            (ShowsAllowed self.new.core.base (history_of self.new.core)) }
        ensures contents { D.is_honest self.new.disk
            → ShowsAllowed self.new.core.base (history_of self.new.core)
            (D.contents self.new.disk) }
    {
        self.sound();
        self.points_follow();
        self.made_event_laws();
        let Ok(mut replies) = Vec::with_capacity(self.alloc, events.len()) else {
            return Err(Refusal::OutOfMemory);
        };
        for event in events {
            let answer = self.step(event);
            replies.push_reserved(answer);
        }
        self.sound();
        Ok(replies)
    }
}
