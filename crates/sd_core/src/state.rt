//! The state behind one lock.
ghost use Rattle.std.specs.Prelude.{◌≡◌, ◌↔◌, ℕ, true, List, map, drop};
ghost use Rattle.sd_areas.specs.Memory.{memory_of};
ghost use Rattle.sd_pagetable.specs.Contents.{plain_of};
ghost use Rattle.sd_pagetable.specs.Tracking.{IsBeginning};
ghost use Rattle.sd_image.specs.Shows.{Shows};
ghost use Rattle.sd_gate.specs.Laws.{found_phase};
ghost use Rattle.sd_crash_safety.specs.Believes.{Believes};
ghost use Rattle.sd_crash_safety.specs.View.{CoreView};
ghost use Rattle.sd_rounds.specs.Dumper.{pages_of_checkpoint};
ghost use Rattle.sd_core.specs.Called.{IsHandedIn, IsTakenUp};
ghost use Rattle.sd_core.specs.Next.{NextByOutcome};
ghost use Rattle.sd_core.specs.Refusals.{is_idle};
ghost use Rattle.sd_core.specs.Starts.{IsStart, nothing_asked, shown_base};
ghost use Rattle.sd_core.specs.Working.{left_by};

use crate::base::CoreBase;
use crate::lanes::LANES;
use crate::next_laws::{dumper_law, merger_law, opener_law, outcome_law};
use crate::numbers::Numbers;
use crate::opening::left_of_opener;
use crate::start::Start;
use crate::taken::Taken;
use sd_chain::Catalog;
use sd_command::{Refusal, Reply};
use sd_crash_safety::{Standing, core_steps, found_law};
use sd_free_slots::ListRoom;
use sd_gate::{Outcome, Phase, RequestId, Worker, lane_of};
use sd_journal::{Journal, Origin};
use sd_merge::Merger;
use sd_opener::Opener;
use sd_pagetable::Memory;
use sd_rounds::Dumper;
use std::alloc::Global;
use std::marker::Model;

mod applies;
mod dumps;
mod merges;
mod openings;
mod orders;
mod passing;
mod refusing;
mod told;
mod trims;

/// The memory of a run, its journal, its workers, and what is known of its store.
#[derive(Drop)]
pub struct Core {
    alloc: Global,
    base: CoreBase,
    memory: Memory,
    journal: Journal,
    pending: Option<u64>,
    last: Option<u64>,
    standing: Standing,
    phases: Vec<Phase>,
    outs: [Option<RequestId>; LANES],
    catalog: Catalog,
    dumper: Dumper,
    merger: Merger,
    /// The room for the list of the images that the running merge closes.
    room: ListRoom,
    opener: Option<Opener>,
    numbers: Numbers,
    grows: bool,
    committing: bool,
    /// The pass of the pending checkpoint's dump is over: each page was visited since the freeze.
    swept: bool,
}

impl Model for Core {
    ghost use Rattle.std.specs.Coded.{codes};
    ghost use Rattle.sd_crash_safety.specs.View.{CoreView, core_code};
    ghost use Rattle.sd_core.specs.Sound.{IsCore};
    ghost use Rattle.sd_core.specs.Starts.{base_of};

    ghost Value = { CoreView };

    ghost coded = { core_code (Prim.hlevel (codes)) };

    ghost view = { λ c. record {
      base = base_of c.base;
      items = c.journal.items;
      held = c.journal.held;
      limit = c.journal.limit;
      memory = c.memory;
      standing = c.standing;
      phases = c.phases.items;
      outs = c.outs;
      catalog = c.catalog;
      dumper = c.dumper;
      merger = c.merger;
      opener = c.opener;
      numbers = record {
        checkpoint = c.numbers.checkpoint;
        serial = c.numbers.serial;
        begun = c.numbers.begun;
        given = c.numbers.given;
        ticket = c.numbers.ticket;
      };
      grows = c.grows;
      committing = c.committing;
    } };

    ghost invariant = { λ c. IsCore (record {
      base = base_of c.base;
      journal = c.journal;
      memory = c.memory;
      frozen = c.pending;
      newest = c.last;
      standing = c.standing;
      phases = c.phases.items;
      outs = c.outs;
      places = c.catalog;
      dumper = c.dumper;
      merger = c.merger;
      room = c.room;
      opener = c.opener;
      numbers = c.numbers;
      grows = c.grows;
      committing = c.committing;
      swept = c.swept;
    }) };
}

impl Core {
    /// A core that starts from a store. The store isn't open yet.
    pub fn new(alloc: Global, start: Start) -> Core
        requires begins { IsBeginning start.memory }
        requires same { plain_of start.memory ≡ memory_of start.base }
        ensures starts { IsStart start.number (memory_of start.base) start.memory start.phases.items result }
        // Where each slot is in the phase that its file shows, and the files show the base, the core believes so.
        ensures believes { (files : List (List ℕ)) → start.phases.items ≡ map found_phase files
            → Shows files (shown_base start.number (memory_of start.base))
            → Believes result nothing_asked (map (drop 1) files) files }
    {
        found_law();
        let Start {
            number,
            base,
            memory,
            phases,
        } = start;
        Core {
            alloc,
            base: CoreBase {
                number,
                memory: base,
                origin: Origin::Opened,
                folded: 0,
            },
            memory,
            journal: Journal::new(alloc),
            pending: None,
            last: number,
            standing: Standing::NotOpen,
            phases,
            outs: [None; LANES],
            catalog: Catalog::new(alloc),
            dumper: Dumper::new(alloc),
            merger: Merger::new(alloc),
            room: ListRoom::none(alloc),
            opener: None,
            numbers: Numbers::start(number),
            grows: false,
            committing: false,
            swept: false,
        }
    }

    /// Drops a core, part by part. No file changes. Whoever ends with one calls this, so that no other crate proves
    /// that drop.
    pub fn discard(self) {
        let Core {
            base,
            memory,
            journal,
            phases,
            catalog,
            dumper,
            merger,
            room,
            opener,
            ..
        } = self;
        drop(base);
        drop(memory);
        drop(journal);
        drop(phases);
        drop(catalog);
        drop(dumper);
        drop(merger);
        drop(room);
        drop(opener);
    }

    /// How many steps and outcomes a worker's job has before it, at most: 0 exactly while it is idle. It goes over the
    /// mapped pages one by one, and isn't for a step.
    pub fn left(&self, worker: Worker) -> u128
        ensures left { result ≡ left_by self.now worker }
        ensures idle { result ≡ 0 ↔ is_idle self.now worker ≡ true }
    {
        match worker {
            Worker::Dumper => self.dumper.left(&self.memory),
            Worker::Merger => self.merger.left(),
            Worker::Opener => left_of_opener(&self.opener),
        }
    }

    /// How many data pages the image that the dumper makes has so far: 0 while it makes none.
    pub fn pages(&self) -> usize
        ensures { result ≡ pages_of_checkpoint self.now.dumper.running }
    {
        self.dumper.pages()
    }

    /// Whether a worker has no job.
    pub fn is_idle(&self, worker: Worker) -> bool
        ensures { result ≡ is_idle self.now worker }
    {
        match worker {
            Worker::Dumper => self.dumper.is_idle(),
            Worker::Merger => self.merger.is_idle(),
            Worker::Opener => self.opener.is_none(),
        }
    }

    /// Makes a worker's next step, or hands out its next device call.
    ///
    /// # Errors
    ///
    /// `Busy` where a request of the worker is out, but for up to seven writes of data pages while pages are left; else
    /// `Idle` where it has no job; `OutOfMemory` where a growth was refused. `Damaged` of the opener, which then has
    /// ended: where the store can't be read, or shows neither the last checkpoint nor the pending one. `Damaged` of the
    /// merger, where its source isn't there to be read.
    pub fn take_up(&mut self, worker: Worker) -> Taken
        ensures { IsTakenUp worker self.old result self.new }
    {
        core_steps();
        self.is_sound();
        if let Some(why) = self.refusal_of_work(worker) {
            return Taken::Step(Reply::Refused(why));
        }
        match worker {
            Worker::Dumper => {
                dumper_law();
                self.take_up_dumper()
            }
            Worker::Merger => {
                let made = self.take_up_merger();
                merger_law(&self.catalog);
                made
            }
            Worker::Opener => {
                opener_law();
                let made = self.take_up_opener();
                self.is_sound();
                made
            }
        }
    }

    /// Takes the outcome of a device call that is out. An outcome of no such call is refused as idle, and dropped.
    ///
    /// # Errors
    ///
    /// `StoreDown` where the call failed, and where its job has ended, since the store went down meanwhile.
    pub fn hand_in(&mut self, outcome: Outcome) -> Reply
        ensures { IsHandedIn outcome result self.old self.new }
    {
        self.is_sound();
        let reply = self.hand_in_known(outcome);
        self.is_sound();
        outcome_law(&self.catalog);
        reply
    }

    /// Takes the outcome of a device call, by whose it is.
    fn hand_in_known(&mut self, outcome: Outcome) -> Reply
        ensures { NextByOutcome self.old outcome result self.new }
    {
        let id = outcome.id();
        let Some(lane) = lane_of(&self.outs, &id) else {
            drop(outcome);
            return Reply::Refused(Refusal::Idle);
        };
        if self.is_idle(id.worker) {
            return self.hand_in_late(lane, outcome);
        }
        match id.worker {
            Worker::Dumper => self.hand_in_dumper(lane, outcome),
            Worker::Merger => self.hand_in_merger(outcome),
            Worker::Opener => self.hand_in_opener(outcome),
        }
    }
}
