//! The orders to a core: a checkpoint, a merge, the end of a checkpoint, a store opened again.
ghost use Rattle.std.specs.Prelude.{◌≡◌, None, IfOk};
ghost use Rattle.sd_core.specs.Beginning.{FreeSlots, begin_refusal};
ghost use Rattle.sd_core.specs.Called.{IsBegun, IsCancelOrder, IsMergeOrder, IsReopenOrder};
ghost use Rattle.sd_core.specs.Next.{NextByBegin, NextByCancel, NextByReopen};
ghost use Rattle.sd_core.specs.Refusals.{cancel_refusal, reopen_refusal};

use super::Core;
use crate::beginning::{first_of, first_parent, is_down, is_not_open, reserve_slots};
use crate::dumping::{begin_checkpoint, release_place};
use crate::next_laws::{begin_law, cancel_law, merge_order_law, reopen_law};
use crate::opening::{fresh_opener, give_up_all, put_opener};
use sd_command::{Refusal, Reply};
use sd_free_slots::{free_in, free_law};
use sd_journal::{Entry, tracked_laws};
use sd_rounds::PageBuffers;
use std::alloc::AllocError;

impl Core {
    /// Why a checkpoint of so many pre-dumps can't begin, before its slots are looked for.
    pub(super) fn refusal_of_begin(&self, rounds: u64) -> Option<Refusal>
        ensures { result ≡ begin_refusal self.now rounds }
    {
        first_of(&[
            (is_not_open(self.standing), Refusal::NotOpen),
            (is_down(self.standing), Refusal::StoreDown),
            (!self.dumper.is_idle(), Refusal::Busy),
            (rounds > 8, Refusal::Einval),
            (self.journal.free() < 2, Refusal::JournalFull),
            (self.numbers.are_used_up(), Refusal::NumbersUsed),
        ])
    }

    /// Begins a checkpoint of so many pre-dumps, at most 8, and a dump. Its number is above all that were used.
    ///
    /// # Errors
    ///
    /// The first of these whose condition holds: `NotOpen`; `StoreDown`; `Busy` where a checkpoint runs; `Einval` where
    /// there are over 8 pre-dumps; `JournalFull` where fewer than two entries are free; `NumbersUsed` where a
    /// checkpoint number or a serial of 2^63 or more was used; `NoSlot` where fewer slots are free than pre-dumps and
    /// two; `OutOfMemory` where a growth was refused. Nothing changed.
    pub fn begin(&mut self, rounds: u64) -> Reply
        ensures { IsBegun rounds result self.old self.new }
    {
        self.is_sound();
        begin_law(&self.catalog);
        match self.refusal_of_begin(rounds) {
            Some(why) => Reply::Refused(why),
            None => self.begin_in_slots(rounds as usize),
        }
    }

    /// Begins a checkpoint in the lowest free slots.
    ///
    /// # Errors
    ///
    /// `NoSlot`, `OutOfMemory`: as `begin`.
    pub(super) fn begin_in_slots(&mut self, rounds: usize) -> Reply
        requires { begin_refusal self.old rounds ≡ None }
        ensures { NextByBegin rounds self.old result self.new }
    {
        free_law();
        let Ok(free) = self.free_slots() else {
            return Reply::Refused(Refusal::OutOfMemory);
        };
        let Some(slots) = reserve_slots(free, rounds) else {
            return Reply::Refused(Refusal::NoSlot);
        };
        let Ok(buffers) = PageBuffers::reserve(self.alloc) else {
            return Reply::Refused(Refusal::OutOfMemory);
        };
        let Ok(()) = self.journal.hold(2) else {
            return Reply::Refused(Refusal::OutOfMemory);
        };
        let parent = first_parent(&self.catalog, self.grows);
        let number = self.numbers.begin();
        begin_checkpoint(&mut self.dumper, number, slots, parent, buffers);
        Reply::Begun(number)
    }

    /// The free slots, rising: no image stands there that is needed, no job reserves them, and no request is out on
    /// them. [`begin`](Core::begin) takes the lowest of them, as many as pre-dumps and two, and
    /// [`merge`](Core::merge) one.
    ///
    /// # Errors
    ///
    /// Out of memory where a list finds no room.
    pub fn free_slots(&self) -> Result<Vec<usize>, AllocError>
        ensures { IfOk result (λ slots. FreeSlots self.now slots.items) }
    {
        free_in(
            self.alloc,
            self.phases.len(),
            &self.catalog,
            &self.dumper,
            &self.merger,
            &self.outs,
        )
    }

    /// Begins a merge of the newest dump or merged image: the chain that it reaches becomes one image, in the lowest
    /// free slot, and then the images close that nobody needs any more.
    ///
    /// # Errors
    ///
    /// The first of these whose condition holds: `NotOpen`; `StoreDown`; `Busy` where a merge runs; `Idle` where the
    /// store shows no checkpoint; `NumbersUsed` where a serial of 2^63 or more was used; `NoSlot` where no slot is
    /// free; `OutOfMemory` where a growth was refused. Nothing changed.
    pub fn merge(&mut self) -> Reply
        ensures { IsMergeOrder result self.old self.new }
    {
        self.is_sound();
        merge_order_law(&self.catalog);
        match self.refusal_of_merge() {
            Some(why) => Reply::Refused(why),
            None => self.merge_tip(),
        }
    }

    /// Cancels the checkpoint that runs or is pending, also while the store is down. The next one takes every page. It
    /// takes no memory.
    ///
    /// # Errors
    ///
    /// The first of these whose condition holds: `Idle` where none runs or is pending; `Busy` where an opener runs, a
    /// request of the dumper is out, or the opening of the dump's gate was ever taken up. Nothing changed.
    pub fn cancel(&mut self) -> Reply
        ensures { IsCancelOrder result self.old self.new }
    {
        self.is_sound();
        cancel_law();
        match self.refusal_of_cancel() {
            Some(why) => Reply::Refused(why),
            None => self.cancel_it(),
        }
    }

    /// Cancels the checkpoint that runs or is pending.
    pub(super) fn cancel_it(&mut self) -> Reply
        requires { cancel_refusal self.old ≡ None }
        ensures { NextByCancel self.old result self.new }
    {
        tracked_laws();
        let number = self.numbers.begun;
        self.journal.append_held(Entry::Cancelled(number));
        let held = self.journal.held();
        self.journal.release(held);
        self.pending = None;
        release_place(&mut self.catalog, self.dumper.serial());
        self.dumper.cancel();
        self.grows = false;
        self.swept = false;
        Reply::Cancelled(number)
    }

    /// Begins to open the store again: each slot's job is given up, and an opener begins.
    ///
    /// # Errors
    ///
    /// The first of these whose condition holds: `Busy` where the store is open, an opener runs or a request is out;
    /// `JournalFull` where no checkpoint is pending and no entry is free; `OutOfMemory` where a growth was refused.
    /// Nothing changed.
    pub fn reopen(&mut self) -> Reply
        ensures { IsReopenOrder result self.old self.new }
    {
        self.is_sound();
        reopen_law();
        match self.refusal_of_reopen() {
            Some(why) => Reply::Refused(why),
            None => self.open_again(),
        }
    }

    /// Begins to open the store again.
    ///
    /// # Errors
    ///
    /// `OutOfMemory` where a growth was refused. Nothing changed.
    pub(super) fn open_again(&mut self) -> Reply
        requires { reopen_refusal self.old ≡ None }
        ensures { NextByReopen self.old result self.new }
    {
        let Ok(opener) = fresh_opener(
            self.alloc,
            self.phases.len(),
            &mut self.journal,
            self.pending,
        ) else {
            return Reply::Refused(Refusal::OutOfMemory);
        };
        give_up_all(&mut self.phases);
        put_opener(&mut self.opener, opener);
        Reply::Worked
    }
}
