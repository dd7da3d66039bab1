//! The turns of threads at a shared core: each function takes its lock and makes one call of what lies behind it.
ghost use Rattle.std.specs.Prelude.{◌≡◌, ◌⊎◌, Err, IfOk, IfErr, IfNone, IfSome};
ghost use Rattle.sd_command.specs.declared.refusal.Refusal.TheVariants.{LockBusy};
ghost use Rattle.sd_crash_safety.specs.Calls.{IsUnjournaled};
ghost use Rattle.sd_settling.specs.Told.{told};
ghost use Rattle.sd_shared.specs.Told.{IsRefusedAtOnce};
ghost use Rattle.sd_shared.specs.Turns.{AwaitsThaw, Cancels, IsAnsweredCall, LacksSlot, MakesThawed, Orders, Resumes};
ghost use Rattle.sd_shared.specs.Turns.{SeatMakes, TakesStep, TrimsOnce, WasHandedIn, taken_of, turned};

use crate::booked::Booked;
use crate::hold::Hold;
use crate::next::Next;
use crate::ordering::OneOrder;
use crate::owed_call::OwedCall;
use crate::seat::Seat;
use crate::shared::Shared;
use crate::thaw::Thaw;
use crate::waits_ended::WaitsEnded;
use sd_command::{Command, Refusal, Reply};
use sd_disk::Disk;
use sd_gate::{Outcome, Worker};
use sd_journal::Receipt;
use sd_receipts::Folded;
use std::hint::spin_loop;
use std::sync::atomic::AtomicU64;
use std::sync::{MutexGuard, Wait};
use std::time::Duration;

/// How often a seat looks whether the core's lock is free before it naps, and how many pauses of the processor come
/// after each look: a worker's turn is shorter.
const LOOKS: u32 = 2;

const PAUSES: u32 = 16;

/// How often a seat naps before it sleeps until the lock is left to it.
const NAPS: u32 = 64;

/// How long a nap is, in microseconds: the thread that has the core at hand makes some hundred turns meanwhile, which
/// is faster than to hand it over for each. A longer nap leaves the lock free for longer where that thread ends.
const NAP_MICROS: u64 = 50;

/// Lets the processor pause after a look.
fn pause() {
    for _ in 0..PAUSES {
        spin_loop();
    }
}

/// A copy of a command for the journal, where there is room for it: it is made before the core's lock is taken.
fn copy_of(command: &Command) -> Option<Command>
    ensures { IfSome result (λ copy. copy ≡ command.now) }
{
    match command.try_clone() {
        Ok(copy) => Some(copy),
        Err(_) => None,
    }
}

/// The receipt of a seat's command, as it was answered.
fn receipt_of(
    seat: usize,
    command: Command,
    answered: Result<(u64, Reply), Refusal>,
) -> Result<Receipt, Refusal>
    requires refuses { IfErr answered IsUnjournaled }
    ensures seat { IfOk result (λ receipt. receipt.seat ≡ seat) }
    ensures command { IfOk result (λ receipt. receipt.command ≡ command) }
    ensures told { told result ≡ answered }
    ensures refuses { IfErr result IsUnjournaled }
{
    match answered {
        Ok((number, reply)) => Ok(Receipt {
            seat,
            number,
            command,
            reply,
        }),
        Err(why) => Err(why),
    }
}

impl<D: Disk + Drop> Shared<D> {
    /// Looks whether the core's lock is free, and takes it.
    fn look(&self) -> Option<MutexGuard<'_, Booked>> {
        for _ in 0..LOOKS {
            if let Some(core) = self.core.try_lock() {
                return Some(core);
            }
            pause();
        }
        None
    }

    /// Takes the core's lock for a seat. One that finds it taken naps, of which the thread that has it knows nothing.
    /// Workers and orders sleep for the lock at once: it is then left to them in turn, so that a cancel comes between
    /// two turns of a worker.
    fn lock(&self, rt: &impl Wait) -> MutexGuard<'_, Booked> {
        if let Some(core) = self.look() {
            return core;
        }
        let never_woken = AtomicU64::new(0);
        for _ in 0..NAPS {
            never_woken.park_timeout(rt, 0, Duration::from_micros(NAP_MICROS));
            if let Some(core) = self.core.try_lock() {
                return core;
            }
        }
        self.core.lock(rt)
    }

    /// Makes a command of a seat. It may wait for the lock.
    ///
    /// # Errors
    ///
    /// `JournalFull`, `OutOfMemory`: nothing changed, and nothing is journaled.
    pub fn call(
        &self,
        rt: &impl Wait,
        seat: &mut Seat,
        command: Command,
    ) -> Result<Receipt, Refusal>
        ensures seat { IfOk result (λ receipt. receipt.seat ≡ seat.old.number) }
        ensures command { IfOk result (λ receipt. receipt.command ≡ command) }
        ensures turn { SeatMakes seat.old.number command result }
        ensures refuses { IfErr result IsUnjournaled }
        ensures same { seat.new.number ≡ seat.old.number }
        ensures once { seat.new ≡ turned seat.old }
    {
        let number = seat.number;
        let copy = copy_of(&command);
        let answered = self.lock(rt).command(seat, &command, copy);
        receipt_of(number, command, answered)
    }

    /// Makes a command of a seat once nothing is frozen, or the store is down, or waits are ended. It may wait for
    /// that, and for the lock: in one turn, so a command that met a freeze isn't made twice.
    ///
    /// # Errors
    ///
    /// As `call`. A reply `Frozen` says that the store is down, or that waits were ended ([`Shared::end_waits`]).
    pub fn call_thawed(
        &self,
        rt: &impl Wait,
        seat: &mut Seat,
        command: Command,
    ) -> Result<Receipt, Refusal>
        ensures seat { IfOk result (λ receipt. receipt.seat ≡ seat.old.number) }
        ensures command { IfOk result (λ receipt. receipt.command ≡ command) }
        ensures turn { MakesThawed seat.old.number command result }
        ensures refuses { IfErr result IsUnjournaled }
        ensures same { seat.new.number ≡ seat.old.number }
        ensures once { seat.new ≡ turned seat.old }
    {
        let number = seat.number;
        let copy = copy_of(&command);
        let mut core = self
            .thawed
            .wait_while(rt, self.lock(rt), |core| core.holds_waits());
        let answered = core.command(seat, &command, copy);
        drop(core);
        receipt_of(number, command, answered)
    }

    /// Makes a command of a seat where the lock is free. It never waits.
    ///
    /// # Errors
    ///
    /// `LockBusy` where another thread may have the lock, and those of `call`: nothing changed, and nothing is
    /// journaled.
    pub fn try_call(&self, seat: &mut Seat, command: Command) -> Result<Receipt, Refusal>
        ensures seat { IfOk result (λ receipt. receipt.seat ≡ seat.old.number) }
        ensures command { IfOk result (λ receipt. receipt.command ≡ command) }
        ensures turn { ((seat.new ≡ turned seat.old) × SeatMakes seat.old.number command result)
            ⊎ ((seat.new ≡ seat.old) × (result ≡ Err LockBusy)) }
        ensures refuses { IfErr result IsRefusedAtOnce }
        ensures same { seat.new.number ≡ seat.old.number }
    {
        let number = seat.number;
        let copy = copy_of(&command);
        match self.core.try_lock() {
            Some(mut core) => {
                let answered = core.command(seat, &command, copy);
                drop(core);
                receipt_of(number, command, answered)
            }
            None => Err(Refusal::LockBusy),
        }
    }

    /// Waits until nothing is frozen, or the store is down, or waits are ended, and says which.
    pub fn wait_thaw(&self, rt: &impl Wait) -> Thaw
        ensures waits { AwaitsThaw result }
    {
        let core = self
            .thawed
            .wait_while(rt, self.core.lock(rt), |core| core.holds_waits());
        core.thaw()
    }

    /// Ends all waits for a thaw until the next checkpoint begins, from which on they are held again: for who leaves a
    /// checkpoint that can't be gone on with or cancelled.
    pub fn end_waits(&self, rt: &impl Wait) -> WaitsEnded {
        let (ended, waking) = self.core.lock(rt).end_waits();
        waking.wake(&self.thawed);
        ended
    }

    /// Cancels the checkpoint that runs or is pending, as [`Shared::cancel`].
    pub(crate) fn cancel_once(&self, rt: &impl Wait, one: OneOrder) -> Reply
        ensures turn { Cancels result }
    {
        let (reply, waking) = self.core.lock(rt).cancel(one);
        waking.wake(&self.thawed);
        reply
    }

    /// Trims the journal, as [`Shared::trim`].
    pub(crate) fn trim_once(&self, rt: &impl Wait, one: OneOrder) -> Result<Folded, Refusal>
        ensures turn { TrimsOnce result }
    {
        let (folded, waking) = self.core.lock(rt).trim(one);
        waking.wake(&self.thawed);
        folded
    }

    /// Orders a worker's job. Returns the reply, and the number of the job's driver, where it was begun.
    pub(crate) fn begin(
        &self,
        rt: &impl Wait,
        one: OneOrder,
        worker: Worker,
        rounds: u64,
    ) -> (Reply, u64)
        ensures turn { Orders worker rounds result.0 result.1 }
    {
        let (reply, number, waking) = self.core.lock(rt).order(one, worker, rounds);
        waking.wake(&self.thawed);
        (reply, number)
    }

    /// The first step of the job of a worker that stands, or the device call that it asks for, and the number of the
    /// job's driver.
    pub(crate) fn resume(&self, rt: &impl Wait, worker: Worker) -> (u64, Next)
        ensures turn { Resumes worker result.0 (taken_of result.1) }
    {
        let (number, next, waking) = self.core.lock(rt).resume(worker);
        waking.wake(&self.thawed);
        (number, next)
    }

    /// The next step of a worker's job, or its next device call. A step that ends the job may end a freeze.
    pub(crate) fn take_up(&self, rt: &impl Wait, worker: Worker, job: u64) -> Next
        ensures turn { TakesStep worker job (taken_of result) }
    {
        let (next, waking) = self.core.lock(rt).take_up(worker, job);
        waking.wake(&self.thawed);
        next
    }

    /// Makes a device call and hands its outcome in. The hold is called before it, with its number and without a lock.
    pub(crate) fn call_device(
        &self,
        rt: &impl Wait,
        hold: &impl Hold,
        number: u64,
        owed: OwedCall,
    ) -> Reply
        ensures called { IsAnsweredCall D.contents owed.request.id result }
    {
        hold.before(number);
        match self.perform(rt, owed) {
            Some(outcome) => self.hand_in(rt, outcome),
            None => Reply::Refused(Refusal::Device),
        }
    }

    /// Makes a device call, where its slot is one of the disk's. The core asks for no other, which no clause can say of
    /// a core behind a lock.
    fn perform(&self, rt: &impl Wait, owed: OwedCall) -> Option<Outcome>
        ensures id { IfSome result (λ made. made.request.id ≡ owed.request.id) }
        ensures none { IfNone result (LacksSlot D.contents owed.request.id.slot) }
    {
        let mut disk = self.disk.lock(rt);
        if owed.slot() < disk.slots() {
            Some(owed.perform(&mut *disk))
        } else {
            owed.give_up(&*disk);
            None
        }
    }

    /// Hands an outcome in. It may end a freeze, or put the store down.
    fn hand_in(&self, rt: &impl Wait, outcome: Outcome) -> Reply
        ensures turn { WasHandedIn outcome.request.id result }
    {
        let (reply, waking) = self.core.lock(rt).hand_in(outcome);
        waking.wake(&self.thawed);
        reply
    }
}
