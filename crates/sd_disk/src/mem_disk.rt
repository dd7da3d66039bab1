//! A disk in memory.
ghost use Rattle.std.specs.Prelude.{◌≡◌, ℕ, ◌+◌, ◌<◌, ◌≤◌, true, List, [], length, map, replicate, slice_index_or};
ghost use Rattle.std.specs.Prelude.{IfOk, OnOk};
ghost use Rattle.sd_disk.specs.Events.{files_after};
ghost use Rattle.sd_disk.specs.Slots.{held, AreTracked};

use crate::budget::Budget;
use crate::call::Call;
use crate::call_trace::CallTrace;
use crate::disk::Disk;
use crate::error::DeviceError;
use crate::pick::Pick;
use crate::slot_file::SlotFile;
use std::alloc::{AllocError, Global};

/// A disk in memory, whose room was taken when it was made. A write that does not fit its slot's room fails, as do
/// a read past the end, a cut that would lengthen, and each write, cut and sync past the number of calls that there is
/// room for. A call that fails is not made: it changes no file, and nothing that a crash may leave.
#[derive(Drop)]
pub struct MemDisk {
    slots: Vec<SlotFile>,
    budget: Budget,
    reads: u64,
    asked: CallTrace,
    ghost replayed: { files_after budget.log.trace.outside budget.log.trace.events ≡ map held slots.items },
    ghost tracked: { AreTracked slots.items budget.log.trace.outside budget.log.trace.events },
}

impl MemDisk {
    ghost use Rattle.sd_disk.specs.Crash.{Only};
    ghost use Rattle.sd_disk.specs.Slots.{AreAtRest};
    ghost use Rattle.sd_disk.specs.Memory.{memory_files, memory_rooms, memory_calls, memory_failures, memory_reads};
    ghost use Rattle.sd_disk.specs.Memory.{memory_may_leave};

    /// A disk of 1 to 1,000 empty files, with room for so many bytes in each slot, and a record of so many writes, cuts
    /// and syncs. A call for which there is no room fails as a device does: it changes nothing, and `failures` counts
    /// it. All memory is taken here, three times the slots' bytes. A world needs a free slot for each image of a
    /// checkpoint and one more, in each slot 4,096 bytes and so many for each page that isn't all zeros, and a sync of
    /// each slot to begin with.
    ///
    /// # Errors
    ///
    /// Out of memory where a growth was refused.
    pub fn new(
        alloc: Global,
        slots: usize,
        bytes: usize,
        calls: usize,
    ) -> Result<MemDisk, AllocError>
        requires some { 1 ≤ slots }
        requires few { slots ≤ 1000 }
        ensures empty { IfOk result (λ disk. memory_files disk ≡ replicate slots []) }
        ensures rooms { IfOk result (λ disk. memory_rooms disk ≡ replicate slots bytes) }
        ensures calls { IfOk result (λ disk. memory_calls disk ≡ calls) }
        ensures failed { IfOk result (λ disk. memory_failures disk ≡ 0) }
        ensures reads { IfOk result (λ disk. memory_reads disk ≡ 0) }
        ensures settled { IfOk result (λ disk. Only (replicate slots []) (memory_may_leave disk)) }
    {
        let mut files = Vec::with_capacity(alloc, slots)?;
        for _ in 0..slots {
            files.push(SlotFile::new(alloc, bytes)?)?;
        }
        Ok(MemDisk::settled(files, calls))
    }

    /// A disk of these files, each of them synced.
    fn settled(slots: Vec<SlotFile>, calls: usize) -> MemDisk
        requires { AreAtRest slots.items }
        ensures files { result.slots ≡ slots }
        ensures calls { memory_calls result ≡ calls }
        ensures failed { memory_failures result ≡ 0 }
        ensures reads { memory_reads result ≡ 0 }
        ensures settled { Only (map held slots.items) (memory_may_leave result) }
    {
        let budget = Budget::new(&slots, calls);
        MemDisk {
            slots,
            budget,
            reads: 0,
            asked: CallTrace::new(),
        }
    }

    /// A disk after a crash, with one of the contents that a crash of this one may leave, all of them synced, and
    /// with the same room. `pick` is asked once for each slot's length, and then for the byte at each place of
    /// that slot that may hold any, from the first place on. This disk stays as it is, so other crashes can be tried.
    ///
    /// # Errors
    ///
    /// Out of memory where a growth was refused.
    pub fn crash<P: Pick>(&self, alloc: Global, pick: &mut P) -> Result<MemDisk, AllocError>
        ensures outcome { IfOk result (λ disk. memory_may_leave self.now (memory_files disk)) }
        // Each outcome is given where it is aimed at.
        ensures aimed { (c : List (List ℕ)) → P.aims pick.old c → memory_may_leave self.now c
            → IfOk result (λ disk. memory_files disk ≡ c) }
        ensures settled { IfOk result (λ disk. Only (memory_files disk) (memory_may_leave disk)) }
        ensures rooms { IfOk result (λ disk. memory_rooms disk ≡ memory_rooms self.now) }
        ensures calls { IfOk result (λ disk. memory_calls disk ≡ memory_calls self.now) }
        ensures failed { IfOk result (λ disk. memory_failures disk ≡ 0) }
        ensures reads { IfOk result (λ disk. memory_reads disk ≡ 0) }
    {
        let slots = &self.slots;
        let mut files = Vec::with_capacity(alloc, slots.len())?;
        for slot in 0..slots.len() {
            files.push(slots[slot].crash(alloc, slot, pick)?)?;
        }
        Ok(MemDisk::settled(files, self.budget.calls_left()))
    }

    /// The number of `read` calls so far, as far as 64 bits hold it.
    pub fn reads(&self) -> u64
        ensures { result ≡ memory_reads self.now }
    {
        self.reads
    }
}

impl Disk for MemDisk {
    ghost use Rattle.std.specs.Prelude.{◌↔◌, IsOk, OnErr, take, slice_range, slice_set};
    ghost use Rattle.sd_disk.specs.Contents.{file_at, file_after_write, Torn, Cut, AtSlot};
    ghost use Rattle.sd_disk.specs.Crash.{Follows, CoversSteps, Within, OnlyAt, Elapses};
    ghost use Rattle.sd_disk.specs.Memory.{memory_files, memory_calls, memory_failures, memory_called, memory_rooms};
    ghost use Rattle.sd_disk.specs.Memory.{memory_reads, memory_events, memory_may_leave, memory_moment};
    ghost use Rattle.sd_disk.specs.Memory.{memory_left_since, HasRoomForWrite, UsesCall, RefusesForRoom, CountsRead};
    ghost use Rattle.sd_disk.specs.Moments.{counts_now, only_now};
    ghost use Rattle.sd_disk.specs.Outcomes.{read_as, count_as};

    ghost contents = { memory_files };

    ghost may_leave = { memory_may_leave };

    ghost moment = { memory_moment };

    ghost left_since = { memory_left_since };

    ghost failed = { memory_failures };

    ghost calls = { memory_called };

    ghost is_honest = { λ _. Unit {0} };

    ghost as_read = { λ disk. read_as disk.budget.log.trace.outside (memory_events disk)
        (memory_files disk) disk.replayed disk.budget.log.as_read };

    ghost same_slots = { λ disk c left. count_as disk.budget.log.trace.outside (memory_events disk)
        (memory_files disk) c disk.replayed left };

    ghost counts_now = { λ disk t c since now. counts_now disk.budget.log.trace.outside
        (memory_events disk) t c since now };

    ghost only_now = { λ disk c left. only_now disk.budget.log.trace.outside (memory_events disk) c left };

    fn slots(&self) -> usize {
        self.slots.len()
    }

    fn failures(&self) -> u64 {
        self.budget.failures()
    }

    fn len(&mut self, slot: usize) -> Result<usize, DeviceError>
        requires { slot < length (memory_files self.old) }
        ensures length { result ≡ Ok (length (file_at (memory_files self.old) slot)) }
        ensures same { memory_files self.new ≡ memory_files self.old }
        ensures quiet { self.new.budget ≡ self.old.budget }
        ensures rooms { memory_rooms self.new ≡ memory_rooms self.old }
        ensures reads { memory_reads self.new ≡ memory_reads self.old }
        ensures counted { memory_called self.new ≡ memory_called self.old + 1 }
    {
        let len = self.slots[slot].len();
        self.asked.note(&Call::Measured { slot, len }, &[]);
        Ok(len)
    }

    fn read(&mut self, slot: usize, at: usize, buffer: &mut [u8]) -> Result<(), DeviceError>
        requires slot { slot < length (memory_files self.old) }
        ensures inside { IsOk result
            ↔ (at + length buffer.old ≤ length (file_at (memory_files self.old) slot)) }
        ensures bytes { OnOk result
            (buffer.new ≡ slice_range (file_at (memory_files self.old) slot) at
            (at + length buffer.old)) }
        ensures same { memory_files self.new ≡ memory_files self.old }
        ensures crash { Within (memory_may_leave self.new) (memory_may_leave self.old) }
        ensures reached { Within (memory_may_leave self.old) (memory_may_leave self.new) }
        ensures time { Elapses (memory_moment self.old) (memory_moment self.new)
            (memory_left_since self.old) (memory_left_since self.new) (memory_may_leave self.new) }
        ensures counted { memory_called self.new ≡ memory_called self.old + 1 }
        ensures read { CountsRead self.old self.new }
        ensures quiet { OnOk result (self.new.budget ≡ self.old.budget) }
        ensures refused { OnErr result (memory_failures self.new ≡ memory_failures self.old + 1) }
    {
        self.reads = self.reads.saturating_add(1);
        let file = &self.slots[slot];
        if !file.has_bytes(at, buffer.len()) {
            return Err(self.budget.refuse());
        }
        file.read(at, buffer);
        self.asked.note(&Call::Read { slot, at }, &[]);
        Ok(())
    }

    fn write_at(&mut self, slot: usize, at: usize, bytes: &[u8]) -> Result<(), DeviceError>
        requires slot { slot < length (memory_files self.old) }
        requires some { 0 < length bytes.now }
        ensures written { OnOk result (memory_files self.new
            ≡ slice_set (memory_files self.old) slot
            (file_after_write (file_at (memory_files self.old) slot) at bytes.now)) }
        ensures torn { AtSlot slot (Torn at (length bytes.now)) (memory_files self.old)
            (memory_files self.new) }
        ensures crash { Follows (AtSlot slot (Torn at (length bytes.now)))
            (memory_may_leave self.old) (memory_may_leave self.new) }
        ensures reached { OnOk result
            (CoversSteps (AtSlot slot (Torn at (length bytes.now))) (memory_may_leave self.old)
            (memory_may_leave self.new)) }
        ensures time { Elapses (memory_moment self.old) (memory_moment self.new)
            (memory_left_since self.old) (memory_left_since self.new) (memory_may_leave self.new) }
        ensures counted { memory_called self.new ≡ memory_called self.old + 1 }
        ensures done { OnOk result (UsesCall self.old self.new) }
        ensures refused { OnErr result (RefusesForRoom self.old self.new) }
        ensures room { IsOk result ↔ HasRoomForWrite self.old slot at (length bytes.now) }
    {
        let file = &mut self.slots[slot];
        let fits = file.has_room(at, bytes.len());
        self.budget.spend(&Call::Written { slot, at }, bytes, fits)?;
        file.write(at, bytes);
        Ok(())
    }

    fn cut(&mut self, slot: usize, len: usize) -> Result<(), DeviceError>
        requires slot { slot < length (memory_files self.old) }
        ensures cut { OnOk result (memory_files self.new
            ≡ slice_set (memory_files self.old) slot
            (take len (file_at (memory_files self.old) slot))) }
        ensures torn { AtSlot slot (Cut len) (memory_files self.old) (memory_files self.new) }
        ensures crash { Follows (AtSlot slot (Cut len)) (memory_may_leave self.old)
            (memory_may_leave self.new) }
        ensures reached { OnOk result
            (CoversSteps (AtSlot slot (Cut len)) (memory_may_leave self.old)
            (memory_may_leave self.new)) }
        ensures time { Elapses (memory_moment self.old) (memory_moment self.new)
            (memory_left_since self.old) (memory_left_since self.new) (memory_may_leave self.new) }
        ensures counted { memory_called self.new ≡ memory_called self.old + 1 }
        ensures done { OnOk result (UsesCall self.old self.new) }
        ensures refused { OnErr result (RefusesForRoom self.old self.new) }
        ensures room { IsOk result ↔ (0 < memory_calls self.old)
            × (len ≤ length (file_at (memory_files self.old) slot)) }
    {
        let file = &mut self.slots[slot];
        let fits = len <= file.len();
        self.budget.spend(&Call::Cut { slot, len }, &[], fits)?;
        file.cut(len);
        Ok(())
    }

    fn sync(&mut self, slot: usize) -> Result<(), DeviceError>
        requires { slot < length (memory_files self.old) }
        ensures durable { OnOk result
            (OnlyAt slot (file_at (memory_files self.old) slot) (memory_may_leave self.new)) }
        ensures same { memory_files self.new ≡ memory_files self.old }
        ensures crash { Within (memory_may_leave self.new) (memory_may_leave self.old) }
        // An outcome which has the slot as it reads is kept.
        ensures reached { (c : List (List ℕ)) → memory_may_leave self.old c
            → file_at c slot ≡ file_at (memory_files self.old) slot → memory_may_leave self.new c }
        ensures time { Elapses (memory_moment self.old) (memory_moment self.new)
            (memory_left_since self.old) (memory_left_since self.new) (memory_may_leave self.new) }
        ensures counted { memory_called self.new ≡ memory_called self.old + 1 }
        ensures done { OnOk result (UsesCall self.old self.new) }
        ensures refused { OnErr result (RefusesForRoom self.old self.new) }
        ensures room { IsOk result ↔ 0 < memory_calls self.old }
    {
        self.budget.spend(&Call::Synced { slot }, &[], true)?;
        self.slots[slot].sync();
        Ok(())
    }
}
