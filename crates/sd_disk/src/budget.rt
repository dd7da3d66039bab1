//! How many more calls a disk in memory has room for.
ghost use Rattle.std.specs.Prelude.{◌≡◌, ◌+◌, ◌-◌, ◌^◌, ◌<◌, ◌↔◌, false, [], ◌∷◌, length, map, min, IsOk, IsTrue, OnOk};
ghost use Rattle.std.specs.Prelude.{OnErr};
ghost use Rattle.sd_disk.specs.declared.call.Call.TheVariants.{Failed};
ghost use Rattle.sd_disk.specs.Events.{Outside};

use crate::call::Call;
use crate::call_log::CallLog;
use crate::error::DeviceError;
use crate::slot_file::SlotFile;

#[derive(Drop)]
pub(crate) struct Budget {
    calls_left: usize,
    log: CallLog,
}

impl Budget {
    ghost use Rattle.sd_disk.specs.Events.{failures_in, is_failure};
    ghost use Rattle.sd_disk.specs.Outcomes.{AreSettled};
    ghost use Rattle.sd_disk.specs.Slots.{held};

    /// Of a disk with these slots, each of them synced.
    pub(crate) fn new(slots: &[SlotFile], calls: usize) -> Budget
        ghost outside: { Outside }
        requires { outside.found ≡ map held slots.now }
        ensures calls { result.calls_left ≡ calls }
        ensures settled { AreSettled (map held slots.now)
            (length slots.now) result.log.trace.outside result.log.trace.events }
    {
        let mut log = CallLog::new();
        for slot in 0..slots.len() {
            log.note(&Call::Synced { slot }, &[]);
        }
        Budget {
            calls_left: calls,
            log,
        }
    }

    pub(crate) fn failures(&self) -> u64
        ensures { result ≡ min (failures_in self.now.log.trace.events) (2 ^ 64 - 1) }
    {
        self.log.failures()
    }

    /// How many more calls there is room for.
    pub(crate) fn calls_left(&self) -> usize
        ensures { result ≡ self.now.calls_left }
    {
        self.calls_left
    }

    /// Spends and notes a call that fits its slot, or counts a failure.
    pub(crate) fn spend(&mut self, call: &Call, bytes: &[u8], fits: bool) -> Result<(), DeviceError>
        requires { is_failure call.now ≡ false }
        ensures room { IsOk result ↔ (0 < self.old.calls_left) × IsTrue fits }
        ensures outside { self.new.log.trace.outside ≡ self.old.log.trace.outside }

        ensures spent { OnOk result (self.old.calls_left ≡ self.new.calls_left + 1) }
        ensures noted { OnOk result (self.new.log.trace.events
            ≡ (call.now, bytes.now) ∷ self.old.log.trace.events) }

        ensures unspent { OnErr result (self.new.calls_left ≡ self.old.calls_left) }
        ensures failure { OnErr result (self.new.log.trace.events
            ≡ (Failed, []) ∷ self.old.log.trace.events) }
    {
        if self.calls_left == 0 || !fits {
            return Err(self.refuse());
        }
        self.calls_left -= 1;
        self.log.note(call, bytes);
        Ok(())
    }

    /// Counts a call that can't be made as a failure.
    pub(crate) fn refuse(&mut self) -> DeviceError
        ensures outside { self.new.log.trace.outside ≡ self.old.log.trace.outside }
        ensures unspent { self.new.calls_left ≡ self.old.calls_left }
        ensures failure { self.new.log.trace.events ≡ (Failed, []) ∷ self.old.log.trace.events }
    {
        self.log.note(&Call::Failed, &[]);
        DeviceError
    }
}
