//! A device's record, with its failures counted.
ghost use Rattle.std.specs.Prelude.{◌≡◌, ◌-◌, ◌^◌, ◌∷◌, [], min};
ghost use Rattle.sd_disk.specs.Events.{Outside, failures_in, files_after};
ghost use Rattle.sd_disk.specs.Outcomes.{MayLeave};

use crate::call::Call;
use crate::call_trace::CallTrace;

#[derive(Drop)]
pub(crate) struct CallLog {
    trace: CallTrace,
    failures: u64,
    ghost counted: { failures ≡ min (failures_in trace.events) (2 ^ 64 - 1) },
    ghost as_read: { MayLeave trace.outside trace.events (files_after trace.outside trace.events) },
}

impl CallLog {
    pub(crate) fn new() -> CallLog
        ghost outside: { Outside }
        ensures outside { result.trace.outside ≡ outside }
        ensures empty { result.trace.events ≡ [] }
    {
        CallLog {
            trace: CallTrace::new(),
            failures: 0,
        }
    }

    /// The number of failed calls, as far as 64 bits hold it.
    pub(crate) fn failures(&self) -> u64
        ensures { result ≡ min (failures_in self.now.trace.events) (2 ^ 64 - 1) }
    {
        self.failures
    }

    pub(crate) fn note(&mut self, call: &Call, bytes: &[u8])
        ensures outside { self.new.trace.outside ≡ self.old.trace.outside }
        ensures events { self.new.trace.events ≡ (call.now, bytes.now) ∷ self.old.trace.events }
    {
        if call.is_failure() {
            self.failures = self.failures.saturating_add(1);
        }
        self.trace.note(call, bytes);
    }
}
