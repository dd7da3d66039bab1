//! A disk whose calls are seen by a meter.

use crate::meter::Meter;
use sd_disk::{FileCall, Observed, Observer};
use std::cell::RefCell;
use std::time::{Clock, Duration};

/// A disk whose calls are seen by a meter.
pub type Metered<'a, R, D> = Observed<Metering<'a, R>, D>;

/// Reports each call to a meter, by a clock. Those that fail are counted alone.
#[derive(Drop)]
pub struct Metering<'a, R> {
    clock: &'a R,
    meter: &'a RefCell<Option<Meter>>,
}

impl<'a, R: Clock> Metering<'a, R> {
    /// A meter, if there is one, sees the calls of a disk from now on.
    pub fn new(clock: &'a R, meter: &'a RefCell<Option<Meter>>) -> Self {
        Metering { clock, meter }
    }

    /// What a clock says, or nothing where it fails.
    fn now(&self) -> Duration {
        self.clock.monotonic().unwrap_or(Duration::ZERO)
    }
}

/// Reports a call that was done to a meter.
fn tell(meter: &mut Meter, slot: usize, call: FileCall<'_>, now: Duration) {
    match call {
        FileCall::Len => meter.called(),
        FileCall::Read { at, bytes } => meter.read(slot, at, bytes),
        FileCall::Write { at, bytes } => meter.wrote(slot, at, bytes, now),
        FileCall::Cut { .. } => meter.cut(slot, now),
        FileCall::Sync => meter.synced(slot, now),
    }
}

impl<R: Clock> Observer for Metering<'_, R> {
    fn made(&mut self, slot: usize, call: FileCall<'_>, is_done: bool) {
        if let Ok(mut found) = self.meter.try_borrow_mut()
            && let Some(meter) = found.as_mut()
        {
            if is_done {
                tell(meter, slot, call, self.now());
            } else {
                meter.called();
            }
        }
    }
}
