//! A disk whose calls are logged.

use log::{Log, debug};
use sd_disk::{FileCall, Observed, Observer};

/// A disk whose calls are logged, each after its end.
pub type Logging<'a, L, D> = Observed<CallLogger<'a, L>, D>;

/// Logs each call on a disk.
#[derive(Drop)]
pub struct CallLogger<'a, L> {
    pub log: &'a L,
}

impl<L: Log> Observer for CallLogger<'_, L> {
    fn made(&mut self, slot: usize, call: FileCall<'_>, is_done: bool) {
        let ending = if is_done { "done" } else { "failed" };
        debug!(self.log; target: "ckpt", "img-{slot:03}: {call}: {ending}");
    }
}
