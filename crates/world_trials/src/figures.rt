//! What trials found, counted.
ghost use Rattle.std.specs.Prelude.{◌≡◌, ◌↔◌, IsTrue};

use crate::account::Pair;
use sd_command::{Refusal, Reply};
use sd_world::Event;

/// How many lists of events were run, and what their crashes left.
#[derive(Clone, Copy, Debug, Default)]
pub struct Figures {
    /// Lists of events, each with the runs that follow what its crashes left.
    pub lists: u64,
    /// Runs over a store.
    pub runs: u64,
    /// Events of all kinds.
    pub events: u64,
    /// Events of workers by which a device call was made.
    pub calls: u64,
    /// Checkpoints that were acknowledged.
    pub acked: u64,
    /// Checkpoints that were cancelled.
    pub cancelled: u64,
    /// Stores that were opened again.
    pub reopened: u64,
    /// Device calls that failed.
    pub failed: u64,
    /// Crashes after a device call.
    pub crashes: u64,
    /// Crashes that left the last checkpoint.
    pub last: u64,
    /// Crashes that left the pending checkpoint.
    pub pending: u64,
    /// Crashes that left an empty chain where nothing was saved.
    pub nothing: u64,
    /// Crashes that left anything else.
    pub wrong: u64,
    /// Replies that no run may give.
    pub strange: u64,
}

impl Figures {
    /// Counts an event.
    pub(crate) fn event(&mut self, event: &Event, reply: &Reply, fits: bool) {
        add(&mut self.events, true);
        add(&mut self.calls, is_call(event, reply));
        add(&mut self.acked, matches!(reply, Reply::Acked(_)));
        add(&mut self.cancelled, matches!(reply, Reply::Cancelled(_)));
        add(&mut self.reopened, matches!(reply, Reply::Reopened(_)));
        add(
            &mut self.failed,
            matches!(reply, Reply::Refused(Refusal::Device)),
        );
        add(&mut self.strange, !fits);
    }

    /// Counts a crash, by the pair that the store shows then.
    pub(crate) fn crash(&mut self, pair: Pair) {
        add(&mut self.crashes, true);
        add(&mut self.last, matches!(pair, Pair::Last));
        add(&mut self.pending, matches!(pair, Pair::Pending));
        add(&mut self.nothing, matches!(pair, Pair::Nothing));
        add(&mut self.wrong, matches!(pair, Pair::Other));
    }

    /// Counts a run.
    pub(crate) fn run(&mut self) {
        add(&mut self.runs, true);
    }

    /// Counts a reply that no run may give, if it is one.
    pub(crate) fn reply(&mut self, fits: bool) {
        add(&mut self.strange, !fits);
    }

    /// Whether each crash left what it may, and each reply may be given.
    pub fn is_right(&self) -> bool
        ensures { IsTrue result ↔ (self.now.wrong ≡ 0) × (self.now.strange ≡ 0) }
    {
        self.wrong == 0 && self.strange == 0
    }
}

/// Whether a device call was made.
pub(crate) fn is_call(event: &Event, reply: &Reply) -> bool {
    matches!(event, Event::Perform(_) | Event::PerformAt(..))
        && matches!(reply, Reply::Worked | Reply::Refused(Refusal::Device))
}

fn add(count: &mut u64, is: bool) {
    *count = count.saturating_add(u64::from(is));
}
