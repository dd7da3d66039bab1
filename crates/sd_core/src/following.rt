//! What an outcome that is handed in changes at once.
ghost use Rattle.std.specs.Prelude.{◌≡◌, ◌<◌, None, length, slice_set};
ghost use Rattle.sd_core.specs.Following.{FollowsOutcome};

use crate::dumping::closes_for_sure;
use crate::lanes::{LANES, put_out};
use crate::opening::follow_call;
use sd_gate::{Outcome, Phase, RequestId};

/// The request of an outcome, and whether it closes its slot for sure.
#[derive(Clone, Copy)]
pub(crate) struct Followed {
    pub(crate) id: RequestId,
    pub(crate) closed: bool,
}

/// Nothing is out any more in the lane of an outcome, and its slot is in the phase that follows its call.
pub(crate) fn follow_outcome(
    phases: &mut Vec<Phase>,
    outs: &mut [Option<RequestId>; LANES],
    lane: usize,
    outcome: &Outcome,
) -> Followed
    requires slot { outcome.now.request.id.slot < length phases.old.items }
    requires lane { lane < 11 }
    ensures id { result.id ≡ outcome.now.request.id }
    ensures follows { FollowsOutcome phases.old.items outcome.now phases.new.items result.closed }
    ensures outs { outs.new ≡ slice_set outs.old lane None }
{
    let id = outcome.id();
    let closed = closes_for_sure(phases[id.slot], id.call);
    follow_call(phases, &id, outcome.answer().is_done());
    put_out(outs, lane, None);
    Followed { id, closed }
}
