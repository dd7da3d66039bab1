//! Requests that are out, each in a lane of its own.
ghost use Rattle.std.specs.Prelude.{◌≡◌, ◌↔◌, ◌<◌, Some, IfSome, IsTrue, slice_get, MatchOption};
ghost use Rattle.sd_gate.specs.Lanes.{IsInLane, is_any_out};

use crate::request_id::RequestId;

/// Whether the request in a lane has this id.
fn is_this(out: &Option<RequestId>, id: &RequestId) -> bool
    ensures { IsTrue result ↔ out.now ≡ Some id.now }
{
    *out == Some(*id)
}

/// The lane in which the request with this id is out. None if it is out in none.
pub fn lane_of<const N: usize>(outs: &[Option<RequestId>; N], id: &RequestId) -> Option<usize>
    ensures found { MatchOption result (IsInLane outs.now id.now → ⊥)
        (λ lane. slice_get outs.now lane ≡ Some (Some id.now)) }
    ensures within { IfSome result (λ lane. lane < N) }
{
    for (lane, out) in outs.iter().enumerate() {
        if is_this(out, id) {
            return Some(lane);
        }
    }
    None
}

/// Whether a request is out in some lane.
pub fn is_any_out<const N: usize>(outs: &[Option<RequestId>; N]) -> bool
    ensures { result ≡ is_any_out outs.now }
{
    outs.iter().any(|out| out.is_some())
}
