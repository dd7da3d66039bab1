//! The lanes of the writes of data pages that are out: each has one of its own.
ghost use Rattle.std.specs.Prelude.{◌≡◌, ◌<◌, None, Some, true, IfSome, slice_get, MatchOption};
ghost use Rattle.sd_rounds.specs.Writes.{are_all_out, writes_out};

use sd_gate::RequestId;

/// How many writes of data pages may be out at once.
pub const LANES: usize = 8;

/// A lane in which no write is out.
pub(crate) fn free_lane(writes: &[Option<RequestId>; LANES]) -> Option<usize>
    ensures free { MatchOption result (are_all_out writes.now ≡ true)
        (λ lane. slice_get writes.now lane ≡ Some None) }
    ensures within { IfSome result (λ lane. lane < 8) }
{
    for (lane, write) in writes.iter().enumerate() {
        if write.is_none() {
            return Some(lane);
        }
    }
    None
}

/// How many writes are out.
pub(crate) fn writes_out(writes: &[Option<RequestId>; LANES]) -> usize
    ensures { result ≡ writes_out writes.now }
{
    writes.iter().filter(|write| write.is_some()).count()
}
