//! The requests that are out, each in a lane of its own: those of the three workers, and the writes of data pages.
ghost use Rattle.std.specs.Prelude.{◌≡◌, ◌<◌, ◌↔◌, None, Some, IsTrue, slice_get, slice_set};
ghost use Rattle.sd_crash_safety.specs.View.{index, page_lane};
ghost use Rattle.sd_core.specs.Refusals.{are_resting, is_page_out, is_resting};

use sd_gate::{RequestId, Worker, is_any_out};

/// How many requests may be out at once: one of each worker, and the writes of data pages.
pub const LANES: usize = 3 + sd_rounds::LANES;

/// The lanes of the three workers.
pub(crate) const DUMPER: usize = 0;

pub(crate) const MERGER: usize = 1;

pub(crate) const OPENER: usize = 2;

/// The lane of a worker.
fn lane_of_worker(worker: Worker) -> usize
    ensures lane { result ≡ index worker }
    ensures within { result < 3 }
{
    match worker {
        Worker::Dumper => DUMPER,
        Worker::Merger => MERGER,
        Worker::Opener => OPENER,
    }
}

/// The lane of a write of a data page, after those of the workers.
pub(crate) fn page_lane(lane: usize) -> usize
    requires { lane < 8 }
    ensures lane { result ≡ page_lane lane }
    ensures within { result < 11 }
{
    3 + lane
}

/// Notes which request is out in a lane.
pub(crate) fn put_out(outs: &mut [Option<RequestId>; LANES], lane: usize, id: Option<RequestId>)
    requires { lane < 11 }
    ensures { outs.new ≡ slice_set outs.old lane id }
{
    outs[lane] = id;
}

/// Whether a worker has no request out, but for writes of data pages.
pub(crate) fn is_resting(outs: &[Option<RequestId>; LANES], worker: Worker) -> bool
    ensures none { IsTrue result ↔ slice_get outs.now (index worker) ≡ Some None }
    ensures is { result ≡ is_resting outs.now worker }
{
    outs[lane_of_worker(worker)].is_none()
}

/// Whether the write of a data page is out.
pub(crate) fn is_page_out(outs: &[Option<RequestId>; LANES]) -> bool
    ensures { result ≡ is_page_out outs.now }
{
    outs.iter().skip(3).any(|out| out.is_some())
}

/// Whether no request is out.
pub(crate) fn is_nobody_out(outs: &[Option<RequestId>; LANES]) -> bool
    ensures { result ≡ are_resting outs.now }
{
    !is_any_out(outs)
}
