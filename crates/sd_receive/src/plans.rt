//! The calls of a plan, made one after the other.
ghost use Rattle.std.specs.Prelude.{◌≡◌, ◌≢◌, ℕ, ◌<◌, None, length};
ghost use Rattle.sd_disk.specs.Contents.{file_at};
ghost use Rattle.sd_disk.specs.Failures.{HasCause};
ghost use Rattle.sd_gate.specs.PlanUse.{IsUnderWay};
ghost use Rattle.sd_receive.specs.PlanRuns.{RunsCalls};

use sd_disk::{DeviceError, Disk};
use sd_gate::{Plan, Settled, Worker, ask, perform, settle};

/// Makes the calls of a plan that changes its slot, one after the other, until the last is made or one fails.
pub(crate) fn run<D: Disk>(disk: &mut D, mut plan: Plan) -> Result<Plan, DeviceError>
    requires under_way { IsUnderWay plan }
    requires begins { plan.out ≡ None }
    requires slot { plan.slot < length (D.contents disk.old) }
    ensures runs { RunsCalls D.Disk plan.slot plan.calls disk.old disk.new result }
    ensures others { (other : ℕ) → other ≢ plan.slot
        → file_at (D.contents disk.new) other ≡ file_at (D.contents disk.old) other }
    ensures count { length (D.contents disk.new) ≡ length (D.contents disk.old) }
    ensures honest { D.is_honest disk.new → D.is_honest disk.old }
    ensures cause { HasCause (D.failed disk.old) (D.failed disk.new) result }
{
    loop {
        let request = ask(&mut plan, Worker::Dumper, 0);
        let outcome = perform(disk, request);
        match settle(&mut plan, outcome) {
            Settled::More => {}
            Settled::Finished => return Ok(plan),
            Settled::Failed | Settled::Strange => return Err(DeviceError),
        }
    }
}
