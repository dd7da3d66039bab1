//! Requests of the merger's plans.
ghost use Rattle.std.specs.Prelude.{◌≡◌, IsSome, IfOk, IfErr};
ghost use Rattle.sd_gate.specs.declared.worker.Worker.TheVariants.{Merger};
ghost use Rattle.sd_gate.specs.Plans.{Gives};
ghost use Rattle.sd_gate.specs.PlanUse.{IsAskedBy, IsUnderWay};
ghost use Rattle.sd_merge.specs.PlanSteps.{IsCallOf};

use crate::merge_step::MergeStep;
use crate::work_error::WorkError;
use sd_gate::{Plan, Worker, next_request};

/// Asks for the next call of a plan.
pub(crate) fn next_call(plan: &mut Plan, ticket: u64) -> Result<MergeStep, WorkError>
    requires { IsUnderWay plan.old }
    ensures asked { IfOk result
        (IsCallOf (λ request. Gives plan.old plan.new request × IsAskedBy Merger ticket request)) }
    ensures busy { IfErr result
        (λ e. (e ≡ WorkError.Busy) × IsSome plan.old.out × (plan.new ≡ plan.old)) }
{
    match next_request(plan, Worker::Merger, ticket) {
        Some(request) => Ok(MergeStep::Call(request)),
        None => Err(WorkError::Busy),
    }
}
