//! A worker's way with a plan that only changes its slot.
ghost use Rattle.std.specs.Prelude.{◌≡◌, ◌<◌, ◌^◌, None, Some, IsSome, MatchOption};
ghost use Rattle.sd_gate.specs.Plans.{Gives};
ghost use Rattle.sd_gate.specs.PlanUse.{IsAskedBy, IsUnderWay, Settles, plan_left};

use crate::outcome::Outcome;
use crate::plan::Plan;
use crate::request::Request;
use crate::settled::Settled;
use crate::worker::Worker;

/// The next request of a plan that reads nothing, and so takes no memory. None where one is out. What the disk answers
/// to the request goes to [`settle`].
pub fn next_request(plan: &mut Plan, worker: Worker, ticket: u64) -> Option<Request>
    requires { IsUnderWay plan.old }
    ensures next { MatchOption result ((plan.new ≡ plan.old) × IsSome plan.old.out)
        (λ request. Gives plan.old plan.new request × IsAskedBy worker ticket request) }
{
    match plan.take(worker, ticket) {
        Ok(request) => request,
        Err(_) => unreachable!(),
    }
}

/// The next request of a plan of which none is out, as [`next_request`] gives it.
pub fn ask(plan: &mut Plan, worker: Worker, ticket: u64) -> Request
    requires under_way { IsUnderWay plan.old }
    requires begins { plan.old.out ≡ None }
    ensures gives { Gives plan.old plan.new result }
    ensures asked { IsAskedBy worker ticket result }
{
    match next_request(plan, worker, ticket) {
        Some(request) => request,
        None => unreachable!(),
    }
}

/// How many calls of [`next_request`] and [`settle`] a plan has before it, if each request succeeds.
pub fn plan_left(plan: &Plan) -> u128
    requires { IsUnderWay plan.now }
    ensures left { result ≡ plan_left plan.now }
    ensures few { result < 2 ^ 64 }
{
    plan.left() as u128
}

/// Takes the outcome of the request of a plan that is out. After `More` the plan goes on with [`next_request`]; after
/// `Finished` each of its calls was done; after `Failed` the device refused one, and the plan is dropped.
pub fn settle(plan: &mut Plan, outcome: Outcome) -> Settled
    requires under_way { IsUnderWay plan.old }
    requires out { plan.old.out ≡ Some outcome.request.id }
    ensures { Settles plan.old outcome result plan.new }
{
    plan.settle(outcome)
}
