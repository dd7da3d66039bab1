//! Calls of a seat on a shared core.
mod calls;
mod place;

use crate::ended::Ended;
use calls::{make_calls, make_steps};
use sd_command::Refusal;
use std::alloc::Global;
use std::sync::Wait;

/// How a case ended that makes so many of these.
fn ended(count: u64, things: &'static str, made: Result<(), Refusal>) -> Ended {
    match made {
        Ok(()) => Ended::Counted(count, things),
        Err(why) => Ended::Failed(why.name()),
    }
}

/// Makes as many calls of a seat, or events of a world, as a word names, and says how it ended.
pub(crate) fn counted(rt: &impl Wait, alloc: Global, word: &str, count: Option<u64>) -> Ended {
    match count {
        Some(count) if word == "calls" => ended(count, "calls", make_calls(rt, alloc, count)),
        Some(count) if word == "steps" => ended(count, "steps", make_steps(alloc, count)),
        _ => Ended::Unnamed,
    }
}
