//! The core of a checkpointer: the state behind one lock. It owns no disk; it hands out requests for device calls and
//! takes their outcomes.
#![tactic(auto)]

mod answering;
mod base;
mod beginning;
mod dumping;
mod following;
mod lanes;
mod laws;
mod merging;
mod next_laws;
mod numbers;
mod opening;
mod start;
mod state;
mod taken;
mod trimming;

pub use lanes::LANES;
pub use start::Start;
pub use state::Core;
pub use taken::Taken;
