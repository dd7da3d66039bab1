//! What is asked of a memory and how it replies: commands, replies, and the refusals with their numbers.
#![tactic(auto)]

mod apply;
mod bytes;
mod command;
mod laws;
mod refusal;
mod reply;

pub use apply::apply_to;
pub use bytes::Bytes;
pub use command::Command;
pub use laws::effect_law;
pub use refusal::Refusal;
pub use reply::Reply;
