//! What a program prints to, why it ends early, and with which exit status.
#![tactic(auto)]

mod ending;
mod output;
mod stop;
mod taken;
mod trace;

pub use ending::{exit, exit_with_fault};
pub use output::Output;
pub use stop::Stop;
pub use taken::Taken;
