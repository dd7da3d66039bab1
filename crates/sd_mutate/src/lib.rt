//! Threads that store into a memory while checkpoints of it are made, and a merger runs beside one of them.
#![tactic(auto)]

mod fault;
mod mutating;
mod mutator;
mod saving;
mod tally;

pub use fault::MutateFault;
pub use mutating::mutate;
pub use tally::Tally;
