//! The program `receive`: a stream of `send`, taken into a store.
#![tactic(auto)]

mod attaching;
mod leftovers;
mod programs;
mod receiving;

pub use attaching::begin;
pub use programs::{receive_program, tip_program};
pub use receiving::receive;
