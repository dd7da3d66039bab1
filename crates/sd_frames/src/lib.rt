//! Counted frames from a pool, each with the bytes of a page.
#![tactic(auto)]

mod frame;
mod frame_cell;
mod frames;
mod spare_frames;

pub use frame::Frame;
pub use frames::Frames;
