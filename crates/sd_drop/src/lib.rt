//! Closing one image of a store that the newest checkpoint doesn't need.
#![tactic(auto)]

mod checking;
mod closing;
mod drop_error;
mod dropping;
mod others;
mod reached;

pub use drop_error::DropError;
pub use dropping::{check_drop, drop_image};
pub use reached::is_reached;
