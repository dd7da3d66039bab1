//! Which slots of a store are taken, and which images a merge closes.
#![tactic(auto)]

mod list_room;
mod marks;
mod taken;

pub use list_room::ListRoom;
pub use taken::{free_in, free_law};
