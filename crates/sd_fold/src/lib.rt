//! The memory that a run goes on from, taken forward by the entries of its journal: in place, or as a replay.
#![tactic(auto)]

mod added;
mod changes;
mod copying;
mod effective;
mod effects;
mod folding;
mod overlay;
mod replaying;
mod room;
mod settling;

pub use folding::fold;
pub use replaying::replay;
