//! The opener: reads a store again, slot by slot, a device call at a time.
#![tactic(auto)]

mod open_error;
mod opened;
mod opener;
mod opener_progress;
mod opener_step;
mod slot_end;
mod stage;

pub use open_error::OpenError;
pub use opened::Opened;
pub use opener::Opener;
pub use opener_progress::OpenerProgress;
pub use opener_step::OpenerStep;
pub use stage::Stage;
