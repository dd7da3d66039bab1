//! A core over a disk: whatever events are run, and wherever a crash comes, the disk holds what one freeze of the
//! journal says.
#![tactic(auto)]

mod auditing;
mod call_state;
mod event;
mod jobs;
mod kept;
mod laws;
mod looking;
mod open_error;
mod open_fault;
mod opening;
mod passed;
mod restoring;
mod start_error;
mod starting;
mod stepping;
mod watch;
mod world;

pub use auditing::audit;
pub use call_state::CallState;
pub use event::Event;
pub use open_error::OpenError;
pub use open_fault::OpenFault;
pub use passed::{PassEnd, Passed};
pub use restoring::restore_left;
pub use start_error::{StartError, StartFault};
pub use watch::{Unwatched, Watch};
pub use world::World;
