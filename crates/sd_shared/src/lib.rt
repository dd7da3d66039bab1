//! A core and its disk behind two locks: threads store, workers make device calls, and afterwards the journal proves to
//! each what it was answered.
#![tactic(auto)]

mod booked;
mod crew;
mod driving;
mod hands;
mod hold;
mod job;
mod jobs;
mod next;
mod ordering;
mod owed_call;
mod relayed_dump;
mod reports;
mod running;
mod seat;
mod shared;
mod thaw;
mod turning;
mod waits_ended;
mod waking;

pub use hold::Hold;
pub use seat::Seat;
pub use shared::Shared;
pub use thaw::Thaw;
pub use waits_ended::WaitsEnded;
