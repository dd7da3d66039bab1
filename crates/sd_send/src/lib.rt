//! The program `send`: the images of a store, led as a stream to a receiver.
#![tactic(auto)]

mod base;
mod follow;
mod followed;
mod images;
mod send;
mod send_error;
mod sender;
mod sending;
mod sent;

pub use base::memory_digest;
pub use send::{SendAsked, send_program};
pub use send_error::SendError;
pub use sender::Sender;
pub use sending::send_to;
pub use sent::Sent;
