//! Images that arrive from elsewhere, put into the slots of a store.
#![tactic(auto)]

mod arrived;
mod arriving;
mod closing;
mod copying;
mod mapped;
mod merging;
mod pages;
mod plans;
mod receive_error;
mod receiver;
mod room;
mod settling;
mod slots;
mod spelling;
mod taking;

pub use arriving::{format, open_gate, put_page};
pub use receive_error::ReceiveError;
pub use receiver::{Received, Receiver};
pub use settling::settle;
