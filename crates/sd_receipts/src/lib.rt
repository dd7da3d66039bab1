//! Whether a journal accounts for what the seats and the worker were answered.
#![tactic(auto)]

mod checking;
mod folded;
mod laws;
mod rising;

pub use checking::check_receipts;
pub use folded::Folded;
pub use laws::fault_laws;
pub use sd_journal::{CloseFault, Receipt};
