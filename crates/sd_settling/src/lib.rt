//! The receipts of a core: a command is made and its seat answered so, and at the end the journal is compared with all
//! that was said.
#![tactic(auto)]

mod making;
mod settling;

pub use making::make;
pub use settling::settle;
