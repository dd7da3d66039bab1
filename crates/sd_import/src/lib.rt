//! The memory of an ELF core file as the memory of a space.
#![tactic(auto)]

mod checking;
mod import_error;
mod importing;
mod requests;
mod saving;
mod tally;

pub use import_error::ImportError;
pub use importing::import_core;
pub use saving::saved_next;
pub use tally::Tally;
