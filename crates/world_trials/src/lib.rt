//! Runs of a world that are written down, and made again up to each of their device calls, where a crash comes: what is
//! restored is compared with what the replies allow.
#![tactic(auto)]

mod account;
mod by_chance;
mod chance;
mod course;
mod figures;
mod lab;
mod lines;
mod plain;
mod record;
mod rule;
mod trouble;

pub use by_chance::try_by_chance;
pub use figures::Figures;
pub use lab::Failing;
pub use lines::{Line, store_of, try_lines};
pub use trouble::Trouble;
