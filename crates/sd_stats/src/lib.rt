//! What a run does on its device: of each image, checkpoint and merge how many pages, bytes and device calls it took,
//! and how long. It is seen in the calls alone, so that a run doesn't depend on it.
#![tactic(auto)]

mod lines;
mod making;
mod meter;
mod metered;
mod record;
mod table;

pub use lines::print_record;
pub use meter::Meter;
pub use metered::{Metered, Metering};
pub use record::{CheckpointRecord, ImageRecord, MergeRecord, Record};
pub use table::print_table;
