//! The merger: the chain of images that a tip reaches becomes one image, step by step.
#![tactic(auto)]

mod closing;
mod copier;
mod copies;
mod copy_order;
mod gathered;
mod job;
mod laws;
mod merge;
mod merge_progress;
mod merge_step;
mod merger;
mod plans;
mod retired;
mod source;
mod stage;
mod work_error;

pub use laws::{left_law, merge_law, merged_file_law};
pub use merge_progress::MergeProgress;
pub use merge_step::MergeStep;
pub use merger::Merger;
pub use retired::Retired;
pub use source::Source;
pub use work_error::WorkError;
