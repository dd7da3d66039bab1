//! The dumper: pre-dumps while the memory changes, the freeze, and the dump.
#![tactic(auto)]

mod checkpoint;
mod copied;
mod dumper;
mod image_maker;
mod image_order;
mod image_step;
mod lanes;
mod laws;
mod left;
mod page_buffers;
mod page_copy;
mod pass_step;
mod progress;
mod round;
mod stage;
mod standing;
mod tables;
mod visit;
mod work_error;

pub use copied::Copied;
pub use dumper::Dumper;
pub use image_step::ImageStep;
pub use lanes::LANES;
pub use laws::{
    dump_law, file_law, image_visits_law, keeps_law, left_law, little_law, made_law, making_law,
    rises_law, step_law, visits_law,
};
pub use page_buffers::PageBuffers;
pub use pass_step::PassStep;
pub use progress::Progress;
pub use round::Round;
pub use standing::Standing;
pub use visit::Visit;
pub use work_error::WorkError;
