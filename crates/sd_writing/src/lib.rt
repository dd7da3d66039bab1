//! What the dumper and the merger share: the entries of an image in the making, its table and its digest.
#![tactic(auto)]

mod digests;
mod ending;
mod entries;
mod laws;
mod new_image;
mod next_image;
mod written;

pub use digests::digest_page;
pub use ending::{Ending, ImageNumbers, end_file};
pub use entries::push_entry;
pub use laws::entries_law;
pub use new_image::NewImage;
pub use next_image::NextImage;
pub use written::Written;
