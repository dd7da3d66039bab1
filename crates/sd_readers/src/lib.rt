//! What a store has, printed: its memory, its images, and whether it can be restored.
#![tactic(auto)]

mod at;
mod held;
mod list;
mod listing;
mod page_text;
mod restore;
mod steady;
mod verify;

pub use at::{ReaderAt, print_at, print_verdict};
pub use held::print_held;
pub use list::list_to;
pub use restore::restore_to;
pub use steady::{Front, Reader, fronts};
pub use verify::verify_to;
