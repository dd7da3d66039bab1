//! What `/proc` shows of a memory: `clear_refs`, `pagemap`, and the list of a space's areas.
#![tactic(auto)]

mod area_lines;
mod clear_error;
mod clearing;
mod no_such_space;
mod words;

pub use area_lines::{areas_text, listing};
pub use clear_error::ClearError;
pub use clearing::clear_refs;
pub use no_such_space::NoSuchSpace;
pub use words::pagemap;
