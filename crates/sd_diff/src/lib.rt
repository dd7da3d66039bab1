//! What differs between the memories of a store at two checkpoints.
#![tactic(auto)]

mod comparing;
mod diff_fault;
mod difference;
mod page_pair;
mod part;
mod spaces;
mod text;

pub use comparing::diff;
pub use diff_fault::DiffFault;
pub use difference::{AreaChange, Difference, PageRun};
pub use text::{difference_json, difference_text};
