//! Running a script over a store: a world, driven by the lines of the script.
#![tactic(auto)]

mod bulk;
mod ending;
mod lines;
mod merging;
mod page_words;
mod printing;
mod rule;
mod running;
mod watching;

pub use bulk::{Halt, Place, get_bytes, put_bytes};
pub use ending::{unfit, unopened};
pub use lines::run_line;
pub use merging::merge_to;
pub use rule::{Rule, is_failure};
pub use running::{FRAMES, run_lines, run_script};
pub use sd_world::{Unwatched, Watch};
pub use watching::RunWatch;
