//! What watches a run over a store: a line of progress on a terminal, the counts of its images, checkpoints and merges,
//! and the requests that are refused. The store is opened with it, and left.
#![tactic(auto)]

mod counting;
mod counts;
mod course;
mod progress;
mod session;
mod wanted;
mod watching;

pub use counts::CountsAsked;
pub use course::{Course, Failure, line_of};
pub use session::{CountedDisk, Session};
pub use wanted::slots_for;
pub use watching::Watching;
