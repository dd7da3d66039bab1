//! Core files of a program: `export`, which writes the memory that a store shows, and the cores that an import reads.
#![tactic(auto)]

mod core_line;
mod cores;
mod export;
mod parts;

pub use core_line::ShownCore;
pub use cores::{Source, end_after, open_cores, unread};
pub use export::{ExportAsked, export_program};
