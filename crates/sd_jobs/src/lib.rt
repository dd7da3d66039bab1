//! The programs that run over a store, and are watched: `run`, `merge` and `import`.
#![tactic(auto)]

mod import;
mod merge;
mod run;

pub use import::{ImportAsked, import_program};
pub use merge::merge_program;
pub use run::{RunAsked, check_program, run_program};
