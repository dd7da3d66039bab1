//! The program `shell`: requests from the standard input, one by one, over a store.
#![tactic(auto)]

mod asking;
mod bulk;
mod explained;
mod requests;
mod shell;
mod waiting;

pub use shell::shell_program;
