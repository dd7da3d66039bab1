//! What the core of a store believes of the files that it doesn't hold, and what its calls do to that.
#![tactic(auto)]

mod laws;
mod standing;

pub use laws::{
    beginning_law, cancelling_law, core_steps, dumper_outcomes, dumper_steps, found_law,
    gate_steps, left_law, merge_beginning_law, merger_outcomes, merger_steps, opener_finds,
    opener_steps, performed_law, quiet_steps, reopened_law, trim_step,
};
pub use standing::Standing;
