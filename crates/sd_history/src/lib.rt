//! What a store still has of its past: the checkpoints to which it goes back, and the images that none of them needs.
#![tactic(auto)]

mod going_back;
mod history;
mod text;

pub use going_back::restorable;
pub use history::{History, Past, Spare, history_of};
pub use text::{history_json, history_text};
