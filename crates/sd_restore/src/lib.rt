//! Reading any store: its open images, and what is wrong with it.
#![tactic(auto)]

mod at;
mod chain;
mod chosen;
mod decoded;
mod digests;
mod fault;
mod fronts;
mod laws;
mod pages;
mod placed_run;
mod placing;
mod report;
mod restoring;
mod scanned;
mod slot_reader;
mod slots;
mod verifying;

pub use at::{place_at, restore_at, restore_at_from};
pub use decoded::{Decoded, decode_slot};
pub use fault::Fault;
pub use laws::{
    closed_is_rightly_digested, image_is_rightly_digested, shown_is_at, shown_is_within_limits,
    store_is_rightly_digested,
};
pub use placed_run::PlacedRun;
pub use placing::{PlacedMemory, page_buffer, place_newest, read_placed_pages};
pub use report::Report;
pub use restoring::{restore, restore_from};
pub use scanned::Scanned;
pub use slot_reader::read_slot;
pub use slots::scan;
pub use verifying::{newest_checkpoint, verify};
