//! Memory as page tables over counted frames: faults, copy on write, and which pages were touched since their clear.
#![tactic(auto)]

mod access;
mod access_error;
mod fork_calls;
mod law;
mod limits;
mod loading;
mod memory;
mod memory_error;
mod memory_refusal;
mod paging;
mod range_calls;
mod ranges;
mod segv;
mod store_outcome;

pub use access::Access;
pub use access_error::AccessError;
pub use law::{
    clean_law, clear_law, count_law, effect_law, page_law, plain_law, tracking_law, tracks_law,
};
pub use limits::{ACCESS_LIMIT, FRAME_LIMIT, SECTOR_SIZE, SECTORS};
pub use memory::Memory;
pub use memory_error::MemoryError;
pub use memory_refusal::MemoryRefusal;
pub use segv::Segv;
pub use store_outcome::StoreOutcome;
