//! The page tables of address spaces: trees of tables of 512 places, with the entry of each mapped page.
#![tactic(auto)]

mod entry;
mod leaf;
mod leaf_entry;
mod level;
mod node;
mod page_table;
mod run_change;
mod slot;
mod tables;
mod used_places;

pub use entry::Entry;
pub use run_change::RunChange;
pub use tables::Tables;
