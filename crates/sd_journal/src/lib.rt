//! What a run was answered, and what it allows a store to show.
#![tactic(auto)]

mod close_fault;
mod entry;
mod journal;
mod laws;
mod mark;
mod numbers;
mod origin;
mod placed_mark;
mod plain_pages;
mod receipt;

pub use close_fault::CloseFault;
pub use entry::Entry;
pub use journal::{ENTRY_LIMIT, Journal};
pub use laws::{
    journal_laws, marked_trim_laws, must_dump_laws, run_laws, tracked_laws, trim_laws,
    worked_journals,
};
pub use mark::Mark;
pub use numbers::{last_number, pending_number};
pub use origin::Origin;
pub use plain_pages::{Pages, copy_of_pages, zero_page};
pub use receipt::Receipt;
