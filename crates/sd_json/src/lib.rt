//! What a store has, as JSON documents: its images, whether it can be restored, and the spaces and areas of its memory.
//! All only read.
#![tactic(auto)]

mod fault;
mod images;
mod memory;
mod moment;
mod verdict;

pub use moment::{Document, document_text, fault_text, lacks_text};
