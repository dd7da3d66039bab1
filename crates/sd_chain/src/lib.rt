//! The catalog of a store's open images, and where a chain of them has a page.
#![tactic(auto)]

mod catalog;
mod chain;
mod checkpoints;
mod choice;
mod error;
mod found;
mod image;
mod laws;
mod passes;
mod placed;
mod putting;
mod spot;
mod stretch;
mod trace;
mod trace_run;
mod way;

pub use catalog::Catalog;
pub use chain::Chain;
pub use error::CatalogError;
pub use found::Found;
pub use image::OpenImage;
pub use laws::{
    added_image_is_recorded, closed_slot, empty_catalog, held_places_record_nothing, open_slot,
    removed_slot_is_unrecorded, removed_slot_was_recorded,
};
pub use placed::PlacedTable;
pub use trace::Trace;
pub use trace_run::TraceRun;
pub use way::Way;
