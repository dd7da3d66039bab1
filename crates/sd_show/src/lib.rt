//! What stands in the image files of a store, slot by slot: as text, and as JSON. A slot that is damaged is shown as
//! far as it can be read, and the others follow.
#![tactic(auto)]

mod counts;
mod digest;
mod header_text;
mod items;
mod json;
mod judged;
mod laws;
mod numbers;
mod opened;
mod phrases;
mod seen;
mod show;
mod state;
mod stop;
mod table_text;
mod text;

pub use counts::{PageCounts, count_pages};
pub use json::{show_slot_json, show_slots_json};
pub use laws::damaged_or_image;
pub use numbers::numbers_object;
pub use phrases::reason_phrase;
pub use show::{show_slot, show_slots};
pub use state::State;
pub use stop::Stop;
