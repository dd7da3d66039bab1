//! The text of an image: a slot's file, from its header to its table.
#![tactic(auto)]

mod coverage;
mod digester;
mod fields;
mod header;
mod header_codec;
mod laws;
mod layout;
mod reason;
mod reason_laws;
mod run;
mod runs;
mod space_head;
mod table;
mod table_error;
mod table_front;
mod table_reading;
mod table_writing;
mod totals;

pub use digester::Digester;
pub use fields::{u16_at, u32_at, u64_at};
pub use header::{Header, Kind, Version};
pub use header_codec::{decode_header, encode_header};
pub use laws::{
    few_pages, file_is_image, first_image_is_shown, header_fills_file, held_once, held_once_among,
    named_once, newest_is_shown, one_image, one_kind, one_list_of_runs, one_place, one_spelling,
    one_store, page_in_file, ready_above, ready_again, ready_still, shown_once, shown_still,
    text_is_image, tip_once,
};
pub use layout::{GATE, HEADER_SIZE};
pub use reason::Reason;
pub use reason_laws::{
    first_fault_is_named, good_file_has_no_reason, good_header_has_no_reason,
    good_store_has_no_reason, good_table_has_no_reason, least_header_reason, one_reason,
};
pub use run::{Run, RunKind};
pub use runs::{push_page, runs_have_pages};
pub use table::{SpaceTable, Table};
pub use table_error::TableError;
pub use table_front::fault_of_front;
pub use table_reading::decode_table;
pub use table_writing::encode_table;
