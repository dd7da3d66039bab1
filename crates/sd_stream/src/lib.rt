//! The stream of `ckpt send`: images of checkpoints, one after the other, between two stores.
#![tactic(auto)]

mod base;
mod head;
mod item;
mod laws;
mod pieces;
mod reader;
mod records;
mod stream_error;
mod taking;
mod tally;
mod write_error;
mod writer;

pub use base::Base;
pub use item::Item;
pub use laws::{one_stream, streams_are_read};
pub use reader::StreamReader;
pub use records::MAX_FILE_LEN;
pub use stream_error::StreamError;
pub use write_error::WriteError;
pub use writer::StreamWriter;
