//! Memory as ELF core files: the file of a space's memory, written; and a core file of any program, read.
#![tactic(auto)]

mod core_file;
mod differences;
mod fault;
mod fields;
mod file_header;
mod header_text;
mod notes;
mod output;
mod page_writing;
mod plan;
mod program_header;
mod segments;
mod write_core;
mod write_error;

pub use core_file::{Core, CoreFile, ReadError, read_core, read_page};
pub use differences::{Piece, pieces_of};
pub use fault::{CoreFault, HeaderFault, SegmentFault};
pub use file_header::{FILE_HEADER_SIZE, FileHeader, decode_file_header};
pub use header_text::idle_thread;
pub use notes::{NotesError, NotesFault, read_notes};
pub use output::{CoreFiles, CoreOutput, HoleFile};
pub use plan::{PageRun, areas_of, is_there, may_split_too_far, pages_outside, split_segments};
pub use program_header::{PROGRAM_HEADER_SIZE, ProgramHeader, decode_program_header};
pub use segments::{Extent, check_segments, is_memory};
pub use write_core::{THREAD_NOTES_LIMIT, write_shown, write_shown_at};
pub use write_error::WriteError;
