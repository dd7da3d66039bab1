//! A disk of numbered slots, each a file: in memory, or in a folder.
#![tactic(auto)]

mod budget;
mod call;
mod call_log;
mod call_trace;
mod dir_disk;
mod disk;
mod error;
mod file_fault;
mod file_limit;
mod folder;
mod found;
mod fuse;
mod fused;
mod laws;
mod looks;
mod mem_disk;
mod observed;
mod open_error;
mod pick;
mod retry;
mod shadow;
mod slot_file;
mod slot_files;

pub use dir_disk::DirDisk;
pub use disk::Disk;
pub use error::DeviceError;
pub use file_fault::FileFault;
pub use file_limit::FileLimit;
pub use folder::{FOLDER_SLOTS, Folder};
pub use found::Found;
pub use fused::Fused;
pub use laws::crash_outcomes;
pub use looks::{file_len, read_file};
pub use mem_disk::MemDisk;
pub use observed::{FileCall, Observed, Observer};
pub use open_error::OpenError;
pub use pick::Pick;
pub use slot_files::{is_being_written, lock_folder, make_folders};
