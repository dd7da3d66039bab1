use sd_image::Kind;
use sd_show::PageCounts;
use std::time::Duration;

/// What one image took, from the first call on its slot to the last.
#[derive(Clone, Copy)]
pub struct ImageRecord {
    pub serial: u64,
    pub slot: usize,
    pub kind: Kind,
    pub checkpoint: u64,
    /// The pages of its table.
    pub pages: PageCounts,
    /// How many bytes were written into its file.
    pub bytes: u64,
    /// How many device calls were made on its slot.
    pub calls: u64,
    pub took: Duration,
}

/// What one checkpoint took, of the images that this run made of it.
#[derive(Clone, Copy)]
pub struct CheckpointRecord {
    /// Its number.
    pub number: u64,
    /// The dump's serial.
    pub serial: u64,
    /// The dump's slot.
    pub slot: usize,
    /// How many pre-dumps were made before the dump.
    pub rounds: u64,
    /// The pages of all its tables.
    pub pages: PageCounts,
    pub bytes: u64,
    pub calls: u64,
    pub took: Duration,
    /// How many device calls were made for it from its freeze on.
    pub frozen_calls: u64,
    /// How long the memory was frozen.
    pub frozen: Duration,
}

/// What one merge took, from the first call on the slot of its image to the last image that it closed.
#[derive(Clone, Copy)]
pub struct MergeRecord {
    /// The merged image's serial.
    pub serial: u64,
    pub slot: usize,
    /// How many images pages were read from.
    pub read: u64,
    /// How many images were closed after it.
    pub closed: u64,
    pub calls: u64,
    pub took: Duration,
}

/// What was done.
#[derive(Clone, Copy)]
pub enum Record {
    Image(ImageRecord),
    Checkpoint(CheckpointRecord),
    Merge(MergeRecord),
}
