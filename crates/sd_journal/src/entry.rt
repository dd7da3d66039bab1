use sd_command::{Command, Reply};

/// One entry of a journal. Entries are numbered by their place, from 0.
#[derive(Debug, PartialEq, Eq, Drop)]
pub enum Entry {
    /// A command of a seat, and the reply to it. Refusals 7 and 8 stand in no journal.
    Applied {
        seat: usize,
        command: Command,
        reply: Reply,
    },
    /// The memory was frozen for the checkpoint with this number.
    Freeze(u64),
    /// The checkpoint with this number is on the disk.
    Acked(u64),
    /// The checkpoint with this number was cancelled.
    Cancelled(u64),
    /// The store was opened again, and this is its checkpoint, if it has one.
    Reopened(Option<u64>),
}
