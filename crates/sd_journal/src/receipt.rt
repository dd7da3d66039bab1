use sd_command::{Command, Reply};

/// What a seat was answered: its command stands in the journal under this number, with this reply.
#[derive(Debug, PartialEq, Eq, Drop)]
pub struct Receipt {
    pub seat: usize,
    /// The number of the journal's entry.
    pub number: u64,
    pub command: Command,
    pub reply: Reply,
}
