use sd_command::Reply;

/// What a line of a script is answered.
#[derive(Drop)]
pub enum Answer {
    Reply(Reply),
    /// The words of pages, as `pagemap` has them.
    Words(Vec<u64>),
}
