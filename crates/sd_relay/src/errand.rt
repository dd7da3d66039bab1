use sd_gate::Request;

/// A device call on its way to a writer.
#[derive(Drop)]
pub struct Errand {
    /// The number of the call within its job, from 1.
    pub call: u64,
    pub request: Request,
}
