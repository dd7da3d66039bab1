use crate::call::Call;
use crate::worker::Worker;

/// What distinguishes one request from every other.
#[derive(Clone, Copy, PartialEq, Eq)]
pub struct RequestId {
    pub worker: Worker,
    /// The number that the worker gave it.
    pub ticket: u64,
    pub slot: usize,
    pub call: Call,
}
