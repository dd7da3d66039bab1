use crate::trace::Trace;

/// What following pages, one after the other, to the parents comes to.
#[derive(Clone, Copy, PartialEq, Eq)]
pub struct TraceRun {
    /// What following the first page comes to. Where it is found among data, each page after it lies 4,096 bytes
    /// after the one before; where it is found as zeros, or its chain breaks, so do they, at the same slot.
    pub trace: Trace,
    /// How many pages, from 1 on.
    pub count: u64,
}
