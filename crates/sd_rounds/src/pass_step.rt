use crate::copied::Copied;
use crate::visit::Visit;

/// What a step of the pass came to that works on the memory and asks for no call. It has no room for a request.
#[derive(Clone, Copy, PartialEq, Eq)]
pub enum PassStep {
    /// A page was tested and cleared.
    Visited(Visit),
    /// A sector was copied.
    Copied(Copied),
}
