use crate::copied::Copied;
use crate::visit::Visit;
use sd_gate::Request;

/// What a step of an image in the making came to.
#[derive(Drop)]
pub enum ImageStep {
    /// The next device call of a plan is asked for.
    Call(Request),
    /// The write of the page that was copied is asked for, in this lane: it is the next data page.
    PageCall { lane: usize, request: Request },
    /// The first call that writes the table is asked for: the pass is over.
    TableCall(Request),
    /// The memory is frozen from now on.
    Frozen,
    /// A page was tested and cleared.
    Visited(Visit),
    /// A sector was copied.
    Copied(Copied),
}
