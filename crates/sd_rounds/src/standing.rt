/// How far the page is that a pass takes.
#[derive(Clone, Copy, PartialEq, Eq)]
pub enum Standing {
    /// No page is being taken: the next is to be visited.
    Free,
    /// Some of its sectors are still to be copied.
    Copying,
    /// All its sectors are copied, and it isn't all zeros: it is to be written.
    Copied,
}
