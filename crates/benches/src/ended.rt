/// How a case ended.
#[derive(Clone, Copy)]
pub(crate) enum Ended {
    Done,
    /// So many of these were made.
    Counted(u64, &'static str),
    /// It came to no end, or found something wrong, as this says.
    Failed(&'static str),
    /// The words name no case, or have no number where one is needed.
    Unnamed,
}

/// How a case ended whose calls were all made, or weren't.
pub(crate) fn made(is_made: bool) -> Ended {
    if is_made {
        Ended::Done
    } else {
        Ended::Failed("failed")
    }
}
