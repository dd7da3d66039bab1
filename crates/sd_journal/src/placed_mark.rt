use crate::mark::Mark;

/// A mark, and the number of the entry before which it stands.
#[derive(Drop)]
pub(crate) struct PlacedMark {
    pub(crate) before: u64,
    pub(crate) mark: Mark,
}
