/// How far the inspection of a slot has come.
#[derive(Clone, Copy, PartialEq, Eq)]
pub enum InspectionStage {
    /// The sync is next.
    Sync,
    /// The question for the length is next.
    Len,
    /// The length decides what is next.
    AwaitLen,
    /// The first bytes of a file of so many are next.
    First { len: usize },
    /// They decide what is next.
    AwaitFirst { len: usize },
    /// The table is next.
    Table { at: usize, len: usize },
    /// No call is left.
    Done,
}
