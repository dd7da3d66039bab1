/// What a store in order shows.
#[derive(Clone, Copy, Debug, PartialEq, Eq)]
pub struct Report {
    /// The number of the checkpoint that would be restored, if there is one.
    pub checkpoint: Option<u64>,
    /// How many slots are open.
    pub images: usize,
}
