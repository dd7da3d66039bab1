use sd_areas::Snapshot;
use sd_journal::Origin;

/// What a run goes on from.
#[derive(Drop)]
pub(crate) struct CoreBase {
    /// The number of the checkpoint whose memory it is, if it has one.
    pub(crate) number: Option<u64>,
    pub(crate) memory: Snapshot,
    pub(crate) origin: Origin,
    /// How many entries were ever folded into it.
    pub(crate) folded: u64,
}
