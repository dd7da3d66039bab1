use sd_areas::Snapshot;
use sd_gate::Phase;
use sd_pagetable::Memory;

/// What a run starts from: a store that was read, each of whose slots was synced.
#[derive(Drop)]
pub struct Start {
    /// The number of the checkpoint that it shows, if it has one.
    pub number: Option<u64>,
    /// The memory of that checkpoint; without one, space 1 alone without pages.
    pub base: Snapshot,
    /// The same, with frames.
    pub memory: Memory,
    /// The phase of each slot.
    pub phases: Vec<Phase>,
}
