use sd_chain::Catalog;
use sd_gate::Phase;

/// A store that was read.
#[derive(Drop)]
pub struct Opened {
    /// Its open images.
    pub catalog: Catalog,
    /// The phase of each slot.
    pub phases: Vec<Phase>,
}
