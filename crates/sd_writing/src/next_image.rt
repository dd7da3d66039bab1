use sd_gate::SlotState;

/// What an image gets that a step begins.
#[derive(Clone, Copy, PartialEq, Eq)]
pub struct NextImage {
    pub serial: u64,
    /// What is known of its slot.
    pub state: SlotState,
}
