/// What is known of a slot.
#[derive(Clone, Copy, PartialEq, Eq)]
pub enum SlotState {
    /// Its file is shorter than a header.
    Raw,
    /// Its file begins with a byte that isn't the gate.
    Closed,
    /// Its file has at least a header and begins with the gate, or may do so.
    Open,
    /// It is closed, and a job fills it.
    Writing,
}
