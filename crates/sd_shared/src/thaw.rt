/// Why a wait for the end of a freeze ended.
#[derive(Clone, Copy, Debug, PartialEq, Eq)]
pub enum Thaw {
    /// Nothing is frozen.
    Thawed,
    /// The store is down, and what is frozen stays so until it is opened again.
    Down,
    /// Waits were ended, and what is frozen stays so until somebody goes on with the checkpoint.
    Ended,
}
