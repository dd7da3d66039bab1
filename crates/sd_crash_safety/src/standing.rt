/// How a store stands.
#[derive(Clone, Copy, PartialEq, Eq)]
pub enum Standing {
    /// It wasn't opened yet.
    NotOpen,
    /// It was opened, and no device call failed since.
    Open,
    /// A device call failed, and it wasn't opened again since.
    Down,
}
