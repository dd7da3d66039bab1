/// Where the memory comes from that a run goes on from.
#[derive(Clone, Copy, Debug, PartialEq, Eq)]
pub enum Origin {
    /// The store showed it when it was opened, or it is space 1 alone without pages.
    Opened,
    /// A trim folded it from entries, the last of which was an acknowledgement or else a reopening.
    Trimmed { acknowledged: bool },
}
