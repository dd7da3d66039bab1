use sd_command::Refusal;
use sd_restore::Fault;
use sd_world::OpenFault;
use thiserror::Error;

/// Why nothing was mutated.
#[derive(Clone, Copy, Debug, PartialEq, Eq, Error)]
pub enum MutateFault {
    /// The store can't be restored.
    #[error("{0}")]
    Store(Fault),
    /// An image is open in the store, a pre-dump alone included.
    #[error("store not empty")]
    NotEmpty,
    /// The store isn't opened.
    #[error("{0}")]
    Open(OpenFault),
    /// Memory was refused, or the opening of the store.
    #[error("refused {0}")]
    Refused(Refusal),
}
