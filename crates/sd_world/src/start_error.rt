use crate::open_fault::OpenFault;
use sd_command::Refusal;
use std::fmt;
use thiserror::Error;

/// Why a run doesn't start over a store.
#[derive(Clone, Copy, Debug, PartialEq, Eq, Error)]
pub enum StartFault {
    /// The store isn't opened: its disk was only read.
    #[error("{0}")]
    Unopened(OpenFault),
    /// The store was opened, and its opening again was refused.
    #[error("refused {0}")]
    Refused(Refusal),
}

/// Why a run doesn't start over a store, with its disk.
#[derive(Drop, Error)]
#[error("{fault}")]
pub struct StartError<D> {
    pub fault: StartFault,
    pub disk: D,
}

/// Prints the fault alone: a disk isn't printed.
impl<D> fmt::Debug for StartError<D> {
    fn fmt<W: fmt::Write>(&self, f: &mut fmt::Formatter<W>) -> fmt::Result {
        write!(f, "StartError({:?})", self.fault)
    }
}
