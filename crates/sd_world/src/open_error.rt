use crate::open_fault::OpenFault;
use std::fmt;
use thiserror::Error;

/// Why a store isn't opened, with its disk, which was only read.
#[derive(Drop, Error)]
#[error("{fault}")]
pub struct OpenError<D> {
    pub fault: OpenFault,
    pub disk: D,
}

/// Prints the fault alone: a disk isn't printed.
impl<D> fmt::Debug for OpenError<D> {
    fn fmt<W: fmt::Write>(&self, f: &mut fmt::Formatter<W>) -> fmt::Result {
        write!(f, "OpenError({:?})", self.fault)
    }
}
