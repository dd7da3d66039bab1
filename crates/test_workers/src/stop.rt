//! Why a test goes no further.
use sd_chain::CatalogError;
use std::alloc::AllocError;

#[derive(Clone, Copy, Debug)]
pub(crate) enum Stop {
    /// Memory ran out.
    OutOfMemory,
    /// The dumper or the merger refused.
    Worker,
    /// The catalog doesn't take an image.
    Catalog,
    /// An outcome that may not come here, or no slot or image.
    Strange,
    /// A merge doesn't end.
    NoEnd,
}

impl From<AllocError> for Stop {
    fn from(_error: AllocError) -> Stop {
        Stop::OutOfMemory
    }
}

impl From<sd_rounds::WorkError> for Stop {
    fn from(error: sd_rounds::WorkError) -> Stop {
        match error {
            sd_rounds::WorkError::OutOfMemory => Stop::OutOfMemory,
            sd_rounds::WorkError::Busy | sd_rounds::WorkError::Idle => Stop::Worker,
        }
    }
}

impl From<sd_merge::WorkError> for Stop {
    fn from(_error: sd_merge::WorkError) -> Stop {
        Stop::Worker
    }
}

impl From<CatalogError> for Stop {
    fn from(_error: CatalogError) -> Stop {
        Stop::Catalog
    }
}
