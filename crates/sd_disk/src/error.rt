use thiserror::Error;

/// A call of a device failed. The disk's count of failures rose in that call.
#[derive(Clone, Copy, Debug, PartialEq, Eq, Error)]
#[error("device")]
pub struct DeviceError;
