use thiserror::Error;

/// Why a journal doesn't account for what the seats and the worker were answered.
#[derive(Clone, Copy, Debug, PartialEq, Eq, Error)]
pub enum CloseFault {
    /// The journal has no command at this number.
    #[error("no command at {0}")]
    NotThere(u64),
    /// The command at this number has another seat, command or reply.
    #[error("another command at {0}")]
    Differs(u64),
    /// The receipts of this seat don't stand at rising numbers in the order given.
    #[error("seat {0} out of order")]
    OutOfOrder(usize),
    /// The journal has more or fewer commands than there are receipts.
    #[error("another number of commands")]
    Count,
    /// The journal acknowledges other numbers.
    #[error("other acknowledgements")]
    Acks,
}
