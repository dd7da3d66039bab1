//! What replies say.
use sd_command::{Refusal, Reply};

/// Whether a checkpoint was acknowledged under this number.
pub(crate) fn is_acked(reply: Reply, number: u64) -> bool {
    matches!(reply, Reply::Acked(acked) if acked == number)
}

/// Whether something was refused so.
pub(crate) fn is_refused(reply: &Reply, why: Refusal) -> bool {
    matches!(reply, Reply::Refused(told) if *told == why)
}

/// Whether the store was opened, and shows no checkpoint.
pub(crate) fn is_opened(reply: Reply) -> bool {
    matches!(reply, Reply::Reopened(None))
}

/// Whether a merge came to its end, with an image of this serial.
pub(crate) fn is_merged(reply: Reply, serial: u64) -> bool {
    matches!(reply, Reply::Merged(merged) if merged == serial)
}

/// Whether something was refused so.
pub(crate) fn is_for(why: Option<Refusal>, other: Refusal) -> bool {
    match why {
        Some(why) => why == other,
        None => false,
    }
}

/// Why something was refused, if it was.
pub(crate) fn refusal_in(reply: &Reply) -> Option<Refusal> {
    match reply {
        Reply::Refused(why) => Some(*why),
        _ => None,
    }
}

/// Whether a number's bytes were loaded.
pub(crate) fn has_bytes(reply: &Reply, number: u64) -> bool {
    match reply {
        Reply::Bytes(bytes) => bytes.as_slice() == number.to_le_bytes().as_slice(),
        _ => false,
    }
}
