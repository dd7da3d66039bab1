//! What permissions and errors print.
use crate::support::{
    EINVAL, ENOMEM, LAST_SPACE, NO_FRAME, NO_SUCH_SPACE, NOT_MAPPED, TOO_MANY_SPACES,
};
use sd_areas::{AreaError, Errno, Prot};
use sd_pagetable::MemoryError;
use sd_procfs::{ClearError, NoSuchSpace};
use std::alloc::{AllocError, Global};
use std::fmt::Display;

/// Whether these bits are those of permissions.
fn are_bits(bits: u8) -> bool {
    match Prot::from_bits(bits) {
        Some(prot) => prot.bits() == bits,
        None => false,
    }
}

/// Whether permissions have three bits.
fn have_three_bits() -> bool {
    for bits in 0..16u8 {
        if are_bits(bits) != (bits < 8) {
            return false;
        }
    }
    true
}

/// Whether a value prints this text.
fn prints<T: Display>(alloc: Global, value: &T, text: &str) -> Result<bool, AllocError> {
    Ok(format!(in alloc; "{value}")?.as_str() == text)
}

/// Whether each value prints its text.
fn prints_each<T: Display>(alloc: Global, rows: &[(T, &str)]) -> Result<bool, AllocError> {
    for (value, text) in rows {
        if !prints(alloc, value, text)? {
            return Ok(false);
        }
    }
    Ok(true)
}

const ERRORS: &[(AreaError, &str)] = &[
    (AreaError::Refused(Errno::Einval), "1 EINVAL"),
    (AreaError::Refused(Errno::Enomem), "2 ENOMEM"),
    (AreaError::OutOfMemory, "out-of-memory"),
];

/// Errors, and what they print.
const PRINTED: &[(MemoryError, &str)] = &[
    (EINVAL, "1 EINVAL"),
    (ENOMEM, "2 ENOMEM"),
    (NO_SUCH_SPACE, "3 no-such-space"),
    (TOO_MANY_SPACES, "4 too-many-spaces"),
    (NO_FRAME, "5 no-frame"),
    (LAST_SPACE, "15 last-space"),
    (NOT_MAPPED, "segv maperr"),
    (MemoryError::OutOfMemory, "out-of-memory"),
];

const CLEARS: &[(ClearError, &str)] = &[
    (ClearError::NoSuchSpace, "3 no-such-space"),
    (ClearError::UnsupportedValue, "9 unsupported-value"),
];

#[test]
fn permissions_and_errors(rt: HostRuntime) -> Result<(), AllocError> {
    assert!(rt; have_three_bits());
    assert!(rt; prints_each(rt.alloc(), ERRORS)?);
    assert!(rt; prints_each(rt.alloc(), PRINTED)? && prints_each(rt.alloc(), CLEARS)?);
    assert!(rt; prints(rt.alloc(), &NoSuchSpace, "3 no-such-space")?);
    Ok(())
}
