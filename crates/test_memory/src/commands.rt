//! What commands and refusals are made of.
use crate::support::bytes_of;
use sd_command::{Bytes, Refusal};
use std::alloc::{AllocError, Global};

/// Each refusal with the number and the name under which it is printed.
const REFUSALS: &[(Refusal, u8, &str)] = &[
    (Refusal::Einval, 1, "EINVAL"),
    (Refusal::Enomem, 2, "ENOMEM"),
    (Refusal::NoSuchSpace, 3, "no-such-space"),
    (Refusal::TooManySpaces, 4, "too-many-spaces"),
    (Refusal::NoFrame, 5, "no-frame"),
    (Refusal::Frozen, 6, "frozen"),
    (Refusal::JournalFull, 7, "journal-full"),
    (Refusal::OutOfMemory, 8, "out-of-memory"),
    (Refusal::UnsupportedValue, 9, "unsupported-value"),
    (Refusal::NotOpen, 10, "not-open"),
    (Refusal::Busy, 11, "busy"),
    (Refusal::NoSlot, 12, "no-slot"),
    (Refusal::StoreDown, 13, "store-down"),
    (Refusal::Idle, 14, "idle"),
    (Refusal::LastSpace, 15, "last-space"),
    (Refusal::LockBusy, 16, "lock-busy"),
    (Refusal::NumbersUsed, 17, "numbers-used"),
    (Refusal::Damaged, 21, "damaged"),
    (Refusal::Device, 22, "device"),
];

/// Whether a refusal has the number and the name of its row.
fn is_named(row: &(Refusal, u8, &str)) -> bool {
    let (refusal, number, name) = row;
    refusal.number() == *number && refusal.name() == *name
}

/// Whether bytes are equal to others with these values.
fn is_equal(alloc: Global, bytes: &Bytes, values: &[u8]) -> Result<bool, AllocError> {
    let other = bytes_of(alloc, values)?;
    Ok(*bytes == other)
}

/// Whether bytes are equal to those of the same length and values, and to no others.
fn are_equal_by_value(alloc: Global) -> Result<bool, AllocError> {
    let bytes = bytes_of(alloc, &[1, 2])?;
    Ok(
        bytes.as_slice() == [1, 2].as_slice()
            && is_equal(alloc, &bytes, &[1, 2])?
            && !is_equal(alloc, &bytes, &[1, 3])?
            && !is_equal(alloc, &bytes, &[1])?,
    )
}

#[test]
fn refusals_and_bytes(rt: HostRuntime) -> Result<(), AllocError> {
    assert!(rt; REFUSALS.iter().all(is_named));
    assert!(rt; are_equal_by_value(rt.alloc())?);
    Ok(())
}
