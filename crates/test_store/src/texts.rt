//! The texts of faults and errors, which no clause says.
use sd_disk::{DeviceError, FileFault, OpenError};
use sd_image::Reason;
use sd_restore::Fault;
use std::alloc::{AllocError, Global};
use std::{fmt, io};

fn is_shown<T: fmt::Display>(alloc: Global, value: &T, text: &str) -> Result<bool, AllocError> {
    Ok(format!(in alloc; "{value}")?.as_str() == text)
}

/// Faults, with their numbers and their texts.
const FAULTS: &[(Fault, u8, &str)] = &[
    (Fault::EmptyChain, 20, "empty chain"),
    (
        Fault::Damaged {
            slot: 1,
            reason: Reason::Chain,
        },
        21,
        "damaged 001 18",
    ),
    (Fault::Device, 22, "device"),
    (Fault::OutOfMemory, 23, "out-of-memory"),
];

/// Whether each fault has its number and its text.
fn faults_are_shown(alloc: Global) -> Result<bool, AllocError> {
    for (fault, number, text) in FAULTS {
        if fault.number() != *number || !is_shown(alloc, fault, text)? {
            return Ok(false);
        }
    }
    Ok(true)
}

/// Whether a full device of a slot, and a folder that isn't opened for that, have their texts.
fn causes_are_shown(alloc: Global, fault: FileFault) -> Result<bool, AllocError> {
    let cause = "img-007: No space left on device (os error 28)";
    Ok(
        is_shown(alloc, &fault, cause)?
            && is_shown(alloc, &OpenError::Folder(fault), "cannot open DIR")?,
    )
}

#[test]
fn faults_and_errors_have_their_texts(rt: HostRuntime) -> Result<(), AllocError> {
    let alloc = rt.alloc();
    let full = FileFault {
        slot: Some(7),
        error: io::Error::from_raw_os_error(28),
    };
    assert!(rt; faults_are_shown(alloc)?);
    assert!(rt; is_shown(alloc, &DeviceError, "device")?);
    assert!(rt; is_shown(alloc, &OpenError::OutOfMemory, "out-of-memory")?);
    assert!(rt; causes_are_shown(alloc, full)?);
    Ok(())
}
