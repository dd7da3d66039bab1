//! Worlds over disks in memory of which one call fails.
use crate::runs::fault_of;
use crate::store::{Store, TWO};
use sd_world::OpenFault;
use std::alloc::{AllocError, Global};

/// Whether a store of two slots of which the call after so many fails isn't opened for that: two syncs, two lengths by
/// which the store is read, and two for the phases.
fn fails_so(alloc: Global, calls: u64) -> Result<bool, AllocError> {
    let fault = fault_of(alloc, Store { calls, ..TWO })?;
    let wanted = if calls < 6 {
        Some(OpenFault::Device)
    } else {
        None
    };
    Ok(fault == wanted)
}

#[test]
fn each_call_of_an_opening_may_fail(rt: HostRuntime) -> Result<(), AllocError> {
    for calls in 0..7 {
        assert!(rt; fails_so(rt.alloc(), calls)?);
    }
    Ok(())
}
