//! Stores whose device fails as they are opened.
use crate::run::{answers, empty, prints};
use sd_disk::Fused;
use std::test::Fail;

/// The opening makes 24 calls; the opener's first call fails.
const FAILED: &str = "perform opener => refused 14 idle
work opener => refused 13 store-down
work opener => refused 14 idle
step opener 1 => refused 14 idle
reopen => reopened none
reopen => refused 11 busy";

/// An opening event by event ends at a refusal: an empty slot takes a sync and a length, of three events each.
const STEPS: &str = "work opener => refused 13 store-down
step opener 2 => refused 14 idle
reopen => reopened none";

/// How many calls come before the one that fails, and what is answered then.
const FAILING: [(u64, &str); 2] = [(24, FAILED), (25, STEPS)];

#[test]
fn an_opening_that_fails_is_made_again(rt: HostRuntime) -> Result<(), Fail> {
    for (calls, rows) in FAILING {
        let disk = Fused::new(empty(rt.alloc())?, calls);
        answers(&rt, disk, "refused 22 device", rows)?;
    }
    Ok(())
}

#[test]
fn a_device_that_fails_at_the_opening_is_told(rt: HostRuntime) -> Result<(), Fail> {
    let disk = Fused::new(empty(rt.alloc())?, 3);
    prints(&rt, disk, "reopen\n", "device\n", 1);
    Ok(())
}
