//! Which slots are free beside a merge and a checkpoint, and which images a merge closes.
use crate::slot_actions::{TestAction, run};
use crate::stop::Stop;
use sd_free_slots::free_law;
use sd_merge::Retired;
use std::alloc::Global;
use std::test::Fail;

/// The tip reaches the images in the slots 0 to 2 of eight. The merge has slot 3, the checkpoint 5 and 6. Once the
/// merged image is open, the chain's slots are free, until the merge has its list, and again after its end.
const FREE: [TestAction; 12] = [
    TestAction::Free(None, &[3, 4, 5, 6, 7]),
    TestAction::BeginMerge(3),
    TestAction::Free(None, &[4, 5, 6, 7]),
    TestAction::BeginDump(4, &[5], 6, 3),
    TestAction::Free(None, &[4, 7]),
    TestAction::Free(Some(7), &[4]),
    TestAction::Merge(4),
    TestAction::Free(None, &[0, 1, 2, 4, 7]),
    TestAction::Retire,
    TestAction::Free(None, &[4, 7]),
    TestAction::Merge(4),
    TestAction::Free(None, &[0, 1, 2, 4, 7]),
];

/// The images of the chain.
const ONE: Retired = Retired { serial: 1, slot: 0 };

const TWO: Retired = Retired { serial: 2, slot: 1 };

const THREE: Retired = Retired { serial: 3, slot: 2 };

/// All three images are listed, where nothing else is at work, and the first two where the store has two slots. An
/// image isn't listed whose slot a checkpoint has, or on whose slot a request is out. A checkpoint above the second
/// image needs it and what it reaches.
const LISTED: [TestAction; 11] = [
    TestAction::BeginMerge(3),
    TestAction::Merge(4),
    TestAction::Lists(Some(8), None, &[ONE, TWO, THREE]),
    TestAction::Lists(Some(2), None, &[ONE, TWO]),
    TestAction::Lists(None, None, &[]),
    TestAction::Lists(Some(8), Some(1), &[ONE, THREE]),
    TestAction::BeginDump(4, &[], 0, 0),
    TestAction::Lists(Some(8), None, &[TWO, THREE]),
    TestAction::CancelDump,
    TestAction::BeginDump(4, &[], 5, 2),
    TestAction::Lists(Some(8), None, &[THREE]),
];

/// Whether both come to what they say.
fn are_right(alloc: Global) -> Result<bool, Stop> {
    Ok(run(alloc, &FREE)?.is_none() && run(alloc, &LISTED)?.is_none())
}

/// A slot is free where no image is needed there, no job has it, and no request is out on it. A merge closes the images
/// that were there as it began, that nobody needs and no job has the slots of.
#[test]
fn slots_are_free_and_images_are_listed(rt: HostRuntime) -> Result<(), Fail> {
    free_law();
    assert!(rt; are_right(rt.alloc())?);
    Ok(())
}
