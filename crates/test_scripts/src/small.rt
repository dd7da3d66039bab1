//! Stores of few slots.
use crate::run::{ROOM, answers};
use sd_disk::MemDisk;
use std::process::Abort;
use std::test::Fail;

/// Fewer free slots than a checkpoint takes.
const TWO: &str = "checkpoint 0 => acked 1
checkpoint 0 => refused 12 no-slot";

/// A checkpoint begins only where it leaves a slot, in which a merge finds room.
const THREE: &str = "checkpoint 0 => acked 1
begin 0 => begun 2
merge => merged 2
finish dumper => acked 2";

/// A chain of three images leaves room for a merge alone, which makes room for a checkpoint.
const FOUR: &str = "checkpoint 0 => acked 1
checkpoint 0 => acked 2
checkpoint 0 => acked 3
begin 0 => refused 12 no-slot
merge => merged 4
checkpoint 0 => acked 4";

/// How many slots a store has, and how a run over it is answered.
const SMALL: [(usize, &str); 3] = [(2, TWO), (3, THREE), (4, FOUR)];

fn is_answered(rt: &(impl Abort + AllocGlobal), slots: usize, rows: &str) -> Result<(), Fail> {
    let disk = MemDisk::new(rt.alloc(), slots.clamp(1, 8), ROOM, 400)?;
    answers(rt, disk, "reopened none", rows)?;
    Ok(())
}

#[test]
fn a_checkpoint_leaves_room_for_a_merge(rt: HostRuntime) -> Result<(), Fail> {
    for (slots, rows) in SMALL {
        is_answered(&rt, slots, rows)?;
    }
    Ok(())
}
