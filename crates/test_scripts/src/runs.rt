//! A second run over what a first one left, and runs over a folder and a disk in memory.
use crate::run::{FIRST, answers, file, folder, fresh, is_printed, path};
use sd_disk::Disk;
use std::fs;
use std::process::Abort;
use std::test::Fail;

/// A second run goes on from what the first left, and its first checkpoint is whole.
const SECOND: &str = "load 1 0x10000 5 => bytes 68656c6c6f
checkpoint 0 => acked 2";

/// What the programs print of the store then.
const PRINTED: [(&str, &str); 3] = [
    (
        "list",
        "slot 000 dump serial 1 stands 1 parent 0 checkpoint 1 pages 1
slot 001 dump serial 2 stands 2 parent 0 checkpoint 2 pages 1
tip 2
",
    ),
    (
        "restore",
        "checkpoint 2
space 1
area 0x10000 0x11000 rw-
bytes 0x10000 68656c6c6f000000000000000000000000000000000000000000000000000000
",
    ),
    ("verify", "ok checkpoint 2 images 2\n"),
];

/// Each program prints what it should.
fn prints_all<D: Disk>(rt: &(impl Abort + AllocGlobal), disk: &mut D) {
    for (program, wanted) in PRINTED {
        is_printed(rt, disk, program, wanted);
    }
}

#[test]
fn second_run(rt: HostRuntime) -> Result<(), Fail> {
    let disk = fresh(&rt, FIRST)?;
    let mut disk = answers(&rt, disk, "reopened 1", SECOND)?;
    prints_all(&rt, &mut disk);
    Ok(())
}

/// A round of a cancelled checkpoint cleared the bits: the next checkpoint is whole.
const STALE_BITS: &str = "mmap 1 0x10000 4096 rw => done
store 1 0x10000 68656c6c6f => done
checkpoint 0 => acked 1
store 1 0x10000 62 => done
begin 1 => begun 2
step dumper 10 => worked
cancel => cancelled 2
checkpoint 0 => acked 3";

const LISTED: &str = "slot 000 dump serial 1 stands 1 parent 0 checkpoint 1 pages 1
slot 001 dump serial 3 stands 3 parent 0 checkpoint 3 pages 1
tip 3
";

/// Two disks have the same file in a slot.
fn have_same_file<A: Disk, B: Disk>(
    rt: &(impl Abort + AllocGlobal),
    one: &mut A,
    other: &mut B,
    slot: usize,
) -> Result<(), Fail> {
    let written = file(rt, rt.alloc(), one, slot)?;
    let wanted = file(rt, rt.alloc(), other, slot)?;
    assert_eq!(rt; written.as_slice(), wanted.as_slice());
    Ok(())
}

/// Two disks have the same images, in two slots.
fn agree<A: Disk, B: Disk>(
    rt: &(impl Abort + AllocGlobal),
    one: &mut A,
    other: &mut B,
) -> Result<(), Fail> {
    is_printed(rt, one, "list", LISTED);
    is_printed(rt, other, "list", LISTED);
    have_same_file(rt, one, other, 0)?;
    have_same_file(rt, one, other, 1)
}

/// Runs the rows over this disk and over one in memory, which agree then.
fn agrees_with_memory<D: Disk + Drop>(
    rt: &(impl Abort + AllocGlobal),
    disk: D,
) -> Result<(), Fail> {
    let mut disk = answers(rt, disk, "reopened none", STALE_BITS)?;
    let mut memory = fresh(rt, STALE_BITS)?;
    agree(rt, &mut disk, &mut memory)
}

/// A folder holds the same files as a disk in memory.
#[test]
fn folder_and_memory_agree(rt: HostRuntime) -> Result<(), Fail> {
    let path = path(&rt, "agree")?;
    let agrees = agrees_with_memory(&rt, folder(&rt, path.as_str())?);
    let _ = fs::remove_dir_all(&rt, path.as_str());
    agrees
}
