//! Disks in folders: what calls on real files do.
ghost use Rattle.std.specs.Prelude.{◌≡◌, length, IfOk};
ghost use Rattle.sd_disk.specs.Folder.{folder_files};

use crate::cases::EXERCISE;
use crate::steps::{Call, Step, first_wrong};
use sd_disk::{DirDisk, FileFault, Folder, OpenError};
use std::test::Fail;
use std::{fs, io, process};

/// Where a folder's disk is opened.
#[derive(Clone, Copy)]
struct Place<'a> {
    path: &'a str,
    /// Whether what is missing is made.
    makes: bool,
}

fn open(rt: &HostRuntime, place: Place<'_>) -> Result<DirDisk, OpenError>
    ensures { IfOk result (λ disk. length (folder_files disk) ≡ 64) }
{
    Ok(DirDisk::new(Folder::open(rt, place.path, place.makes)?))
}

/// Opens a folder's disk and makes calls on it. Returns whether each ends as it has to, and the cause of the failure.
fn drive(
    rt: &HostRuntime,
    place: Place<'_>,
    steps: &[Step],
) -> Result<(bool, Option<FileFault>), OpenError> {
    let mut disk = open(rt, place)?;
    let wrong = first_wrong(&mut disk, steps);
    Ok((wrong.is_none(), disk.fault()))
}

/// A new folder has all its slots.
const ALL_SLOTS: &[Step] = &[(0, Call::Slots(64), true), (63, Call::Holds(b""), true)];

/// What is there once the calls of the exercise were made.
const KEPT: &[Step] = &[
    (3, Call::Holds(b"\0xyb"), true),
    (0, Call::Holds(b"head"), true),
];

/// A file that is missing.
const MISSING: &[Step] = &[
    (63, Call::Measures(0), true),
    (63, Call::Sync, true),
    (63, Call::Cut(0), true),
    (63, Call::Cut(1), false),
    (63, Call::Read(0, 1), false),
    (63, Call::Write(0, b"x"), false),
    (63, Call::Failures(3), true),
];

/// A read past the end.
const PAST_THE_END: &[Step] = &[(5, Call::Read(0, 1), false)];

/// What calls on a folder leave.
#[derive(Clone, Copy)]
enum End {
    /// The folder isn't opened.
    Closed,
    /// Each call ended as it had to, and no cause is asked for.
    Right,
    /// The same, and no call failed.
    Whole,
    /// The same, and the last failure was a read past the end of this slot's file.
    PastTheEnd(usize),
}

/// Whether a fault is that of a read past the end of a slot's file.
fn is_past_the_end(fault: Option<FileFault>, slot: usize) -> bool {
    match fault {
        Some(fault) => {
            fault.slot == Some(slot) && fault.error.kind() == io::ErrorKind::UnexpectedEof
        }
        None => false,
    }
}

/// Whether calls on a folder leave this.
fn ends(rt: &HostRuntime, place: Place<'_>, steps: &[Step], end: End) -> bool {
    let Ok((is_right, fault)) = drive(rt, place, steps) else {
        return matches!(end, End::Closed);
    };
    match end {
        End::Closed => false,
        End::Right => is_right,
        End::Whole => is_right && fault.is_none(),
        End::PastTheEnd(slot) => is_right && is_past_the_end(fault, slot),
    }
}

/// Calls on one folder, each time opened anew.
const CALLS: &[(bool, &[Step], End)] = &[
    (false, &[], End::Closed),
    (true, ALL_SLOTS, End::Whole),
    (true, PAST_THE_END, End::PastTheEnd(5)),
    (true, EXERCISE, End::Right),
    (false, KEPT, End::Whole),
    (true, KEPT, End::Whole),
];

/// Whether each leaves what it says.
fn leave_so(rt: &HostRuntime, path: &str) -> bool {
    for (makes, steps, end) in CALLS {
        let place = Place {
            path,
            makes: *makes,
        };
        if !ends(rt, place, steps, *end) {
            return false;
        }
    }
    true
}

/// Whether a folder keeps what was written.
fn keeps(rt: &HostRuntime, parent: &str) -> Result<bool, Fail> {
    let path = format!(in rt.alloc(); "{parent}/kept/within")?;
    Ok(leave_so(rt, path.as_str()))
}

/// Whether a missing file is empty in a folder without files.
fn is_empty(rt: &HostRuntime, parent: &str) -> Result<bool, Fail> {
    fs::create_dir_all(rt, parent)?;
    let place = Place {
        path: parent,
        makes: false,
    };
    Ok(ends(rt, place, MISSING, End::Right))
}

/// Whether one with a folder in place of a file isn't opened.
fn is_refused(rt: &HostRuntime, parent: &str) -> Result<bool, Fail> {
    let inner = format!(in rt.alloc(); "{parent}/img-007")?;
    fs::create_dir_all(rt, inner.as_str())?;
    let place = Place {
        path: parent,
        makes: true,
    };
    Ok(ends(rt, place, &[], End::Closed))
}

/// Whether a folder keeps what was written, a missing file is empty, and a failed call leaves its cause.
fn are_right(rt: &HostRuntime, parent: &str) -> Result<bool, Fail> {
    Ok(keeps(rt, parent)? && is_empty(rt, parent)? && is_refused(rt, parent)?)
}

#[test]
fn folders_keep_what_was_written(rt: HostRuntime) -> Result<(), Fail> {
    let id = process::id(rt.process());
    let parent = format!(in rt.alloc(); "/tmp/test_disk-{id}")?;
    let _ = fs::remove_dir_all(&rt, parent.as_str());
    let are_right = are_right(&rt, parent.as_str());
    let _ = fs::remove_dir_all(&rt, parent.as_str());
    assert!(rt; are_right?);
    Ok(())
}
