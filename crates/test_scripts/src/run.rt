//! Runs of scripts, and what is printed of the stores that they leave.
use sd_disk::{DirDisk, Disk, Folder, MemDisk, OpenError};
use sd_exit::Output;
use sd_readers::{list_to, restore_to, verify_to};
use sd_run::run_script;
use std::alloc::{AllocError, Global};
use std::process::{self, Abort};
use std::test::Fail;
use std::{fs, str};

/// A page that begins with `hello`.
pub(crate) const FIRST: &str = "mmap 1 0x10000 4096 rw => done
store 1 0x10000 68656c6c6f => done
checkpoint 0 => acked 1";

/// What `restore` prints of the store that it leaves.
pub(crate) const FIRST_SHOWN: &str = "checkpoint 1
space 1
area 0x10000 0x11000 rw-
bytes 0x10000 68656c6c6f000000000000000000000000000000000000000000000000000000
";

/// A chain of two images, of which the second leaves its page to the first.
pub(crate) const CHAIN: &str = "mmap 1 0x10000 4096 rw => done
store 1 0x10000 68656c6c6f => done
checkpoint 0 => acked 1
checkpoint 0 => acked 2";

/// What `restore` prints of it.
pub(crate) const CHAIN_SHOWN: &str = "checkpoint 2
space 1
area 0x10000 0x11000 rw-
bytes 0x10000 68656c6c6f000000000000000000000000000000000000000000000000000000
";

/// Room in each slot for an image of the one page, after 4,096 bytes of front and before a table.
pub(crate) const ROOM: usize = 4_096 + 4_096 + 512;

/// An empty disk.
pub(crate) fn empty(alloc: Global) -> Result<MemDisk, Fail> {
    Ok(MemDisk::new(alloc, 8, ROOM, 4_000)?)
}

/// A path in /tmp that no other process uses.
pub(crate) fn path(rt: &HostRuntime, name: &str) -> Result<String, Fail> {
    let id = process::id(rt.process());
    let path = format!(in rt.alloc(); "/tmp/test_scripts-{id}-{name}")?;
    let _ = fs::remove_dir_all(rt, path.as_str());
    Ok(path)
}

/// A disk over a folder, which is made where it is missing.
pub(crate) fn folder(rt: &HostRuntime, path: &str) -> Result<DirDisk, OpenError> {
    Ok(DirDisk::new(Folder::open(rt, path, true)?))
}

/// A script, and what its run prints.
#[derive(Drop)]
struct Told {
    script: String,
    printed: String,
}

impl Told {
    /// The rows' lines and answers; the store is first answered as opened.
    fn new(alloc: Global, opened: &str, rows: &str) -> Result<Self, Fail> {
        let mut told = Told {
            script: String::new(alloc),
            printed: String::from_str(alloc, opened)?,
        };
        told.push_rows(rows)?;
        Ok(told)
    }

    fn push_rows(&mut self, rows: &str) -> Result<(), Fail> {
        self.printed.push_str("\n")?;
        for row in rows.lines() {
            let (line, answer) = row.split_once(" => ").ok_or("a row")?;
            self.push(line, answer)?;
        }
        Ok(())
    }

    fn push(&mut self, line: &str, answer: &str) -> Result<(), AllocError> {
        self.script.push_str(line)?;
        self.script.push_str("\n")?;
        self.printed.push_str(answer)?;
        self.printed.push_str("\n")
    }
}

/// Runs a script over a disk, which prints this and ends with this status, and gives the disk back.
pub(crate) fn prints<D: Disk>(
    rt: &(impl Abort + AllocGlobal),
    disk: D,
    script: &str,
    printed: &str,
    status: u8,
) -> D {
    let mut out = Output::new(Vec::new(rt.alloc()));
    let (disk, ended) = run_script(rt.alloc(), disk, script.as_bytes(), &mut out);
    assert_eq!(rt;
        str::from_utf8(&out.into_writer()).ok(),
        Some(printed),
        "at {script:?}"
    );
    assert_eq!(rt; ended, status, "at {script:?}");
    disk
}

/// Runs rows over a disk, each a line of a script, ` => ` and its answer; the store is first answered as opened.
pub(crate) fn answers<D: Disk + Drop>(
    rt: &(impl Abort + AllocGlobal),
    disk: D,
    opened: &str,
    rows: &str,
) -> Result<D, Fail> {
    let told = Told::new(rt.alloc(), opened, rows)?;
    Ok(prints(rt, disk, told.script.as_str(), told.printed.as_str(), 0))
}

/// The same over an empty disk.
pub(crate) fn fresh(rt: &(impl Abort + AllocGlobal), rows: &str) -> Result<MemDisk, Fail> {
    answers(rt, empty(rt.alloc())?, "reopened none", rows)
}

/// What a program prints of a store, and its exit status.
pub(crate) fn printed<D: Disk>(alloc: Global, disk: &mut D, program: &str) -> (Vec<u8>, u8) {
    let mut out = Output::new(Vec::new(alloc));
    let status = match program {
        "restore" => restore_to(alloc, disk, &mut out),
        "list" => list_to(alloc, disk, &mut out),
        _ => verify_to(alloc, disk, &mut out),
    };
    (out.into_writer(), status)
}

/// A program prints this of a store, and ends with status 0.
pub(crate) fn is_printed<D: Disk>(
    rt: &(impl Abort + AllocGlobal),
    disk: &mut D,
    program: &str,
    wanted: &str,
) {
    let (out, status) = printed(rt.alloc(), disk, program);
    assert_eq!(rt; str::from_utf8(&out).ok(), Some(wanted));
    assert_eq!(rt; status, 0);
}

/// The whole file of a slot.
pub(crate) fn file<D: Disk>(
    rt: &impl Abort,
    alloc: Global,
    disk: &mut D,
    slot: usize,
) -> Result<Vec<u8>, Fail> {
    assert!(rt; slot < disk.slots());
    let len = disk.len(slot)?;
    let mut bytes = vec![in alloc; 0; len]?;
    disk.read(slot, 0, &mut bytes)?;
    Ok(bytes)
}
