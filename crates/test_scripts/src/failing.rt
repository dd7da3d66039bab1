//! Writers and devices that fail while a store is read.
use crate::run::{CHAIN, FIRST, FIRST_SHOWN, fresh, printed};
use sd_disk::{Disk, Fused};
use sd_exit::Output;
use sd_readers::restore_to;
use sd_run::run_script;
use std::alloc::Global;
use std::io;
use std::process::Abort;
use std::test::Fail;

/// A writer that takes so many bytes and then fails.
#[derive(Drop)]
struct Failing {
    left: usize,
}

impl io::Write for Failing {
    fn write(&mut self, bytes: &[u8]) -> io::Result<usize> {
        if self.left < bytes.len() {
            return Err(io::ErrorKind::WriteZero.into());
        }
        self.left -= bytes.len();
        Ok(bytes.len())
    }

    fn flush(&mut self) -> io::Result<()> {
        Ok(())
    }
}

/// What a run over checkpoint 1 prints.
const LOADED: &str = "reopened 1\nbytes 68656c6c6f\nrefused 11 busy\n";

/// The status of a run over checkpoint 1 whose writer fails after so many bytes.
fn status_behind(rt: &(impl Abort + AllocGlobal), left: usize) -> Result<u8, Fail> {
    let script = b"load 1 0x10000 5\nreopen\n";
    let disk = fresh(rt, FIRST)?;
    let (_, status) = run_script(rt.alloc(), disk, script, &mut Output::new(Failing { left }));
    Ok(status)
}

#[test]
fn a_writer_that_fails_ends_the_run(rt: HostRuntime) -> Result<(), Fail> {
    for left in 0..LOADED.len() {
        assert_eq!(rt; status_behind(&rt, left)?, 1);
    }
    assert_eq!(rt; status_behind(&rt, LOADED.len())?, 0);
    Ok(())
}

/// The status of `restore` whose writer fails after so many bytes.
fn restored_behind<D: Disk>(alloc: Global, disk: &mut D, left: usize) -> u8 {
    restore_to(alloc, disk, &mut Output::new(Failing { left }))
}

/// A restore ends with status 1 where its writer fails at any byte.
fn fails_at_each_byte<D: Disk>(rt: &(impl Abort + AllocGlobal), disk: &mut D) {
    for left in 0..FIRST_SHOWN.len() {
        assert_eq!(rt; restored_behind(rt.alloc(), disk, left), 1);
    }
    assert_eq!(rt; restored_behind(rt.alloc(), disk, FIRST_SHOWN.len()), 0);
}

#[test]
fn a_writer_that_fails_ends_the_restore(rt: HostRuntime) -> Result<(), Fail> {
    let mut disk = fresh(&rt, FIRST)?;
    fails_at_each_byte(&rt, &mut disk);
    Ok(())
}

/// How many calls the programs make over a chain of two images in eight slots before they print anything: each slot's
/// length is read, and of the two open ones the front; and then again each length, of the open ones the header and the
/// table, and of the first its data page for its digest.
const SILENT_CALLS: u64 = 10 + 13;

/// How many they make in all: of a restored memory also its page is read, after the lines of its area; and at last
/// again each length and front.
const CALLS: [(&str, u64); 3] = [
    ("restore", SILENT_CALLS + 1 + 10),
    ("list", SILENT_CALLS + 10),
    ("verify", SILENT_CALLS + 10),
];

/// What a program prints of the chain when a call after so many fails, and its exit status.
fn printed_behind(
    rt: &(impl Abort + AllocGlobal),
    program: &str,
    calls: u64,
) -> Result<(Vec<u8>, u8), Fail> {
    let mut disk = Fused::new(fresh(rt, CHAIN)?, calls);
    Ok(printed(rt.alloc(), &mut disk, program))
}

/// Whether a program ends with the failure of its device, which stands alone before anything is printed.
fn ends_with_device(
    rt: &(impl Abort + AllocGlobal),
    program: &str,
    call: u64,
) -> Result<bool, Fail> {
    let (out, status) = printed_behind(rt, program, call)?;
    let is_told = out.as_slice().ends_with("device\n".as_bytes());
    Ok(status == 1 && is_told && (call >= SILENT_CALLS || out.len() == 7))
}

/// Each of so many calls of a program fails in turn; with one more nothing fails.
fn fails_at_each_call(
    rt: &(impl Abort + AllocGlobal),
    program: &str,
    calls: u64,
) -> Result<(), Fail> {
    for call in 0..calls {
        assert!(rt; ends_with_device(rt, program, call)?, "{program} {call}");
    }
    assert_eq!(rt; printed_behind(rt, program, calls)?.1, 0);
    Ok(())
}

#[test]
fn each_read_fails_in_turn(rt: HostRuntime) -> Result<(), Fail> {
    for (program, calls) in CALLS {
        fails_at_each_call(&rt, program, calls)?;
    }
    Ok(())
}
