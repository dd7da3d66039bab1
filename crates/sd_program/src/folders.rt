//! The folder of a store, opened to be read or written.
ghost use Rattle.std.specs.Prelude.{◌≡◌, IfErr, IfOk};
ghost use Rattle.sd_disk.specs.Folder.{folder_failures, folder_files, outside_of};
ghost use Rattle.sd_program.specs.Folders.{IsUnopened};

use crate::cause::{Advised, Causes, tell};
use sd_disk::{DirDisk, FileFault, Folder, Found, OpenError};
use sd_exit::Stop;
use sd_restore::Fault;
use std::fs::File;
use std::rt::Files;
use std::sync::Wait;
use std::time::{Clock, Duration};
use std::{io, thread};

/// How long a writer waits after each try to open a store whose lock is taken, in milliseconds: a reader asks for it
/// for a moment.
const PAUSES: [u64; 3] = [1, 5, 20];

/// Opens the files of a folder that may be written, also where a reader asks for its lock just then.
fn open_folder<R: Clock + Wait>(
    rt: &(impl Files<File = File> + AllocGlobal),
    clock: &R,
    folder: &str,
) -> Result<Folder, OpenError> {
    for pause in PAUSES {
        match Folder::open(rt, folder, true) {
            Err(OpenError::Folder(fault)) if fault.error.kind() == io::ErrorKind::WouldBlock => {
                thread::sleep(clock, Duration::from_millis(pause));
            }
            ended => return ended,
        }
    }
    Folder::open(rt, folder, true)
}

/// Opens the store in a folder, which is made where it is missing.
pub fn make_store<R: Clock + Wait>(
    rt: &(impl Files<File = File> + Eprint + AllocGlobal),
    clock: &R,
    causes: Causes,
    folder: &str,
    found: &Found,
) -> Result<DirDisk, Stop>
    // Its files are what is found.
    ensures files { IfOk result (λ disk. folder_files disk ≡ (outside_of found.now).found) }
    ensures fresh { IfOk result (λ disk. folder_failures disk ≡ 0) }
    ensures unopened { IfErr result IsUnopened }
{
    let opened = open_folder(rt, clock, folder);
    disk_over(rt, causes, folder, opened, "", found)
}

/// Opens the store in a folder to read it.
pub fn open_store(
    rt: &(impl Files<File = File> + Eprint + AllocGlobal),
    causes: Causes,
    folder: &str,
    found: &Found,
) -> Result<DirDisk, Stop>
    // Its files are what is found.
    ensures files { IfOk result (λ disk. folder_files disk ≡ (outside_of found.now).found) }
    // No call failed yet.
    ensures fresh { IfOk result (λ disk. folder_failures disk ≡ 0) }
    ensures unopened { IfErr result IsUnopened }
{
    let opened = Folder::open(rt, folder, false);
    disk_over(rt, causes, folder, opened, IS_MISSING, found)
}

/// What is reported of a folder that is missing, where none is made.
const IS_MISSING: &str = "; is it the folder that is meant? ckpt run makes one";

/// What is reported of a folder that is none.
const IS_NO_FOLDER: &str = "; DIR is the folder of a store, with the files img-000 to img-063";

/// What may help where a folder isn't opened. Of one that is missing it is what the caller gives.
fn advice_for(fault: &FileFault, missing: &'static str) -> &'static str {
    match (fault.slot, fault.error.kind()) {
        (None, io::ErrorKind::NotFound) => missing,
        (None, io::ErrorKind::NotADirectory) => IS_NO_FOLDER,
        _ => "",
    }
}

/// A disk over the files of a folder, or why they weren't opened.
fn disk_over(
    rt: &impl Eprint,
    causes: Causes,
    folder: &str,
    opened: Result<Folder, OpenError>,
    missing: &'static str,
    found: &Found,
) -> Result<DirDisk, Stop>
    ensures files { IfOk result (λ disk. folder_files disk ≡ (outside_of found.now).found) }
    ensures fresh { IfOk result (λ disk. folder_failures disk ≡ 0) }
    ensures unopened { IfErr result IsUnopened }
{
    match opened {
        Ok(files) => Ok(DirDisk::over(files, found.again())),
        Err(OpenError::OutOfMemory) => Err(Stop::Fault(Fault::OutOfMemory)),
        Err(OpenError::Folder(fault)) => {
            let advice = advice_for(&fault, missing);
            let cause = &fault;
            tell(rt, causes, folder, &Advised { cause, advice });
            Err(Stop::CannotOpenFolder)
        }
    }
}
