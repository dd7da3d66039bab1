//! How a program is called.
ghost use Rattle.std.specs.Prelude.{◌≡◌, ◌<◌, ◌↔◌, false, IfErr, IfOk, IsTrue};
ghost use Rattle.log.specs.Handle.{max_level};
ghost use Rattle.sd_disk.specs.Folder.{folder_failures, folder_files, outside_of};
ghost use Rattle.sd_program.specs.Folders.{IsUnopened};
ghost use Rattle.sd_program.specs.Verbose.{level_asked};

use crate::beside::BESIDE;
use crate::cause::{Causes, tell};
use crate::few_slots::FewSlots;
use crate::folders::{make_store, open_store};
use crate::lacks::report_numbers;
use crate::verbose::{Logger, Seen, logger_of};
use sd_disk::{DirDisk, Found, is_being_written};
use sd_exit::Stop;
use std::fmt::Display;
use std::io::IsTerminal;
use std::sync::Wait;
use std::time::Clock;

/// How a program is called: the folder of its store, what is found there, and what it reports on the standard error.
#[derive(Clone, Copy)]
pub struct Called<'a> {
    pub rt: &'a HostRuntime,
    pub folder: &'a str,
    pub found: &'a Found,
    pub causes: Causes,
    /// How often `--verbose` was given.
    pub verbose: u8,
}

impl<'a> Called<'a> {
    /// Reports a cause that was met at the folder.
    pub fn tell<C: Display>(self, cause: &C) {
        tell(self.rt, self.causes, self.folder, cause);
    }

    /// Reports how many slots are free where fewer are than are needed.
    pub fn report_few(self, slots: FewSlots) {
        if slots.are_few() {
            self.tell(&slots);
        }
    }

    /// Reports what the system answered to the last call that failed, if one did.
    pub fn report_device(self, disk: &DirDisk) {
        if let Some(fault) = disk.fault() {
            self.tell(&fault);
        }
    }

    /// Whether a run is writing the store.
    pub fn is_beside(self) -> bool {
        is_being_written(self.rt, self.folder)
    }

    /// Reports that a run may have disturbed an answer, where one is writing the store.
    pub fn report_beside(self) {
        if self.is_beside() {
            self.tell(&BESIDE);
        }
    }

    /// Reports which checkpoints can be restored, where a store has not the one that was asked for.
    pub fn report_numbers(self, disk: DirDisk) {
        report_numbers(self, disk);
    }

    /// Whether it is shown how far a job is.
    pub fn is_watched(self) -> bool
        ensures kept { self.entry.causes ≡ Causes.Kept → result ≡ false }
    {
        self.causes == Causes::Told && self.rt.stderr().is_terminal()
    }

    /// A logger of the level that is asked for.
    pub fn logger(self) -> Logger<'a>
        ensures { max_level result ≡ level_asked self.entry.verbose }
    {
        logger_of(self.rt, self.verbose)
    }

    /// What is to be seen of a program. `shows` says whether it is shown how far its reading is.
    pub fn seen(self, log: &'a Logger<'a>, shows: bool) -> Seen<'a>
        ensures log { result.log ≡ log.entry }
        ensures verbose { IsTrue result.verbose ↔ (0 < self.entry.verbose) }
        ensures shows { result.shows ≡ shows }
    {
        Seen {
            rt: self.rt,
            log,
            verbose: self.verbose > 0,
            shows,
        }
    }

    /// Opens the store in the folder to read it.
    ///
    /// # Errors
    ///
    /// Where the folder isn't opened, whose cause is reported, and where memory runs out.
    pub fn open_store(self) -> Result<DirDisk, Stop>
        // Its files are what is found.
        ensures files { IfOk result (λ disk. folder_files disk ≡ (outside_of self.entry.found.now).found) }
        // No call failed yet.
        ensures fresh { IfOk result (λ disk. folder_failures disk ≡ 0) }
        ensures unopened { IfErr result IsUnopened }
    {
        open_store(self.rt, self.causes, self.folder, self.found)
    }

    /// Opens the store in the folder, which is made where it is missing.
    ///
    /// # Errors
    ///
    /// Those of `open_store`.
    pub fn make_store<R: Clock + Wait>(self, clock: &R) -> Result<DirDisk, Stop>
        ensures files { IfOk result (λ disk. folder_files disk ≡ (outside_of self.entry.found.now).found) }
        ensures fresh { IfOk result (λ disk. folder_failures disk ≡ 0) }
        ensures unopened { IfErr result IsUnopened }
    {
        make_store(self.rt, clock, self.causes, self.folder, self.found)
    }
}
