//! `--verbose`: what is logged on the standard error.
ghost use Rattle.std.specs.Prelude.{◌≡◌, ◌<◌, ◌||◌, length};
ghost use Rattle.log.specs.Handle.{max_level};
ghost use Rattle.sd_disk.specs.Reads.{OnlyReads};
ghost use Rattle.sd_disk.specs.Folder.{folder_files};
ghost use Rattle.sd_program.specs.Seen.{within};
ghost use Rattle.sd_program.specs.Verbose.{level_asked};

use crate::logging::{CallLogger, Logging};
use crate::shown::{Shown, shown, unshown};
use log::sink::Console;
use log::{LevelFilter, Logged, info};
use sd_disk::{DirDisk, Disk, Observed, file_len, read_file};
use sd_image::GATE;
use std::fmt::Display;

/// Where records are logged.
pub type Logger<'a> = Logged<&'a HostRuntime, Console<&'a HostRuntime>>;

/// The level that a count of `--verbose` asks for: nothing, then jobs, images and slots, then device calls too.
fn level_of(count: u8) -> LevelFilter
    ensures { result ≡ level_asked count }
{
    match count {
        0 => LevelFilter::Off,
        1 => LevelFilter::Info,
        _ => LevelFilter::Debug,
    }
}

/// A logger of the level that a count of `--verbose` asks for.
pub(crate) fn logger_of(rt: &HostRuntime, count: u8) -> Logger<'_>
    ensures { max_level result ≡ level_asked count }
{
    Logged::new(rt, level_of(count), Console(rt))
}

/// Logs what was done.
pub fn log_info<C: Display>(log: &Logger<'_>, what: &C) {
    info!(log; target: "ckpt", "{what}");
}

/// Whether the gate of a slot is open.
pub fn is_open<D: Disk>(disk: &mut D, slot: usize) -> bool
    requires { slot < length (D.contents disk.old) }
    ensures reads { OnlyReads D.Disk disk.old disk.new }
{
    let mut gate = [0];
    read_file(disk, slot, 0, &mut gate).is_ok() && gate[0] == GATE
}

/// Logs a slot, if its file has any bytes.
fn log_slot<D: Disk>(log: &Logger<'_>, disk: &mut D, slot: usize)
    requires { slot < length (D.contents disk.old) }
    ensures reads { OnlyReads D.Disk disk.old disk.new }
{
    let Ok(length) = file_len(disk, slot) else {
        return;
    };
    if length > 0 {
        let state = if is_open(disk, slot) {
            "open"
        } else {
            "closed"
        };
        info!(log; target: "ckpt", "img-{slot:03}: {state}, {length} bytes");
    }
}

/// Logs each slot.
fn log_slots<D: Disk>(log: &Logger<'_>, disk: &mut D)
    ensures reads { OnlyReads D.Disk disk.old disk.new }
{
    for slot in 0..disk.slots() {
        log_slot(log, disk, slot);
    }
}

/// A disk whose calls are seen: they are logged, and its first reading is shown.
pub type SeenDisk<'a> = Logging<'a, Logger<'a>, Shown<'a, DirDisk>>;

/// What is to be seen of a program on the standard error.
#[derive(Clone, Copy)]
pub struct Seen<'a> {
    pub rt: &'a HostRuntime,
    pub log: &'a Logger<'a>,
    /// Whether anything is logged.
    pub verbose: bool,
    /// Whether it is shown how far the reading is.
    pub shows: bool,
}

impl<'a> Seen<'a> {
    /// Whether anything is to be seen.
    pub fn is_asked(self) -> bool
        ensures { result ≡ self.entry.verbose || self.entry.shows }
    {
        self.verbose || self.shows
    }

    /// A disk of which all of that is seen, after its slots. `does` says what is done with the store.
    pub fn disk(self, does: &'static str, disk: DirDisk) -> SeenDisk<'a>
        // What is looked at before is only read.
        ensures files { folder_files (within result) ≡ folder_files disk }
    {
        let mut disk = disk;
        if self.verbose {
            log_slots(self.log, &mut disk);
        }
        let shown = shown(self.rt, does, self.shows, disk);
        Observed::new(CallLogger { log: self.log }, shown)
    }
}

/// The disk of a folder within.
pub fn unseen(disk: SeenDisk<'_>) -> DirDisk
    ensures { result ≡ within disk.entry }
{
    let (_, shown) = disk.into_parts();
    unshown(shown)
}
