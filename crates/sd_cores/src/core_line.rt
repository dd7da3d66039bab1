//! How far the reading of a core file is that takes long, as a line on a terminal.
ghost use Rattle.std.specs.Prelude.{◌≡◌};

use sd_areas::PAGE_SIZE;
use sd_elf::CoreFile;
use sd_program::{CLEAR, Done, Pace};
use std::cell::Cell;
use std::fs::File;
use std::io;
use std::io::Write;
use std::time::Duration;

/// How many pages are read between two looks at the clock.
const PAGES_A_LOOK: u64 = 64;

/// How often each page of a core is read: as it is imported, and as the space is compared with it.
const READINGS: u64 = 2;

/// A core file whose reading is shown where it is on.
#[derive(Drop)]
pub struct ShownCore<'r, 'f> {
    rt: &'r HostRuntime,
    file: &'f File,
    is_on: bool,
    /// How many pages are read in all.
    of: u64,
    done: Cell<u64>,
    pace: Cell<Pace>,
    is_shown: Cell<bool>,
}

impl<'r, 'f> ShownCore<'r, 'f> {
    /// A core file of which nothing was read yet.
    pub fn new(rt: &'r HostRuntime, file: &'f File, is_on: bool) -> Self
        ensures file { result.file ≡ file.entry }
        ensures shows { result.is_on ≡ is_on }
    {
        let size = file.size().unwrap_or(0);
        ShownCore {
            rt,
            file,
            is_on,
            of: (size / PAGE_SIZE as u64).saturating_mul(READINGS),
            done: Cell::new(0),
            pace: Cell::new(Pace::IDLE),
            is_shown: Cell::new(false),
        }
    }

    /// Counts a page that was read.
    fn count(&self) {
        let done = self.done.get().saturating_add(1);
        self.done.set(done);
        if !self.is_on || done % PAGES_A_LOOK != 0 {
            return;
        }
        let mut pace = self.pace.get();
        let due = pace.due(self.rt);
        self.pace.set(pace);
        if let Some(took) = due {
            // A line that can't be written is no fault of the import.
            let _ = self.write(took);
        }
    }

    /// Writes the line over the one that stands there.
    fn write(&self, took: Duration) -> io::Result<()> {
        let done = Done {
            done: u128::from(self.done.get()),
            of: u128::from(self.of),
            took,
        };
        self.is_shown.set(true);
        let mut line = Vec::new(self.rt.alloc());
        write!(line, "{CLEAR}import: {done}")?;
        self.rt.stderr().write_all(&line)
    }

    /// Clears the line.
    pub fn clear(&self) {
        if self.is_shown.get() {
            let _ = self.rt.stderr().write_all(CLEAR.as_bytes());
        }
    }
}

/// No contract says what the file within holds.
impl CoreFile for ShownCore<'_, '_> {
    ghost use Rattle.std.specs.Prelude.{None};

    ghost bytes = { λ _. None };

    fn size(&self) -> io::Result<u64> {
        self.file.size()
    }

    fn read_at(&self, place: u64, buffer: &mut [u8]) -> io::Result<()> {
        self.count();
        self.file.read_at(place, buffer)
    }
}
