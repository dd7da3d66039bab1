//! How long a file may be written.

use std::fs::{self, Files};
use std::io;

/// Where the system gives the limits of this process.
const LIMITS: &str = "/proc/self/limits";

/// The line of the limit for files (`RLIMIT_FSIZE`): after these words come the limit in force and the greatest.
const FILE_SIZE: &str = "Max file size";

/// The system's error for a file that would be too long (`EFBIG`).
const FILE_TOO_LARGE: i32 = 27;

/// How long a file may be written, in bytes. A write past it would end the process by the signal SIGXFSZ.
#[derive(Clone, Copy, Debug)]
pub struct FileLimit {
    bytes: u64,
}

impl FileLimit {
    /// The limit of this process, or none where it is unlimited or the system doesn't give it.
    pub fn of_process(rt: &(impl Files + AllocGlobal)) -> FileLimit {
        FileLimit {
            bytes: told_limit(rt).unwrap_or(u64::MAX),
        }
    }

    /// Refuses a write that would pass the limit, before it is made.
    ///
    /// # Errors
    ///
    /// `EFBIG`, where the last of `count` bytes from byte `at` on would be past the limit.
    pub fn allow(self, at: usize, count: usize) -> io::Result<()> {
        let end = (at as u64).saturating_add(count as u64);
        if end <= self.bytes {
            Ok(())
        } else {
            Err(io::Error::from_raw_os_error(FILE_TOO_LARGE))
        }
    }
}

/// The limit in force, if there is one.
fn told_limit(rt: &(impl Files + AllocGlobal)) -> Option<u64> {
    let limits = fs::read_to_string(rt, LIMITS).ok()?;
    let told = limits
        .as_str()
        .lines()
        .find_map(|line| line.strip_prefix(FILE_SIZE))?;
    told.split_whitespace().next()?.parse().ok()
}
