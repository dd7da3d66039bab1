use std::{fmt, io};

/// What the system answered to a call that failed, and on which file.
#[derive(Clone, Copy, Debug)]
pub struct FileFault {
    /// The slot whose file it was, or none where it was the folder.
    pub slot: Option<usize>,
    pub error: io::Error,
}

impl fmt::Display for FileFault {
    fn fmt<W: fmt::Write>(&self, f: &mut fmt::Formatter<W>) -> fmt::Result {
        match self.slot {
            Some(slot) => write!(f, "img-{slot:03}: {}", self.error),
            None => write!(f, "{}", self.error),
        }
    }
}

impl FileFault {
    /// The folder itself was at fault.
    pub(crate) fn of_folder(error: io::Error) -> FileFault {
        FileFault { slot: None, error }
    }

    /// A slot's file was at fault.
    pub(crate) fn of_slot(slot: usize, error: io::Error) -> FileFault {
        FileFault {
            slot: Some(slot),
            error,
        }
    }
}
