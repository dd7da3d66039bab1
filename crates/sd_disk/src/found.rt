//! What a program finds in the files of a folder.
ghost use Rattle.std.specs.Prelude.{◌≡◌, [], length};
ghost use Rattle.sd_disk.specs.Events.{Outside};
ghost use Rattle.sd_disk.specs.declared.folder.TheConstants.{FOLDER_SLOTS};

use crate::folder::{FOLDER_SLOTS, FolderLog};

/// What the files of a folder hold as a program opens them, and what each failed write and cut will leave of them; for
/// clauses alone. It takes no memory. What is promised of a program that is given one is so of each.
#[derive(Drop)]
pub struct Found {
    log: FolderLog,
    ghost fresh: { log.log.trace.events ≡ [] },
    ghost count: { length log.log.trace.outside.found ≡ FOLDER_SLOTS },
}

impl Found {
    ghost use Rattle.sd_disk.specs.Folder.{outside_of};

    /// Any at all.
    pub fn any() -> Found
        ghost outside: { Outside }
        requires { length outside.found ≡ FOLDER_SLOTS }
        ensures { outside_of result ≡ outside }
    {
        Found {
            log: FolderLog::new(),
        }
    }

    /// The same, for another opening.
    pub fn again(&self) -> Found
        ensures { outside_of result ≡ outside_of self.now }
    {
        Found::same_as(self)
    }

    pub(crate) fn into_log(self) -> FolderLog
        ensures log { result ≡ self.log }
        ensures fresh { result.log.trace.events ≡ [] }
        ensures count { length result.log.trace.outside.found ≡ FOLDER_SLOTS }
    {
        self.log
    }

    fn same_as(_found: &Found) -> Found
        ghost outside: { Outside }
        requires is { outside_of _found.now ≡ outside }
        requires count { length outside.found ≡ FOLDER_SLOTS }
        ensures { outside_of result ≡ outside }
    {
        Found::any()
    }
}
