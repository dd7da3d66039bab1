//! A disk over the files of a folder.
ghost use Rattle.std.specs.Prelude.{◌≡◌, length};
ghost use Rattle.sd_disk.specs.Events.{Outside};

use crate::disk::Disk;
use crate::error::DeviceError;
use crate::file_fault::FileFault;
use crate::folder::{self, FOLDER_SLOTS, Folder, FolderLog};
use crate::found::Found;

/// A disk over the slots' files in a folder. A file that is missing has length 0, and a write to it fails.
///
/// Each method makes one call on a file and notes it in the log, which takes only calls that were made. No contract
/// says what a real file gives. So `is_honest` is a premise: each length and each byte that came back was that of the
/// files by the log, and no file was shorter than what it was cut to.
#[derive(Drop)]
pub struct DirDisk {
    folder: Folder,
    log: FolderLog,
    ghost one_each: { length log.log.trace.outside.found ≡ length folder.images.items },
}

impl DirDisk {
    ghost use Rattle.sd_disk.specs.Folder.{folder_files, folder_failures, outside_of};

    /// The disk of an open folder: slot N is its file `img-NNN`, and a slot without a file has length 0. Each call of
    /// `Disk` is one call of the system on that file. After a failed one, `fault` says what the system answered. What
    /// a program left unsynced may be lost by a crash until the slot is synced: `World::open` syncs each.
    ///
    /// `outside` stands for what the files hold, and for what each failed write and cut will leave of them.
    pub fn new(folder: Folder) -> DirDisk
        ghost outside: { Outside }
        requires { length outside.found ≡ FOLDER_SLOTS }
        ensures found { folder_files result ≡ outside.found }
        ensures failed { folder_failures result ≡ 0 }
    {
        DirDisk {
            folder,
            log: FolderLog::new(),
        }
    }

    /// The same, with what is found there as a value that a caller hands down.
    pub fn over(folder: Folder, found: Found) -> DirDisk
        ensures found { folder_files result ≡ (outside_of found).found }
        ensures failed { folder_failures result ≡ 0 }
    {
        let log = found.into_log();
        DirDisk { folder, log }
    }

    /// What the system answered to the last call that failed, if one did.
    pub fn fault(&self) -> Option<FileFault> {
        self.log.fault()
    }
}

impl Disk for DirDisk {
    ghost use Rattle.std.specs.Prelude.{◌+◌, ◌<◌, [], ◌∷◌, OnOk};
    ghost use Rattle.sd_disk.specs.declared.call.Call.TheVariants.{Synced};
    ghost use Rattle.sd_disk.specs.Failures.{HasCause};
    ghost use Rattle.sd_disk.specs.Contents.{file_at};
    ghost use Rattle.sd_disk.specs.Crash.{Within, OnlyAt, Elapses};
    ghost use Rattle.sd_disk.specs.Folder.{folder_files, folder_events, folder_failures, folder_called, IsFolderHonest};
    ghost use Rattle.sd_disk.specs.Folder.{folder_may_leave, folder_moment, folder_left_since};
    ghost use Rattle.sd_disk.specs.Moments.{counts_now, only_now};

    ghost contents = { folder_files };

    ghost may_leave = { folder_may_leave };

    ghost moment = { folder_moment };

    ghost left_since = { folder_left_since };

    ghost failed = { folder_failures };

    ghost calls = { folder_called };

    ghost is_honest = { IsFolderHonest };

    ghost as_read = { λ disk. disk.log.log.as_read };

    ghost same_slots = { λ disk c left. left.count };

    ghost counts_now = { λ disk t c since now. counts_now disk.log.log.trace.outside
        (folder_events disk) t c since now };

    ghost only_now = { λ disk c left. only_now disk.log.log.trace.outside (folder_events disk) c left };

    #[tactic(auto, using(crate::proofs::FolderLemmas::length_files))]
    fn slots(&self) -> usize {
        self.folder.slots()
    }

    fn failures(&self) -> u64 {
        self.log.failures()
    }

    #[tactic(auto, using(crate::proofs::FolderLemmas::length_files))]
    fn len(&mut self, slot: usize) -> Result<usize, DeviceError> {
        match folder::len(&self.folder, slot) {
            Ok((len, made)) => {
                self.log.note(made, &[]);
                Ok(len)
            }
            Err(made) => {
                self.log.note(made, &[]);
                Err(DeviceError)
            }
        }
    }

    #[tactic(auto, using(crate::proofs::FolderLemmas::length_files))]
    fn read(&mut self, slot: usize, at: usize, buffer: &mut [u8]) -> Result<(), DeviceError> {
        match folder::read(&self.folder, slot, at, buffer) {
            Ok(made) => {
                self.log.note(made, buffer);
                Ok(())
            }
            Err(made) => {
                self.log.note(made, &[]);
                Err(DeviceError)
            }
        }
    }

    #[tactic(auto, using(crate::proofs::FolderLemmas::length_files))]
    fn write_at(&mut self, slot: usize, at: usize, bytes: &[u8]) -> Result<(), DeviceError> {
        match folder::write(&self.folder, slot, at, bytes) {
            Ok(made) => {
                self.log.note(made, bytes);
                Ok(())
            }
            Err(made) => {
                self.log.note(made, bytes);
                Err(DeviceError)
            }
        }
    }

    #[tactic(auto, using(crate::proofs::FolderLemmas::length_files))]
    fn cut(&mut self, slot: usize, len: usize) -> Result<(), DeviceError> {
        match folder::cut(&self.folder, slot, len) {
            Ok(made) => {
                self.log.note(made, &[]);
                Ok(())
            }
            Err(made) => {
                self.log.note(made, &[]);
                Err(DeviceError)
            }
        }
    }

    #[tactic(auto, using(crate::proofs::FolderLemmas::length_files))]
    fn sync(&mut self, slot: usize) -> Result<(), DeviceError>
        requires { slot < length (folder_files self.old) }
        ensures noted { OnOk result
            (folder_events self.new ≡ (Synced slot, []) ∷ folder_events self.old) }
        ensures durable { OnOk result
            (OnlyAt slot (file_at (folder_files self.old) slot) (folder_may_leave self.new)) }
        ensures same { folder_files self.new ≡ folder_files self.old }
        ensures crash { Within (folder_may_leave self.new) (folder_may_leave self.old) }
        ensures time { Elapses (folder_moment self.old) (folder_moment self.new)
            (folder_left_since self.old) (folder_left_since self.new) (folder_may_leave self.new) }
        ensures honest { IsFolderHonest self.new → IsFolderHonest self.old }
        ensures counted { folder_called self.new ≡ folder_called self.old + 1 }
        ensures cause { HasCause (folder_failures self.old) (folder_failures self.new) result }
    {
        match folder::sync(&self.folder, slot) {
            Ok(made) => {
                self.log.note(made, &[]);
                Ok(())
            }
            Err(made) => {
                self.log.note(made, &[]);
                Err(DeviceError)
            }
        }
    }
}
