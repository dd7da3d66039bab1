//! The slots' files of a folder, and the calls on them. `None` is a file that is missing.
ghost use Rattle.std.specs.Prelude.{◌≡◌, ◌<◌, ◌-◌, ◌^◌, ◌∷◌, [], min, length, slice_index_or, MatchResult};
ghost use Rattle.sd_disk.specs.Events.{Outside, failures_in};
ghost use Rattle.sd_disk.specs.declared.call.Call.TheVariants.{Measured, Read, Written, Cut, Synced, Failed};
ghost use Rattle.sd_disk.specs.declared.call.Call.TheVariants.{WriteFailed, CutFailed};
ghost use Rattle.sd_disk.specs.declared.folder.TheConstants.{FOLDER_SLOTS};

use crate::call::Call;
use crate::call_log::CallLog;
use crate::file_fault::FileFault;
use crate::file_limit::FileLimit;
use crate::open_error::OpenError;
use crate::retry::uninterrupted;
use crate::slot_files::{make_missing, of_folder, open_own, open_present, prepare, sync_folder};
use std::fs::File;
use std::io::{self, Seek, SeekFrom};
use std::os::unix::fs::FileExt;
use std::rt::Files;

/// How many slots a folder has.
pub const FOLDER_SLOTS: usize = 64;

/// The slots' files `img-000` to `img-063` in a folder, opened once. One that may be written keeps an advisory lock on
/// the folder, which ends with it, also where the program is killed.
#[derive(Drop)]
pub struct Folder {
    images: Vec<Option<File>>,
    lock: Option<File>,
    limit: FileLimit,
    ghost count: { length images.items ≡ FOLDER_SLOTS },
}

impl Folder {
    ghost use Rattle.std.specs.Prelude.{IfOk};
    ghost use Rattle.sd_disk.specs.Folder.{folder_slots};

    /// Opens the files. With `make` they may be written: the folder, its parents and the files that are missing are
    /// made and their names synced, and another folder that may be written is refused meanwhile. The folders above one
    /// that is there are synced too, as far as they can be: nobody knows whether the run that made one lived to do so.
    /// Without `make` the files are opened for reading alone, nothing is made, and the folder has to be there.
    ///
    /// # Errors
    ///
    /// The folder or the first file at fault, with what the system answered: it can't be made, opened or synced; a file
    /// isn't regular, or is a symbolic link that leads nowhere; with `make`, another folder has the lock, or a file has
    /// another name or is that of two slots, since a run would change both. No file was made or changed where a file
    /// that is there is at fault. Out of memory where the list of files found no room.
    pub fn open(
        rt: &(impl Files<File = File> + AllocGlobal),
        path: &str,
        make: bool,
    ) -> Result<Folder, OpenError>
        ensures { IfOk result (λ folder. folder_slots folder ≡ FOLDER_SLOTS) }
    {
        let lock = prepare(rt, path, make)?;
        let images = if make {
            let mut images = open_own(rt, path)?;
            make_missing(rt, path, &mut images)?;
            sync_folder(rt, path).map_err(of_folder)?;
            images
        } else {
            open_present(rt, path)?
        };
        let limit = FileLimit::of_process(rt);
        Ok(Folder {
            images,
            lock,
            limit,
        })
    }

    pub(crate) fn slots(&self) -> usize
        ensures count { result ≡ folder_slots self.now }
        ensures fixed { result ≡ FOLDER_SLOTS }
    {
        self.images.len()
    }

    fn image(&self, slot: usize) -> &Option<File>
        requires { slot < length self.now.images.items }
        ensures { result.now ≡ slice_index_or self.now.images.items slot result.now }
    {
        &self.images[slot]
    }
}

/// A call that was made on a slot's file, and how it ended. The five functions below alone make one.
#[derive(Drop)]
pub(crate) struct Made {
    call: Call,
    fault: Option<FileFault>,
}

impl Made {
    ghost use Rattle.std.specs.Prelude.{◌≡◌};

    fn done(call: Call) -> Made
        ensures { result.call ≡ call }
    {
        Made { call, fault: None }
    }

    fn failed(call: Call, slot: usize, error: io::Error) -> Made
        ensures { result.call ≡ call }
    {
        Made {
            call,
            fault: Some(FileFault::of_slot(slot, error)),
        }
    }
}

/// The record of the calls on a folder. It takes calls that were made, and no others.
#[derive(Drop)]
pub(crate) struct FolderLog {
    log: CallLog,
    fault: Option<FileFault>,
}

impl FolderLog {
    pub(crate) fn new() -> FolderLog
        ghost outside: { Outside }
        ensures outside { result.log.trace.outside ≡ outside }
        ensures empty { result.log.trace.events ≡ [] }
    {
        FolderLog {
            log: CallLog::new(),
            fault: None,
        }
    }

    /// What the system answered to the last call that failed, if one did.
    pub(crate) fn fault(&self) -> Option<FileFault> {
        self.fault
    }

    /// The number of failed calls, as far as 64 bits hold it.
    pub(crate) fn failures(&self) -> u64
        ensures { result ≡ min (failures_in self.now.log.trace.events) (2 ^ 64 - 1) }
    {
        self.log.failures()
    }

    /// Notes a call that was made, with the bytes that it carried.
    pub(crate) fn note(&mut self, made: Made, bytes: &[u8])
        ensures outside { self.new.log.trace.outside ≡ self.old.log.trace.outside }
        ensures events { self.new.log.trace.events
            ≡ (made.call, bytes.now) ∷ self.old.log.trace.events }
    {
        if made.fault.is_some() {
            self.fault = made.fault;
        }
        self.log.note(&made.call, bytes);
    }
}

/// The length of a slot's file.
pub(crate) fn len(folder: &Folder, slot: usize) -> Result<(usize, Made), Made>
    requires { slot < length folder.now.images.items }
    ensures { MatchResult result (λ told. told.1.call ≡ Measured slot told.0)
        (λ made. made.call ≡ Failed) }
{
    match len_of(folder.image(slot)) {
        Ok(len) => Ok((len, Made::done(Call::Measured { slot, len }))),
        Err(error) => Err(Made::failed(Call::Failed, slot, error)),
    }
}

/// Fills the buffer from byte `at` of a slot's file on.
pub(crate) fn read(folder: &Folder, slot: usize, at: usize, buffer: &mut [u8]) -> Result<Made, Made>
    requires { slot < length folder.now.images.items }
    ensures { MatchResult result (λ made. made.call ≡ Read slot at) (λ made. made.call ≡ Failed) }
{
    match read_from(folder.image(slot), at, buffer) {
        Ok(()) => Ok(Made::done(Call::Read { slot, at })),
        Err(error) => Err(Made::failed(Call::Failed, slot, error)),
    }
}

/// Writes the bytes at `at` of a slot's file.
pub(crate) fn write(folder: &Folder, slot: usize, at: usize, bytes: &[u8]) -> Result<Made, Made>
    requires { slot < length folder.now.images.items }
    ensures { MatchResult result (λ made. made.call ≡ Written slot at)
        (λ made. made.call ≡ WriteFailed slot at) }
{
    match write_to(folder.image(slot), folder.limit, at, bytes) {
        Ok(()) => Ok(Made::done(Call::Written { slot, at })),
        Err(error) => {
            let call = Call::WriteFailed { slot, at };
            Err(Made::failed(call, slot, error))
        }
    }
}

/// Cuts a slot's file to `len` bytes.
pub(crate) fn cut(folder: &Folder, slot: usize, len: usize) -> Result<Made, Made>
    requires { slot < length folder.now.images.items }
    ensures { MatchResult result (λ made. made.call ≡ Cut slot len)
        (λ made. made.call ≡ CutFailed slot len) }
{
    match cut_to(folder.image(slot), len) {
        Ok(()) => Ok(Made::done(Call::Cut { slot, len })),
        Err(error) => Err(Made::failed(Call::CutFailed { slot, len }, slot, error)),
    }
}

/// Waits until a slot's file is on the device.
pub(crate) fn sync(folder: &Folder, slot: usize) -> Result<Made, Made>
    requires { slot < length folder.now.images.items }
    ensures { MatchResult result (λ made. made.call ≡ Synced slot) (λ made. made.call ≡ Failed) }
{
    match sync_of(folder.image(slot)) {
        Ok(()) => Ok(Made::done(Call::Synced { slot })),
        Err(error) => Err(Made::failed(Call::Failed, slot, error)),
    }
}

fn len_of(image: &Option<File>) -> io::Result<usize> {
    match image {
        Some(file) => Ok(uninterrupted(|| end_of(file))? as usize),
        None => Ok(0),
    }
}

/// Where a file ends. Each read and write here names its own place, so it's free to move there.
fn end_of(mut file: &File) -> io::Result<u64> {
    file.seek(SeekFrom::End(0))
}

fn read_from(image: &Option<File>, at: usize, buffer: &mut [u8]) -> io::Result<()> {
    match image {
        Some(file) => file.read_exact_at(buffer, at as u64),
        None if buffer.is_empty() => Ok(()),
        None => Err(io::ErrorKind::NotFound.into()),
    }
}

fn write_to(image: &Option<File>, limit: FileLimit, at: usize, bytes: &[u8]) -> io::Result<()> {
    limit.allow(at, bytes.len())?;
    present(image)?.write_all_at(bytes, at as u64)
}

/// A file that is missing has been cut to 0 bytes already. The system would lengthen a shorter file by zeros, so its
/// length is asked first.
fn cut_to(image: &Option<File>, size: usize) -> io::Result<()> {
    if size > len_of(image)? {
        return Err(io::ErrorKind::InvalidInput.into());
    }
    match image {
        Some(file) => uninterrupted(|| file.set_len(size as u64)),
        None => Ok(()),
    }
}

fn sync_of(image: &Option<File>) -> io::Result<()> {
    match image {
        Some(file) => uninterrupted(|| file.sync_all()),
        None => Ok(()),
    }
}

fn present(image: &Option<File>) -> io::Result<&File> {
    image.as_ref().ok_or(io::ErrorKind::NotFound.into())
}
