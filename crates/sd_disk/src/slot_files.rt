//! The folder of a store and its slots' files: how they are made and opened.
ghost use Rattle.std.specs.Prelude.{◌≡◌, length, IfOk};
ghost use Rattle.sd_disk.specs.declared.folder.TheConstants.{FOLDER_SLOTS};

use crate::file_fault::FileFault;
use crate::folder::FOLDER_SLOTS;
use crate::open_error::OpenError;
use crate::retry::uninterrupted;
use std::alloc::Global;
use std::fs::{File, Metadata, OpenOptions, TryLockError};
use std::io::Read;
use std::os::unix::fs::MetadataExt;
use std::rt::Files;
use std::{fs, io};

/// What is said of a store's folder that another run has locked.
const STORE_IS_OPEN: &str = "another run has this store open; try again when it has ended";

pub(crate) fn of_folder(error: io::Error) -> OpenError {
    OpenError::Folder(FileFault::of_folder(error))
}

fn of_slot(slot: usize, error: io::Error) -> OpenError {
    OpenError::Folder(FileFault::of_slot(slot, error))
}

/// How many folders above a store are looked at: a path has no room for more.
const ANCESTORS: usize = 4_096 / 3;

/// Makes the folder and locks it, or sees that it is there. One that may be written has its name on the device, and the
/// names of the folders above it, as far as they can be synced.
pub(crate) fn prepare(
    rt: &(impl Files<File = File> + AllocGlobal),
    folder: &str,
    make: bool,
) -> Result<Option<File>, OpenError> {
    if make {
        make_folders(rt, folder).map_err(of_folder)?;
        sync_ancestors(rt, folder)?;
        let lock = lock_folder(rt, folder, STORE_IS_OPEN);
        return lock.map(Some).map_err(of_folder);
    }
    match look(rt, folder) {
        Ok(found) if found.is_dir() => Ok(None),
        Ok(_) => Err(of_folder(io::ErrorKind::NotADirectory.into())),
        Err(error) => Err(of_folder(error)),
    }
}

/// Syncs each folder above a folder, from the one in which it stands to the root: another run may have made one of
/// them, and been killed before its name was on the device. One that can't be opened or synced is passed over.
fn sync_ancestors(
    rt: &(impl Files<File = File> + AllocGlobal),
    folder: &str,
) -> Result<(), OpenError> {
    let mut path = String::from_str(rt.alloc(), folder)?;
    let mut below = None;
    for _ in 0..ANCESTORS {
        path.push_str("/..")?;
        let here = id_at(rt, path.as_str());
        if here.is_none() || here == below {
            break;
        }
        let _ = sync_folder(rt, path.as_str());
        below = here;
    }
    Ok(())
}

/// Which file a path leads to, if it can be looked at.
fn id_at(rt: &impl Files, path: &str) -> Option<FileId> {
    look(rt, path).ok().map(|found| FileId::of(&found))
}

/// What the system says of a path, following symbolic links.
fn look(rt: &impl Files, path: &str) -> io::Result<Metadata> {
    uninterrupted(|| fs::metadata(rt, path))
}

/// Whether a path is that of a folder, following symbolic links.
fn is_folder(rt: &impl Files, path: &str) -> bool {
    look(rt, path).is_ok_and(|found| found.is_dir())
}

/// Makes each folder of a path that is missing, and waits until its name is on the device.
///
/// # Errors
///
/// What the system answered for the first folder that can't be made, or whose name can't be synced.
pub fn make_folders(rt: &impl Files<File = File>, path: &str) -> io::Result<()> {
    match uninterrupted(|| fs::create_dir(rt, path)) {
        Ok(()) => sync_folder(rt, parent_of(path)),
        Err(_) if is_folder(rt, path) => Ok(()),
        Err(_) => make_each_folder(rt, path),
    }
}

/// Makes the folders of a path one after another, from the first on.
fn make_each_folder(rt: &impl Files<File = File>, path: &str) -> io::Result<()> {
    for (end, byte) in path.bytes().enumerate() {
        if byte == b'/' && end > 0 {
            make_folder(rt, path.get(..end).unwrap_or(path))?;
        }
    }
    make_folder(rt, path)
}

fn make_folder(rt: &impl Files<File = File>, path: &str) -> io::Result<()> {
    match uninterrupted(|| fs::create_dir(rt, path)) {
        Ok(()) => sync_folder(rt, parent_of(path)),
        Err(_) if is_folder(rt, path) => Ok(()),
        Err(error) if error.kind() == io::ErrorKind::AlreadyExists => {
            Err(io::ErrorKind::NotADirectory.into())
        }
        Err(error) => Err(error),
    }
}

/// Takes the advisory lock of a folder, which ends with the file that is returned (`flock`).
///
/// # Errors
///
/// `WouldBlock` with the text `taken` where another program has the lock; else what the system answered.
pub fn lock_folder(
    rt: &impl Files<File = File>,
    folder: &str,
    taken: &'static str,
) -> io::Result<File> {
    let lock = uninterrupted(|| File::open(rt, folder))?;
    match lock.try_lock() {
        Ok(()) => Ok(lock),
        Err(TryLockError::WouldBlock) => Err(io::Error::new(io::ErrorKind::WouldBlock, taken)),
        Err(TryLockError::Error(error)) => Err(error),
    }
}

/// Whether a run has the lock of a folder now. It asks for the lock, and gives it back at once. What isn't a folder has
/// none, and isn't opened: a named pipe would be waited for.
pub fn is_being_written(rt: &impl Files<File = File>, folder: &str) -> bool {
    if !is_folder(rt, folder) {
        return false;
    }
    match uninterrupted(|| File::open(rt, folder)) {
        Ok(lock) => matches!(lock.try_lock_shared(), Err(TryLockError::WouldBlock)),
        Err(_) => false,
    }
}

/// The folder in which a path's last name stands.
fn parent_of(path: &str) -> &str {
    match path.trim_end_matches('/').rsplit_once('/') {
        Some((parent, _)) if parent.is_empty() => "/",
        Some((parent, _)) => parent,
        None => ".",
    }
}

/// Waits until the names in a folder are on the device.
pub(crate) fn sync_folder(rt: &impl Files<File = File>, path: &str) -> io::Result<()> {
    let folder = uninterrupted(|| File::open(rt, path))?;
    uninterrupted(|| folder.sync_all())
}

/// The path of a slot's file.
fn path_of(alloc: Global, folder: &str, slot: usize) -> Result<String, OpenError> {
    format!(in alloc; "{folder}/img-{slot:03}").map_err(|_| OpenError::OutOfMemory)
}

/// Opens the slots' files that are there, for reading alone.
pub(crate) fn open_present(
    rt: &(impl Files<File = File> + AllocGlobal),
    folder: &str,
) -> Result<Vec<Option<File>>, OpenError>
    ensures { IfOk result (λ images. length images.items ≡ FOLDER_SLOTS) }
{
    let mut seen = SeenFiles::new(rt.alloc())?;
    open_files(rt, folder, false, &mut seen)
}

/// Opens the slots' files that are there, to be written. Each is its slot's alone: it has no other name, and is no
/// other slot's. An empty folder isn't asked for each of them.
pub(crate) fn open_own(
    rt: &(impl Files<File = File> + AllocGlobal),
    folder: &str,
) -> Result<Vec<Option<File>>, OpenError>
    ensures { IfOk result (λ images. length images.items ≡ FOLDER_SLOTS) }
{
    let mut seen = SeenFiles::new(rt.alloc())?;
    seen.are_none = is_empty(rt, folder);
    let images = open_files(rt, folder, true, &mut seen)?;
    if seen.are_shared {
        are_own(rt.alloc(), &images)?;
    }
    Ok(images)
}

/// Opens the slots' files that are there, for reading alone unless they may be written.
fn open_files(
    rt: &(impl Files<File = File> + AllocGlobal),
    folder: &str,
    write: bool,
    seen: &mut SeenFiles,
) -> Result<Vec<Option<File>>, OpenError>
    ensures { IfOk result (λ images. length images.items ≡ FOLDER_SLOTS) }
{
    let mut images = Vec::with_capacity(rt.alloc(), FOLDER_SLOTS)?;
    for slot in 0..FOLDER_SLOTS {
        images.push(open_slot(rt, folder, slot, write, seen)?)?;
    }
    Ok(images)
}

/// Opens a slot's file, or says that it is missing.
fn open_slot(
    rt: &(impl Files<File = File> + AllocGlobal),
    folder: &str,
    slot: usize,
    write: bool,
    seen: &mut SeenFiles,
) -> Result<Option<File>, OpenError> {
    if seen.are_none {
        return Ok(None);
    }
    let path = path_of(rt.alloc(), folder, slot)?;
    let path = path.as_str();
    let Some(found) = file_at(rt, path).map_err(|error| of_slot(slot, error))? else {
        return Ok(None);
    };
    let file = open_found(rt, path, write).map_err(|error| of_slot(slot, error))?;
    seen.note(&found)?;
    Ok(Some(file))
}

/// Whether a folder has no name in it but its own two. One that can't be read is taken to have some.
fn is_empty(rt: &impl Files, folder: &str) -> bool {
    match rt.open_dir(folder) {
        Ok(mut names) => has_no_name(&mut names).unwrap_or(false),
        Err(_) => false,
    }
}

/// Whether an open folder reads as `.` and `..` alone, at most one of them in a read.
fn has_no_name(names: &mut impl Read) -> io::Result<bool> {
    let mut bytes = [0; 256];
    for _ in 0..3 {
        let count = names.read(&mut bytes)?;
        if count == 0 {
            return Ok(true);
        }
        if bytes
            .iter()
            .take(count)
            .any(|byte| *byte != b'.' && *byte != 0)
        {
            return Ok(false);
        }
    }
    Ok(false)
}

/// What the system says of the file at a path, if there is one. A symbolic link leads to it.
fn file_at(rt: &impl Files, path: &str) -> io::Result<Option<Metadata>> {
    match entry_of(rt, path)? {
        None => Ok(None),
        Some(entry) if entry.is_file() => Ok(Some(entry)),
        Some(entry) if entry.is_symlink() => linked_file(rt, path).map(Some),
        Some(_) => Err(not_regular()),
    }
}

/// What the system says of a path itself, if it is there.
fn entry_of(rt: &impl Files, path: &str) -> io::Result<Option<Metadata>> {
    match uninterrupted(|| fs::symlink_metadata(rt, path)) {
        Ok(entry) => Ok(Some(entry)),
        Err(error) if error.kind() == io::ErrorKind::NotFound => Ok(None),
        Err(error) => Err(error),
    }
}

/// What the system says of the file to which a symbolic link leads.
fn linked_file(rt: &impl Files, path: &str) -> io::Result<Metadata> {
    match look(rt, path) {
        Ok(found) if found.is_file() => Ok(found),
        Ok(_) => Err(not_regular()),
        Err(error) if error.kind() == io::ErrorKind::NotFound => Err(io::Error::new(
            io::ErrorKind::NotFound,
            "a symbolic link to a file that is missing",
        )),
        Err(error) => Err(error),
    }
}

fn not_regular() -> io::Error {
    io::Error::new(io::ErrorKind::Unsupported, "not a regular file")
}

/// Opens a file that is there, for reading alone unless it may be written.
fn open_found(rt: &impl Files<File = File>, path: &str, write: bool) -> io::Result<File> {
    uninterrupted(|| OpenOptions::new().read(true).write(write).open(rt, path))
}

/// A file, by its device and its number there.
#[derive(Clone, Copy, Debug, PartialEq, Eq)]
struct FileId {
    device: u64,
    number: u64,
}

impl FileId {
    fn of(found: &Metadata) -> FileId {
        FileId {
            device: found.dev(),
            number: found.ino(),
        }
    }
}

/// The files that were found as they were opened.
#[derive(Drop)]
struct SeenFiles {
    /// None is looked for.
    are_none: bool,
    files: Vec<FileId>,
    /// One of them had another name, or was another slot's.
    are_shared: bool,
}

impl SeenFiles {
    fn new(alloc: Global) -> Result<SeenFiles, OpenError> {
        Ok(SeenFiles {
            are_none: false,
            files: Vec::with_capacity(alloc, FOLDER_SLOTS)?,
            are_shared: false,
        })
    }

    fn note(&mut self, found: &Metadata) -> Result<(), OpenError> {
        let id = FileId::of(found);
        self.are_shared |= found.nlink() > 1 || self.files.contains(&id);
        self.files.push(id)?;
        Ok(())
    }
}

/// Sees that each open file is its slot's alone: it has no other name, and is no other slot's.
fn are_own(alloc: Global, images: &[Option<File>]) -> Result<(), OpenError> {
    let mut seen = Vec::with_capacity(alloc, FOLDER_SLOTS)?;
    for (slot, image) in images.iter().enumerate() {
        if let Some(file) = image {
            let id = own_id(file, &seen).map_err(|error| of_slot(slot, error))?;
            seen.push(id)?;
        }
    }
    Ok(())
}

/// Which file it is, where it has one name and isn't among others.
fn own_id(file: &File, others: &[FileId]) -> io::Result<FileId> {
    let found = uninterrupted(|| file.metadata())?;
    let id = FileId::of(&found);
    if found.nlink() > 1 || others.contains(&id) {
        return Err(io::Error::new(
            io::ErrorKind::InvalidData,
            "this file has another name, which a run would change too: copy it (cp -a)",
        ));
    }
    Ok(id)
}

/// Makes the slots' files that are missing.
pub(crate) fn make_missing(
    rt: &(impl Files<File = File> + AllocGlobal),
    folder: &str,
    images: &mut Vec<Option<File>>,
) -> Result<(), OpenError>
    ensures { length images.new.items ≡ length images.old.items }
{
    for (slot, image) in images.iter_mut().enumerate() {
        if image.is_none() {
            let path = path_of(rt.alloc(), folder, slot)?;
            let made = uninterrupted(|| File::create_new(rt, path.as_str()));
            *image = Some(made.map_err(|error| of_slot(slot, error))?);
        }
    }
    Ok(())
}
