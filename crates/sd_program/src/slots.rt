//! Which files are those of a store's slots, under whatever name. None of them is written as another file.
ghost use Rattle.std.specs.Prelude.{◌≡◌, ◌++◌, IfErr, IfOk, codes, string_bytes};
ghost use Rattle.std.specs.IoError.{error_kind};
ghost use Rattle.sd_exit.specs.Texts.{slot_text};

use sd_disk::FOLDER_SLOTS;
use std::alloc::{AllocError, Global};
use std::fs::{File, Metadata};
use std::io::ErrorKind;
use std::os::unix::fs::MetadataExt;
use std::path::PathBuf;
use std::rt::Files;
use std::{fs, io};

/// What is reported of a slot's file that was to be written as another.
const IS_SLOT: &str = "a slot's file of the store, which isn't written over: name another";

/// How many symbolic links of a path are followed.
const LINKS: usize = 40;

/// The path of a slot's file.
fn slot_path(alloc: Global, folder: &str, slot: usize) -> Result<String, AllocError>
    ensures { IfOk result (λ path. string_bytes path ≡ folder.now ++ codes "/img-" ++ slot_text slot) }
{
    format!(in alloc; "{folder}/img-{slot:03}")
}

/// Whether a folder has a file of a slot.
fn has_slot_file(rt: &impl Files<File = File>, alloc: Global, folder: &str, slot: usize) -> bool {
    match slot_path(alloc, folder, slot) {
        Ok(path) => fs::exists(rt, path.as_str()).unwrap_or(true),
        Err(_) => true,
    }
}

/// Whether a folder has a file of any slot.
pub fn has_slot_files(rt: &impl Files<File = File>, alloc: Global, folder: &str) -> bool {
    (0..FOLDER_SLOTS).any(|slot| has_slot_file(rt, alloc, folder, slot))
}

/// Whether both are the same file: by the device, and the number there.
fn are_one(first: &Metadata, second: &Metadata) -> bool {
    first.dev() == second.dev() && first.ino() == second.ino()
}

/// Whether two paths lead to one file, or to one folder.
pub fn is_same_file(rt: &impl Files, first: &str, second: &str) -> bool {
    match (fs::metadata(rt, first), fs::metadata(rt, second)) {
        (Ok(first), Ok(second)) => are_one(&first, &second),
        _ => false,
    }
}

/// Whether a file that is there is that of a slot in a folder, also where it was found by another name.
///
/// # Errors
///
/// Out of memory where a path found no room.
pub fn is_slot_file(
    rt: &impl Files<File = File>,
    alloc: Global,
    folder: &str,
    file: &Metadata,
) -> io::Result<bool>
    ensures { IfErr result (λ error. error_kind error ≡ ErrorKind.OutOfMemory) }
{
    for slot in 0..FOLDER_SLOTS {
        let path = slot_path(alloc, folder, slot)?;
        if fs::metadata(rt, path.as_str()).is_ok_and(|found| are_one(&found, file)) {
            return Ok(true);
        }
    }
    Ok(false)
}

/// Whether a name is one of img-000 to img-063.
fn is_slot_name(name: &str) -> bool {
    let Some(digits) = name.strip_prefix("img-") else {
        return false;
    };
    let is_number = digits.len() == 3 && digits.bytes().all(|byte| byte.is_ascii_digit());
    is_number
        && digits
            .parse::<usize>()
            .is_ok_and(|slot| slot < FOLDER_SLOTS)
}

/// Where the symbolic links of a path lead, also to a file that is missing.
fn led_to(rt: &(impl Files<File = File> + AllocGlobal), path: &str) -> io::Result<PathBuf> {
    let mut path = PathBuf::from_str(rt.alloc(), path)?;
    for _ in 0..LINKS {
        let Ok(target) = fs::read_link(rt, &path) else {
            break;
        };
        path.pop();
        path.push(target)?;
    }
    Ok(path)
}

/// Whether a path names a slot's file in a folder, also one that is missing: by its last name, and the folder in which
/// that stands.
fn names_slot_file(
    rt: &(impl Files<File = File> + AllocGlobal),
    folder: &str,
    path: &str,
) -> io::Result<bool> {
    let path = led_to(rt, path)?;
    if !path.file_name().is_some_and(is_slot_name) {
        return Ok(false);
    }
    let parent = match path.parent() {
        Some(parent) if parent.as_str().is_empty() => ".",
        Some(parent) => parent.as_str(),
        None => ".",
    };
    match (fs::metadata(rt, folder), fs::metadata(rt, parent)) {
        (Ok(folder), Ok(parent)) => Ok(are_one(&folder, &parent)),
        _ => Ok(false),
    }
}

/// The error of a slot's file that was to be written as another.
pub fn slot_error() -> io::Error
    ensures { error_kind result ≡ ErrorKind.InvalidInput }
{
    io::Error::new(ErrorKind::InvalidInput, IS_SLOT)
}

/// Opens a file to be written, which is made where it is missing. What stands in it stays.
///
/// # Errors
///
/// What the system answered; of a slot's file in the folder `InvalidInput`, whose bytes stay. It isn't made either, but
/// where a link in the folder leads to it.
pub fn open_beside_slots(
    rt: &(impl Files<File = File> + AllocGlobal),
    folder: &str,
    path: &str,
) -> io::Result<File> {
    if names_slot_file(rt, folder, path)? {
        return Err(slot_error());
    }
    let file = File::options().write(true).create(true).open(rt, path)?;
    if is_slot_file(rt, rt.alloc(), folder, &file.metadata()?)? {
        return Err(slot_error());
    }
    Ok(file)
}
