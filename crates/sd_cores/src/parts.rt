//! The files of an export: their names, and what stands in their way.
ghost use Rattle.std.specs.Prelude.{◌≡◌, IfOk};
ghost use Rattle.std.specs.IoError.{error_kind};

use sd_areas::SpaceId;
use std::alloc::{AllocError, Global};
use std::fs::File;
use std::io::ErrorKind;
use std::rt::Files;
use std::{fmt, fs, io};

/// The name of the core file of a space, within a folder.
pub(crate) fn core_name(alloc: Global, folder: &str, space: SpaceId) -> Result<String, AllocError> {
    let number = space.number();
    format!(in alloc; "{folder}/space-{number}.core")
}

/// The name of that file while it is being written.
pub(crate) fn part_name(alloc: Global, folder: &str, space: SpaceId) -> Result<String, AllocError> {
    let number = space.number();
    format!(in alloc; "{folder}/.space-{number}.core.part")
}

/// The error of a core file that is there already.
pub(crate) fn is_there(alloc: Global, space: SpaceId) -> Result<io::Error, AllocError>
    ensures { IfOk result (λ error. error_kind error ≡ ErrorKind.AlreadyExists) }
{
    let number = space.number();
    let words = format!(in alloc;
        "space-{number}.core is there already; with --force it is replaced"
    )?;
    Ok(io::Error::new(ErrorKind::AlreadyExists, &words))
}

/// The error of a folder that stands where a core file is to stand.
pub(crate) fn is_folder(alloc: Global, space: SpaceId) -> Result<io::Error, AllocError>
    ensures { IfOk result (λ error. error_kind error ≡ ErrorKind.IsADirectory) }
{
    let number = space.number();
    let words = format!(in alloc; "space-{number}.core is a folder")?;
    Ok(io::Error::new(ErrorKind::IsADirectory, &words))
}

/// Makes an empty file, in place of one that an export left that was cut off.
pub(crate) fn make_part(rt: &impl Files<File = File>, part: &str) -> io::Result<File> {
    let _ = fs::remove_file(rt, part);
    File::create_new(rt, part)
}

/// How many files of an export that failed have their names, of how many.
#[derive(Clone, Copy)]
pub(crate) struct Left {
    pub(crate) named: usize,
    pub(crate) of: usize,
}

impl fmt::Display for Left {
    ghost use Rattle.std.specs.Prelude.{Some};
    ghost use Rattle.sd_cores.specs.Texts.{left_text};

    ghost output = { λ left. Some (left_text left.named left.of) };

    fn fmt<W: fmt::Write>(&self, f: &mut fmt::Formatter<W>) -> fmt::Result {
        let Left { named, of } = self;
        write!(f, "{named} of {of} files are of this export")?;
        f.write_str(", the others are as they were")
    }
}
