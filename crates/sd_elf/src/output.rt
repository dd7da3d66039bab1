//! Where a core file is written.
ghost use Rattle.std.specs.Prelude.{Some};

use crate::header_text::push_zeros;
use sd_areas::SpaceId;
use sd_disk::FileLimit;
use sd_image::SpaceTable;
use std::fs::File;
use std::io;
use std::os::unix::fs::FileExt;

/// An output that is written from its front to its end. Zeros may be left out of it: they read as if they were written.
pub trait CoreOutput {
    ghost use Rattle.std.specs.Prelude.{ℕ, List, Option, OnOk};
    ghost use Rattle.std.specs.Io.KnownBytes.{Appends};
    ghost use Rattle.sd_image.specs.Words.{zero_bytes};

    /// What was written, where that is known.
    ghost contents: { Self → Option (List ℕ) };

    /// Writes bytes after the others.
    fn put(&mut self, bytes: &[u8]) -> io::Result<()>
        ensures { OnOk result (Appends (contents self.old) (contents self.new) bytes.now) };

    /// Writes so many zeros after the others, at most 65,536.
    fn put_zeros(&mut self, count: usize) -> io::Result<()>
        ensures { OnOk result (Appends (contents self.old) (contents self.new) (zero_bytes count)) };
}

/// The files of an export: one for each space that is asked for.
pub trait CoreFiles {
    ghost use Rattle.std.specs.Prelude.{◌≡◌, ◌++◌, ◌∷◌, [], ℕ, List, Option, Bool, is_some, IfOk, IfSome, OnOk};
    ghost use Rattle.sd_elf.specs.Files.{CoreOfSpace};

    type Output: CoreOutput + Drop;

    /// The files that were taken, each with its space and its bytes, where they are known.
    ghost taken: { Self → Option (List CoreOfSpace) };

    /// Which spaces' files are asked for.
    ghost wanted: { Self → ℕ → Bool };

    /// Sees the spaces that there are, rising, before the first file is begun. An error ends the export.
    fn check(&mut self, spaces: &[SpaceTable]) -> io::Result<()>
        ensures kept { taken self.new ≡ taken self.old }
        ensures same { wanted self.new ≡ wanted self.old };

    /// The empty file of a space, if it is asked for.
    fn begin(&mut self, space: SpaceId) -> io::Result<Option<Self::Output>>
        ensures kept { taken self.new ≡ taken self.old }
        ensures same { wanted self.new ≡ wanted self.old }
        ensures begun { IfSome (taken self.old) (λ _. IfOk result (λ file.
            is_some file ≡ wanted self.old space)) }
        ensures empty { IfSome (taken self.old) (λ _. IfOk result (λ file.
            IfSome file (λ file. Self.Output.contents file ≡ Some []))) };

    /// Takes the file of a space, when it is whole.
    fn finish(&mut self, space: SpaceId, file: Self::Output) -> io::Result<()>
        ensures same { wanted self.new ≡ wanted self.old }
        ensures taken { IfSome (taken self.old) (λ files. OnOk result ((bytes : List ℕ)
            → Self.Output.contents file ≡ Some bytes
            → taken self.new ≡ Some (files ++ (space, bytes) ∷ []))) };
}

/// A file that is written from its front to its end, with a hole for each run of zeros that is left out. No contract
/// says what a real file holds.
#[derive(Drop)]
pub struct HoleFile {
    file: File,
    limit: FileLimit,
    length: u64,
}

impl HoleFile {
    /// Takes an empty file, which may be so long.
    pub fn new(file: File, limit: FileLimit) -> HoleFile {
        HoleFile {
            file,
            limit,
            length: 0,
        }
    }

    /// Gives the file its length, and waits until it is on the device.
    ///
    /// # Errors
    ///
    /// Where the system refuses one of both, or the file would be longer than it may be.
    pub fn finish(self) -> io::Result<()> {
        self.limit.allow(self.length as usize, 0)?;
        self.file.set_len(self.length)?;
        self.file.sync_all()
    }
}

impl CoreOutput for HoleFile {
    ghost use Rattle.std.specs.Prelude.{None};

    ghost contents = { λ _. None };

    fn put(&mut self, bytes: &[u8]) -> io::Result<()> {
        self.limit.allow(self.length as usize, bytes.len())?;
        self.file.write_all_at(bytes, self.length)?;
        self.length = self.length.saturating_add(bytes.len() as u64);
        Ok(())
    }

    fn put_zeros(&mut self, count: usize) -> io::Result<()> {
        self.length = self.length.saturating_add(count as u64);
        Ok(())
    }
}

/// A file in memory, with each byte of it.
impl CoreOutput for Vec<u8> {
    ghost contents = { λ bytes. Some bytes.items };

    fn put(&mut self, bytes: &[u8]) -> io::Result<()> {
        self.extend_from_slice(bytes)?;
        Ok(())
    }

    fn put_zeros(&mut self, count: usize) -> io::Result<()> {
        push_zeros(self, count)?;
        Ok(())
    }
}
