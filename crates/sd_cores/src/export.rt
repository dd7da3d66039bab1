//! `ckpt export`: the memory that a store shows, as ELF core files.
ghost use Rattle.std.specs.Prelude.{IfOk};
ghost use Rattle.sd_cores.specs.Exports.{EndsExport, ExportSays};

use crate::cores::threads_of;
use crate::parts::{Left, core_name, is_folder, is_there, make_part, part_name};
use sd_areas::SpaceId;
use sd_command::Refusal;
use sd_disk::{DirDisk, Disk, FileLimit, lock_folder, make_folders};
use sd_elf::{CoreFiles, HoleFile, WriteError, write_shown, write_shown_at};
use sd_exit::{Output, Stop, exit};
use sd_image::SpaceTable;
use sd_program::{
    Advised, BESIDE, Called, Seen, is_same_file, is_slot_file, may_change, print_not_there,
    read_until_steady, slot_error, tell, unseen,
};
use sd_readers::fronts;
use sd_restore::Fault;
use std::alloc::Global;
use std::fs::File;
use std::io::Write;
use std::rt::Files;
use std::sync::Wait;
use std::time::Clock;
use std::{fs, io};

/// What is said of a folder of core files that is none.
const IS_NO_FOLDER: &str = "; OUT is the folder of the core files";

/// What is said of a folder that another export has locked.
const IS_LOCKED: &str = "another export writes into this folder; try again when it has ended";

/// The core files in a folder. Each is written under another name until all are whole.
#[derive(Drop)]
struct Export<'r, 'w, R> {
    rt: &'r R,
    alloc: Global,
    folder: &'w str,
    /// The folder of the store, whose files aren't replaced.
    store: &'w str,
    /// How long a file may be written.
    limit: FileLimit,
    /// The checkpoint that is asked for, in place of the newest.
    checkpoint: Option<u64>,
    /// The one space that is asked for.
    wanted: Option<u64>,
    /// Whether the store doesn't show it.
    lacks: bool,
    /// Whether files that are there are replaced.
    replaces: bool,
    /// The lock of the folder, while files are written there.
    lock: Option<File>,
    /// The spaces whose files were begun.
    begun: Vec<SpaceId>,
    /// How many of these files have their names.
    named: usize,
}

impl<R: Files<File = File>> Export<'_, '_, R> {
    /// Who has the lock of the folder, where it is taken: a run, where the folder is the store's.
    fn has_lock(&self) -> &'static str {
        if is_same_file(self.rt, self.folder, self.store) {
            BESIDE
        } else {
            IS_LOCKED
        }
    }

    fn is_wanted(&self, space: SpaceId) -> bool {
        match self.wanted {
            Some(number) => space.number() == number,
            None => true,
        }
    }

    /// Refuses a file that is there, but where it may be replaced, a folder, which never is, and a file of a slot of
    /// the store, to which a link in its folder may lead.
    fn check_free(&self, space: SpaceId) -> io::Result<()> {
        let name = core_name(self.alloc, self.folder, space)?;
        match fs::symlink_metadata(self.rt, &name) {
            Ok(_) if !self.replaces => return Err(is_there(self.alloc, space)?),
            Ok(found) if found.is_dir() => return Err(is_folder(self.alloc, space)?),
            _ => {}
        }
        self.check_no_slot(&name)?;
        self.check_no_slot(&part_name(self.alloc, self.folder, space)?)
    }

    /// Refuses a file that is that of a slot.
    fn check_no_slot(&self, name: &str) -> io::Result<()> {
        match fs::symlink_metadata(self.rt, name) {
            Ok(found) if is_slot_file(self.rt, self.alloc, self.store, &found)? => {
                Err(slot_error())
            }
            _ => Ok(()),
        }
    }

    /// Refuses, before any file has its name, what would keep one of them from it.
    fn check_all(&self) -> io::Result<()> {
        for space in &self.begun {
            self.check_free(*space)?;
        }
        Ok(())
    }

    /// Gives the file of a space its name.
    fn name(&self, space: SpaceId) -> io::Result<()> {
        let part = part_name(self.alloc, self.folder, space)?;
        let name = core_name(self.alloc, self.folder, space)?;
        fs::rename(self.rt, &part, &name)
    }

    /// Gives the files their names, once all are whole and nothing is seen that would keep one from it, and waits until
    /// the names are on the device.
    fn name_all(&mut self) -> io::Result<()> {
        self.check_all()?;
        let folder = File::open(self.rt, self.folder)?;
        for number in 0..self.begun.len() {
            self.name(self.begun[number])?;
            self.named = number.saturating_add(1);
        }
        folder.sync_all()
    }

    /// Takes away what was written.
    fn remove_all(&self) {
        for space in &self.begun {
            if let Ok(part) = part_name(self.alloc, self.folder, *space) {
                let _ = fs::remove_file(self.rt, &part);
            }
        }
    }
}

/// No contract says what the files of a folder hold.
impl<R: Files<File = File>> CoreFiles for Export<'_, '_, R> {
    ghost use Rattle.std.specs.Prelude.{None, true};

    type Output = HoleFile;

    ghost taken = { λ _. None };

    ghost wanted = { λ _ _. true };

    fn check(&mut self, spaces: &[SpaceTable]) -> io::Result<()> {
        if !spaces.iter().any(|space| self.is_wanted(space.space)) {
            self.lacks = true;
            return Err(io::Error::from(io::ErrorKind::NotFound));
        }
        make_folders(self.rt, self.folder)?;
        self.lock = Some(lock_folder(self.rt, self.folder, self.has_lock())?);
        for space in spaces {
            if self.is_wanted(space.space) {
                self.check_free(space.space)?;
            }
        }
        Ok(())
    }

    fn begin(&mut self, space: SpaceId) -> io::Result<Option<HoleFile>> {
        if !self.is_wanted(space) {
            return Ok(None);
        }
        let part = part_name(self.alloc, self.folder, space)?;
        self.begun.push(space)?;
        Ok(Some(HoleFile::new(make_part(self.rt, &part)?, self.limit)))
    }

    fn finish(&mut self, _space: SpaceId, file: HoleFile) -> io::Result<()> {
        file.finish()
    }
}

/// Writes the files of a store, with these notes of threads.
fn write_some<D: Disk, R: Files<File = File>>(
    disk: &mut D,
    threads: &[u8],
    export: &mut Export<'_, '_, R>,
) -> Result<(), WriteError> {
    match export.checkpoint {
        Some(number) => write_shown_at(export.alloc, disk, number, threads, export)?,
        None => {
            write_shown(export.alloc, disk, threads, export)?;
        }
    }
    Ok(())
}

/// Writes the files of a store whose images stay the same meanwhile, with these notes of threads.
fn write_files<D: Disk, R: Files<File = File>>(
    disk: &mut D,
    threads: &[u8],
    export: &mut Export<'_, '_, R>,
) -> Result<(), WriteError> {
    let before = fronts(export.alloc, disk)?;
    write_some(disk, threads, export)?;
    if fronts(export.alloc, disk)? != before {
        return Err(WriteError::Fault(Fault::Device));
    }
    export.name_all()?;
    Ok(())
}

/// A store that was exported, and how that ended.
#[derive(Drop)]
struct Exported {
    disk: DirDisk,
    ended: Result<(), WriteError>,
    /// Whether the store doesn't show the one space that is asked for.
    lacks: bool,
    left: Left,
}

/// The fault of the store with which an export ended, if it did.
fn fault_of(ended: &Result<(), WriteError>) -> Option<Fault> {
    match ended {
        Err(WriteError::Fault(fault)) => Some(*fault),
        _ => None,
    }
}

/// Reports why files weren't written, and how many of them have their names all the same.
fn report_error(called: Called<'_>, folder: &str, left: Left, error: &io::Error) {
    let advice = match error.kind() {
        io::ErrorKind::NotADirectory => IS_NO_FOLDER,
        _ => "",
    };
    let cause = error;
    let (rt, causes) = (called.rt, called.causes);
    tell(rt, causes, folder, &Advised { cause, advice });
    if left.named > 0 {
        tell(rt, causes, folder, &left);
    }
}

/// How the program ends, and a line of why no file was made where the store isn't at fault.
fn ended_with<W: Write>(
    called: Called<'_>,
    folder: &str,
    ended: Result<(), WriteError>,
    lacks: bool,
    left: Left,
    out: &mut Output<W>,
) -> Result<(), Stop>
    ensures { ExportSays result out.new.refused (W.contents out.old.writer) (W.contents out.new.writer) }
{
    match ended {
        Ok(()) => Ok(()),
        Err(WriteError::Fault(fault)) => Err(Stop::Fault(fault)),
        Err(WriteError::File(_)) if lacks => Err(Stop::Order(Refusal::NoSuchSpace)),
        Err(WriteError::File(error)) => {
            report_error(called, folder, left, &error);
            out.write_all(b"cannot write OUT\n")?;
            Err(Stop::Refused)
        }
    }
}

/// What an export is asked for.
#[derive(Clone, Copy)]
pub struct ExportAsked<'a> {
    /// The folder of the core files.
    pub folder: &'a str,
    /// The core whose notes are copied.
    pub notes: Option<&'a str>,
    /// The checkpoint that is written, in place of the newest.
    pub checkpoint: Option<u64>,
    /// The one space that is written.
    pub space: Option<u64>,
    /// Whether files that are there are replaced.
    pub replaces: bool,
}

/// The export that is asked for, of which no file is begun.
fn export_of<'a>(called: Called<'a>, asked: ExportAsked<'a>) -> Export<'a, 'a, HostRuntime> {
    let rt = called.rt;
    Export {
        rt,
        alloc: rt.alloc(),
        folder: asked.folder,
        store: called.folder,
        limit: FileLimit::of_process(rt),
        checkpoint: asked.checkpoint,
        wanted: asked.space,
        lacks: false,
        replaces: asked.replaces,
        lock: None,
        begun: Vec::new(rt.alloc()),
        named: 0,
    }
}

/// An export of a store, with these notes of threads, and what is to be seen of it.
#[derive(Clone, Copy)]
struct Exporting<'a> {
    called: Called<'a>,
    seen: Seen<'a>,
    threads: &'a [u8],
    asked: ExportAsked<'a>,
}

impl Exporting<'_> {
    /// Writes the files of the store once. Where that fails, those that were begun are taken away.
    fn export_once(self) -> Result<Exported, Stop> {
        let mut export = export_of(self.called, self.asked);
        let mut disk = self.seen.disk("export", self.called.open_store()?);
        let ended = write_files(&mut disk, self.threads, &mut export);
        if ended.is_err() {
            export.remove_all();
        }
        Ok(Exported {
            disk: unseen(disk),
            ended,
            lacks: export.lacks,
            left: Left {
                named: export.named,
                of: export.begun.len(),
            },
        })
    }

    /// The same, and again where a run is writing the store and came between.
    fn export<R: Clock + Wait>(self, clock: &R, is_beside: bool) -> Result<Exported, Stop> {
        if !is_beside {
            return self.export_once();
        }
        read_until_steady(
            clock,
            || self.export_once(),
            |exported| may_change(fault_of(&exported.ended)),
        )
    }
}

/// Reports that a run may have disturbed an export, where one was writing the store as it began, or is now.
fn report_export_beside(called: Called<'_>, is_beside: bool) {
    if is_beside {
        called.tell(&BESIDE);
    } else {
        called.report_beside();
    }
}

/// `ckpt export`: it only reads the store.
///
/// # Errors
///
/// Those of a folder that isn't opened, and of a core whose notes aren't read.
pub fn export_program<'a, R: Clock + Wait, W: Write>(
    called: Called<'a>,
    clock: &R,
    asked: ExportAsked<'a>,
    out: &mut Output<W>,
) -> Result<u8, Stop>
    // What stands on the output, and the exit status; 3 where a checkpoint that is asked for isn't there.
    ensures exits { IfOk result (EndsExport asked.entry.checkpoint (W.contents out.old.writer)
        (W.contents out.new.writer) out.new.refused) }
{
    let threads = threads_of(called.rt, called.causes, asked.notes, out)?;
    let log = called.logger();
    let exporting = Exporting {
        called,
        seen: called.seen(&log, called.is_watched()),
        threads: &threads,
        asked,
    };
    let is_beside = called.is_beside();
    let Exported {
        disk,
        ended,
        lacks,
        left,
    } = exporting.export(clock, is_beside)?;
    called.report_device(&disk);
    if may_change(fault_of(&ended)) {
        report_export_beside(called, is_beside);
    }
    if let (Some(number), Some(Fault::EmptyChain)) = (asked.checkpoint, fault_of(&ended)) {
        let status = print_not_there(number, out);
        called.report_numbers(disk);
        return Ok(status);
    }
    if let (Ok(()), Some(name)) = (&ended, asked.notes) {
        let taken = format_args!("the threads and the mapped files are those of {name}");
        tell(called.rt, called.causes, asked.folder, &taken);
    }
    let ended = ended_with(called, asked.folder, ended, lacks, left, out);
    Ok(exit(&ended, out))
}
