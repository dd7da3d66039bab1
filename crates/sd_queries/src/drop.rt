//! `ckpt drop`: closes one image of a store, where the newest checkpoint doesn't need it.
ghost use Rattle.std.specs.Prelude.{◌≡◌, ◌∷◌, ◌++◌, [], true, Ok, Err, IfOk, OnErr, OnOk, codes};
ghost use Rattle.sd_disk.specs.Folder.{outside_of};
ghost use Rattle.std.specs.Io.KnownBytes.{Appends};
ghost use Rattle.sd_exit.specs.Texts.{slot_text};
ghost use Rattle.sd_queries.specs.Dropping.{CameOfDrop, EndsDropping, SaysDrop, kept_as};

use sd_disk::{DirDisk, Disk};
use sd_drop::{DropError, drop_image};
use sd_exit::{Output, Stop};
use sd_program::{Called, Seen, has_slot_files, unseen};
use sd_restore::Fault;
use std::io::Write;
use std::sync::Wait;
use std::time::Clock;
use std::{fmt, io};

/// The exit status where an image stays as it is.
const KEPT: u8 = 1;

/// Why an image stays as it is, for a reader.
#[derive(Clone, Copy)]
enum Kept {
    Needed(usize),
    Closed(usize),
}

impl fmt::Display for Kept {
    fn fmt<W: fmt::Write>(&self, f: &mut fmt::Formatter<W>) -> fmt::Result {
        match self {
            Kept::Needed(slot) => write!(
                f,
                "the newest checkpoint needs img-{slot:03}, or none is shown without it; --force closes it all the same"
            ),
            Kept::Closed(slot) => write!(f, "img-{slot:03} has no open image"),
        }
    }
}

/// Which image of which store is to be closed, and what is to be seen of it.
#[derive(Clone, Copy)]
struct DropAsked<'a> {
    called: Called<'a>,
    seen: Seen<'a>,
    slot: usize,
    force: bool,
}

/// Prints what became of the image of a slot.
fn print_line<W: Write>(word: &str, slot: usize, why: &str, out: &mut Output<W>) -> io::Result<()>
    ensures line { OnOk result (Appends (W.contents out.old.writer) (W.contents out.new.writer)
        (word.now ++ codes " " ++ slot_text slot ++ why.now ++ 10 ∷ [])) }
    ensures refused { OnErr result (out.new.refused ≡ true) }
{
    writeln!(out, "{word} {slot:03}{why}")
}

impl DropAsked<'_> {
    /// Closes the image, and reports what the system answered where that failed.
    fn close<R: Clock + Wait>(&self, clock: &R) -> Result<Result<(), DropError>, Stop>
        ensures came { IfOk result (CameOfDrop ⟦<DirDisk as Disk>⟧ (outside_of self.now.called.found.now).found
            self.now.slot self.now.force) }
    {
        let called = self.called;
        let disk = called.make_store(clock)?;
        let mut disk = self.seen.disk("drop", disk);
        let ended = drop_image(called.rt.alloc(), &mut disk, self.slot, self.force);
        called.report_device(&unseen(disk));
        Ok(ended)
    }

    /// Prints that the image was closed, and returns the exit status.
    fn print_dropped<W: Write>(&self, out: &mut Output<W>) -> Result<u8, Stop>
        ensures says { IfOk result (SaysDrop self.now.slot (W.contents out.old.writer) (W.contents out.new.writer)
            out.new.refused (Ok tt)) }
    {
        print_line("dropped", self.slot, "", out)?;
        Ok(out.finish(0))
    }

    /// Prints that the image stays as it is and why, and returns the exit status.
    fn print_kept<W: Write>(&self, why: Kept, out: &mut Output<W>) -> Result<u8, Stop>
        ensures says { IfOk result (SaysDrop self.now.slot (W.contents out.old.writer) (W.contents out.new.writer)
            out.new.refused (Err (kept_as why))) }
    {
        let word = match why {
            Kept::Needed(_) => " needed",
            Kept::Closed(_) => " closed",
        };
        print_line("kept", self.slot, word, out)?;
        self.called.tell(&why);
        Ok(out.finish(KEPT))
    }

    /// Prints how it ended, and returns the exit status.
    fn end<W: Write>(&self, ended: Result<(), DropError>, out: &mut Output<W>) -> Result<u8, Stop>
        ensures says { IfOk result (SaysDrop self.now.slot (W.contents out.old.writer) (W.contents out.new.writer)
            out.new.refused ended) }
    {
        match ended {
            Ok(()) => self.print_dropped(out),
            Err(DropError::Closed) => self.print_kept(Kept::Closed(self.slot), out),
            Err(DropError::Needed) => self.print_kept(Kept::Needed(self.slot), out),
            Err(DropError::Damaged { slot, reason }) => {
                Err(Stop::Fault(Fault::Damaged { slot, reason }))
            }
            Err(DropError::Device) => Err(Stop::Fault(Fault::Device)),
            Err(DropError::OutOfMemory) => Err(Stop::Fault(Fault::OutOfMemory)),
        }
    }
}

/// `ckpt drop`. The folder has to be there, and in one without files of slots none is made. With `force` the image is
/// closed also where it is needed.
///
/// # Errors
///
/// Those of a folder that isn't opened, and of the store.
pub fn drop_program<R: Clock + Wait, W: Write>(
    called: Called<'_>,
    clock: &R,
    slot: usize,
    force: bool,
    out: &mut Output<W>,
) -> Result<u8, Stop>
    // One line says what became of the image of the files that are found: it was closed, with status 0, or stays, with
    // status 1.
    ensures ends { IfOk result (EndsDropping ⟦<DirDisk as Disk>⟧ (outside_of called.entry.found.now).found slot force
        (W.contents out.old.writer) (W.contents out.new.writer) out.new.refused) }
{
    let log = called.logger();
    let asked = DropAsked {
        called,
        seen: called.seen(&log, called.is_watched()),
        slot,
        force,
    };
    let _ = called.open_store()?;
    if !has_slot_files(called.rt, called.rt.alloc(), called.folder) {
        return asked.print_kept(Kept::Closed(slot), out);
    }
    let ended = asked.close(clock)?;
    asked.end(ended, out)
}
