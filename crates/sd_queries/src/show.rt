//! `ckpt show`: what stands in the image files of a store.
ghost use Rattle.std.specs.Prelude.{◌≡◌, ◌⊎◌, false, [], IfOk, OnOk, Some};
ghost use Rattle.std.specs.Io.KnownBytes.{Appends};
ghost use Rattle.sd_disk.specs.Folder.{IsFolderHonest, folder_files, outside_of};
ghost use Rattle.sd_disk.specs.Reads.{OnlyReads};
ghost use Rattle.sd_queries.specs.Showing.{EndsShowing, ShowsFolder, ShowsHeld, has_damage, shown_end, shown_text};

use sd_disk::{DirDisk, Disk};
use sd_exit::{Output, Stop, exit};
use sd_program::{BESIDE, Called, Seen, read_until_steady, unseen};
use sd_readers::fronts;
use sd_restore::Fault;
use sd_show::{Stop as ShowStop, show_slot, show_slot_json, show_slots, show_slots_json};
use std::alloc::Global;
use std::io;
use std::io::{IsTerminal, Write};
use std::sync::Wait;
use std::time::Clock;

/// Shows one slot of a store, or all of them, and returns whether any is damaged. A slot that the store doesn't have
/// isn't there to be damaged.
fn show_in<D: Disk, W: Write>(
    alloc: Global,
    disk: &mut D,
    slot: Option<usize>,
    as_json: bool,
    out: &mut W,
) -> Result<bool, ShowStop>
    ensures text { D.is_honest disk.new → as_json ≡ false → OnOk result
        (Appends (W.contents out.old) (W.contents out.new) (shown_text slot (D.contents disk.old))) }
    ensures damaged { D.is_honest disk.new → IfOk result (λ damaged.
        damaged ≡ has_damage slot (D.contents disk.old)) }
    ensures reads { OnlyReads D.Disk disk.old disk.new }
{
    match slot {
        Some(slot) if slot >= disk.slots() => Ok(false),
        Some(slot) if as_json => show_slot_json(alloc, disk, slot, out),
        Some(slot) => show_slot(alloc, disk, slot, out),
        None if as_json => show_slots_json(alloc, disk, out),
        None => show_slots(alloc, disk, out),
    }
}

/// How the program ends: a damaged slot was shown, and is a failure.
fn ended_with(shown: Result<bool, ShowStop>) -> Result<(), Stop>
    ensures { result ≡ shown_end shown }
{
    match shown {
        Ok(false) => Ok(()),
        Ok(true) => Err(Stop::Refused),
        Err(ShowStop::Device) => Err(Stop::Fault(Fault::Device)),
        Err(ShowStop::OutOfMemory) => Err(Stop::Fault(Fault::OutOfMemory)),
        Err(ShowStop::Writer(error)) => Err(Stop::Writer(error)),
    }
}

/// Which slot of which store is shown, and how.
#[derive(Clone, Copy)]
struct ShowAsked<'a> {
    called: Called<'a>,
    seen: Seen<'a>,
    slot: Option<usize>,
    as_json: bool,
}

/// A store of which slots were shown, whether one is damaged, and the text where it was held back.
type Shown = (DirDisk, Result<bool, ShowStop>, Vec<u8>);

/// Shows slots of a store whose images stay the same meanwhile. Else the device failed.
fn show_steady<D: Disk, W: Write>(
    alloc: Global,
    disk: &mut D,
    slot: Option<usize>,
    as_json: bool,
    out: &mut W,
) -> Result<bool, ShowStop>
    ensures text { D.is_honest disk.new → as_json ≡ false → OnOk result
        (Appends (W.contents out.old) (W.contents out.new) (shown_text slot (D.contents disk.old))) }
    ensures damaged { D.is_honest disk.new → IfOk result (λ damaged.
        damaged ≡ has_damage slot (D.contents disk.old)) }
    ensures reads { OnlyReads D.Disk disk.old disk.new }
{
    let before = fronts(alloc, disk).map_err(stop_of)?;
    let damaged = show_in(alloc, disk, slot, as_json, out)?;
    if fronts(alloc, disk).map_err(stop_of)? != before {
        return Err(ShowStop::Device);
    }
    Ok(damaged)
}

/// Shows slots of a store, where it is steady from images that stay the same meanwhile.
fn show_by<D: Disk, W: Write>(
    alloc: Global,
    disk: &mut D,
    slot: Option<usize>,
    as_json: bool,
    is_steady: bool,
    out: &mut W,
) -> Result<bool, ShowStop>
    ensures text { D.is_honest disk.new → as_json ≡ false → OnOk result
        (Appends (W.contents out.old) (W.contents out.new) (shown_text slot (D.contents disk.old))) }
    ensures damaged { D.is_honest disk.new → IfOk result (λ damaged.
        damaged ≡ has_damage slot (D.contents disk.old)) }
    ensures reads { OnlyReads D.Disk disk.old disk.new }
{
    if is_steady {
        show_steady(alloc, disk, slot, as_json, out)
    } else {
        show_in(alloc, disk, slot, as_json, out)
    }
}

/// Why slots aren't shown whose fronts couldn't be read.
fn stop_of(fault: Fault) -> ShowStop {
    match fault {
        Fault::OutOfMemory => ShowStop::OutOfMemory,
        _ => ShowStop::Device,
    }
}

/// Prints the text that was held back of a showing that came to its end.
fn print_text<W: Write>(
    shown: &Result<bool, ShowStop>,
    text: &[u8],
    out: &mut Output<W>,
) -> io::Result<()>
    ensures { OnOk result (OnOk shown.now
        (Appends (W.contents out.old.writer) (W.contents out.new.writer) text.now)) }
{
    match shown {
        Ok(_) => out.write_all(text),
        Err(_) => Ok(()),
    }
}

impl ShowAsked<'_> {
    /// Shows slots of the store once, where it is steady from images that stay the same meanwhile.
    fn show_once<W: Write>(
        self,
        is_steady: bool,
        out: &mut W,
    ) -> Result<(DirDisk, Result<bool, ShowStop>), Stop>
        ensures shows { IfOk result (λ shown. ShowsFolder self.entry.called.found.now self.entry.slot
            self.entry.as_json shown.1 (W.contents out.old) (W.contents out.new)) }
    {
        let alloc = self.called.rt.alloc();
        let disk = self.called.open_store()?;
        let mut disk = self.seen.disk("show", disk);
        let shown = show_by(alloc, &mut disk, self.slot, self.as_json, is_steady, out);
        Ok((unseen(disk), shown))
    }

    /// Shows slots of a store that no run is writing.
    fn show_alone<W: Write>(self, out: &mut Output<W>) -> Result<Result<bool, ShowStop>, Stop>
        ensures shows { IfOk result (λ shown. ShowsFolder self.entry.called.found.now self.entry.slot
            self.entry.as_json shown (W.contents out.old.writer) (W.contents out.new.writer)) }
    {
        let (disk, shown) = self.show_once(false, out)?;
        self.called.report_device(&disk);
        if matches!(shown, Err(ShowStop::Device)) {
            self.called.report_beside();
        }
        Ok(shown)
    }

    /// Shows slots of a store once, and holds the text back.
    fn show_held(self) -> Result<Shown, Stop>
        ensures shows { IfOk result (ShowsHeld self.entry.called.found.now self.entry.slot self.entry.as_json) }
    {
        let mut text = Vec::new(self.called.rt.alloc());
        let (disk, shown) = self.show_once(true, &mut text)?;
        Ok((disk, shown, text))
    }

    /// Shows slots of a store that a run is writing. What is printed is of one moment.
    fn show_beside<R: Clock + Wait, W: Write>(
        self,
        clock: &R,
        out: &mut Output<W>,
    ) -> Result<Result<bool, ShowStop>, Stop>
        ensures shows { IfOk result (λ shown. ShowsFolder self.entry.called.found.now self.entry.slot
            self.entry.as_json shown (W.contents out.old.writer) (W.contents out.new.writer)) }
    {
        let (disk, shown, text) = read_until_steady(
            clock,
            || self.show_held(),
            |(_, shown, _)| matches!(shown, Err(ShowStop::Device)),
        )?;
        self.called.report_device(&disk);
        print_text(&shown, &text, out)?;
        if matches!(shown, Err(ShowStop::Device)) {
            self.called.tell(&BESIDE);
        }
        Ok(shown)
    }
}

/// `ckpt show`: it only reads. Without a slot all are shown.
///
/// # Errors
///
/// Those of a folder that isn't opened.
pub fn show_program<R: Clock + Wait, W: Write>(
    called: Called<'_>,
    clock: &R,
    slot: Option<usize>,
    as_json: bool,
    out: &mut Output<W>,
) -> Result<u8, Stop>
    // The whole text of the slots of the folder's files is written, and the status says whether one is damaged; or a
    // beginning of it, and why it was stopped.
    ensures shown { IfOk result (λ status. EndsShowing called.entry.found.now slot as_json status
        (W.contents out.old.writer) (W.contents out.new.writer) out.new.refused) }
{
    let log = called.logger();
    let shows = called.is_watched() && !called.rt.stdout().is_terminal();
    let asked = ShowAsked {
        called,
        seen: called.seen(&log, shows),
        slot,
        as_json,
    };
    let shown = if called.is_beside() {
        asked.show_beside(clock, out)?
    } else {
        asked.show_alone(out)?
    };
    Ok(exit(&ended_with(shown), out))
}
