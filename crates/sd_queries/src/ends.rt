//! What stands after the end of a program, and what may be done about it: one line on the standard error.

use sd_disk::{DirDisk, Folder};
use sd_drop::{DropError, check_drop};
use sd_image::Reason;
use sd_program::{Called, Causes, has_slot_files};
use sd_restore::Fault;
use sd_show::reason_phrase;
use std::fmt;

/// A damaged slot, in words.
#[derive(Clone, Copy)]
struct Damage<'a> {
    folder: &'a str,
    slot: usize,
    reason: Reason,
    needed: Option<bool>,
}

/// Whether the newest checkpoint of the store in the folder needs the image of a slot. None where that isn't known.
fn is_needed(called: Called<'_>, slot: usize) -> Option<bool> {
    let files = Folder::open(called.rt, called.folder, false).ok()?;
    let mut disk = DirDisk::over(files, called.found.again());
    match check_drop(called.rt.alloc(), &mut disk, slot) {
        Ok(()) => Some(false),
        Err(DropError::Needed) => Some(true),
        Err(_) => None,
    }
}

impl fmt::Display for Damage<'_> {
    fn fmt<W: fmt::Write>(&self, f: &mut fmt::Formatter<W>) -> fmt::Result {
        let Damage {
            folder,
            slot,
            reason,
            needed,
        } = self;
        let words = reason_phrase(*reason);
        write!(
            f,
            "img-{slot:03} is damaged: {words}; ckpt show {folder} {slot} says more"
        )?;
        if *reason == Reason::Chain {
            write!(f, ", ckpt list {folder} has the images that are there")?;
        }
        match needed {
            Some(false) => write!(
                f,
                "; the newest checkpoint doesn't need it: ckpt drop {folder} {slot} closes it"
            ),
            Some(true) => f.write_str(
                "; the newest checkpoint needs it, and an older copy of the file may help",
            ),
            None => f.write_str(", and an older copy of the file may help"),
        }
    }
}

/// Reports what is damaged, if a program's last line says so.
pub fn report_damage(called: Called<'_>, told: Option<Fault>) {
    if called.causes == Causes::Kept {
        return;
    }
    if let Some(Fault::Damaged { slot, reason }) = told {
        let needed = is_needed(called, slot);
        let damage = Damage {
            folder: called.folder,
            slot,
            reason,
            needed,
        };
        called.tell(&damage);
    }
}

/// Reports that a folder has no file of a slot, if that is so: what was read may be another folder than is meant. Else
/// it reports, where that is asked for, that nothing is saved there.
pub fn report_empty(called: Called<'_>, reports_fault: bool) {
    if !has_slot_files(called.rt, called.rt.alloc(), called.folder) {
        called.tell(&NO_FILES);
    } else if reports_fault {
        called.tell(&NOTHING_SAVED);
    }
}

/// What is reported of a store without a checkpoint.
const NOTHING_SAVED: &str = "it shows no checkpoint; run, shell, mutate and import make one";

/// What is reported of a folder without files of slots.
const NO_FILES: &str =
    "it has none of the files img-000 to img-063; is it the folder that is meant?";
