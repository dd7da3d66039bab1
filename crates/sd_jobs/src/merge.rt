//! `ckpt merge`: the chain of the newest checkpoint.
ghost use Rattle.std.specs.Prelude.{IfOk};
ghost use Rattle.sd_disk.specs.Folder.{outside_of};
ghost use Rattle.sd_jobs.specs.Folders.{MergesFiles};

use sd_disk::Disk;
use sd_exit::{Output, Stop};
use sd_program::{Called, FewSlots, Inputs};
use sd_run::merge_to;
use sd_watching::{CountedDisk, CountsAsked, Course, Session};
use std::io::Write;
use std::sync::Wait;
use std::time::Clock;

/// What is reported of a merge of a store without a checkpoint.
const NOTHING_TO_MERGE: &str = "it shows no checkpoint, so there is nothing to merge";

/// `ckpt merge`.
///
/// # Errors
///
/// Those of a store that isn't opened.
pub fn merge_program<R: Clock + Wait, W: Write>(
    called: Called<'_>,
    clock: &R,
    counts: CountsAsked<'_>,
    out: &mut Output<W>,
) -> Result<u8, Stop>
    // The files that are found in the folder of the command line are merged.
    ensures merges { IfOk result (MergesFiles ⟦<CountedDisk<'static> as Disk>⟧ (outside_of called.entry.found.now).found
        (W.contents out.old.writer) (W.contents out.new.writer) out.new.refused) }
{
    let session = Session::new(called);
    let course = Course::none(called.rt);
    let (disk, mut watch) = session.open(clock, counts, Inputs::NONE, course, out)?;
    let (disk, status) = merge_to(called.rt.alloc(), disk, out, &mut watch);
    let few = watch.course().few();
    let was_idle = watch.course().was_idle();
    let status = session.close(disk, watch, status);
    if let Some(few) = few {
        called.report_few(FewSlots::of_merge(few.free));
    }
    if was_idle {
        called.tell(&NOTHING_TO_MERGE);
    }
    Ok(status)
}
