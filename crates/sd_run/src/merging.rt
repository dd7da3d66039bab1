//! The merge of a store's newest chain into one image, from one disk to another.
ghost use Rattle.std.specs.Prelude.{◌≡◌, ◌≢◌, ◌≤◌, ℕ, true, false, Err, IfErr, OnOk};
ghost use Rattle.std.specs.Io.KnownBytes.{Appends};
ghost use Rattle.sd_command.specs.declared.reply.Reply.TheVariants.{Merged};
ghost use Rattle.sd_exit.specs.Ending.{OnWriter, status_of};
ghost use Rattle.sd_script.specs.Texts.{reply_line};
ghost use Rattle.sd_run.specs.Ending.{IsEndOfMerge, IsWhyRun};
ghost use Rattle.sd_world.specs.Goes.{GoesOn};
ghost use Rattle.sd_run.specs.Merging.{IsLeftByMerge, IsRefusedMerge, IsWholeMerge, MergesTip, MergesToExit, is_merged};

use crate::ending::unopened;
use crate::printing::print_line;
use crate::running::FRAMES;
use crate::watching::RunWatch;
use sd_command::Reply;
use sd_disk::Disk;
use sd_exit::{Output, Stop, exit};
use sd_gate::Worker;
use sd_script::Answer;
use sd_world::{Event, OpenError, Watch, World};
use std::alloc::Global;
use std::io::Write;

/// Opens a store, and opens it again, and then merges its newest chain into one image. Prints the last reply, or why
/// the store isn't opened, flushes, and returns the disk and the exit status: 0 where the chain was merged, and else 1.
/// The jobs that last are watched.
pub fn merge_to<D: Disk, W: Write, S: RunWatch>(
    alloc: Global,
    disk: D,
    out: &mut Output<W>,
    watch: &mut S,
) -> (D, u8)
    // Status 0: the store was opened again, the merge came to its end, and what was printed is its reply. Whatever
    // moment of it a crash comes, the journal of that moment allows what it leaves.
    ensures merged { result.1 ≡ 0 → IsWholeMerge D.Disk disk result.0
        (W.contents out.old.writer) (W.contents out.new.writer) }
    ensures status { result.1 ≤ 1 }
    // However it ends: the disk was only read, or these jobs were done over it, up to one that was refused.
    ensures left { IsLeftByMerge D.Disk disk result.0 }
    // However it ends: the last reply, or why the store isn't opened, is printed, and the status comes with that.
    ensures exits { MergesToExit D.Disk disk result.0
        (W.contents out.old.writer) (W.contents out.new.writer) out.new.refused result.1 }
{
    let (disk, ended) = merge_store(alloc, disk, out, watch);
    (disk, exit(&ended, out))
}

/// Merges the newest chain of a store, as `merge_to` does, and returns the disk.
///
/// # Errors
///
/// `Fault` and `NoFrame` where the store isn't opened: nothing was printed. `Refused` where the merge, or the reopening
/// before it, was refused, which was printed. `Fault` also where there is no room for the reply's line, and `Writer`
/// where it is refused.
fn merge_store<D: Disk, W: Write, S: RunWatch>(
    alloc: Global,
    disk: D,
    out: &mut Output<W>,
    watch: &mut S,
) -> (D, Result<(), Stop>)
    ensures merged { OnOk result.1 (IsWholeMerge D.Disk disk result.0
        (W.contents out.old.writer) (W.contents out.new.writer)) }
    ensures refused { result.1 ≡ Err Stop.Refused → IsRefusedMerge D.Disk disk result.0
        (W.contents out.old.writer) (W.contents out.new.writer) }
    ensures left { IsLeftByMerge D.Disk disk result.0 }
    // Where it isn't refused, what stopped it is what it names.
    ensures why { D.is_honest result.0 → result.1 ≢ Err Stop.Refused → IfErr result.1
        (IsWhyRun (λ _. ⊥) (D.contents disk) (D.failed disk) (D.failed result.0)) }
    ensures stopped { IfErr result.1 (λ why. status_of why ≡ 1) }
    ensures writer { OnWriter result.1 (out.new.refused ≡ true) }
{
    match World::open(alloc, disk, FRAMES) {
        Ok(mut world) => {
            let reply = merge_tip(&mut world, watch);
            watch_refusal(&world, &reply, watch);
            let ended = told(alloc, reply, out);
            world.sound();
            (world.close(), ended)
        }
        Err(OpenError { fault, disk }) => (disk, Err(unopened(fault))),
    }
}

/// Shows a watch a merge that is refused.
fn watch_refusal<D: Disk, S: RunWatch>(world: &World<D>, reply: &Reply, watch: &mut S) {
    if let Reply::Refused(why) = reply {
        watch.refused(world.core(), *why);
    }
}

/// Opens the store of a world again, and then merges its newest chain. Returns the last reply.
fn merge_tip<D: Disk, S: Watch>(world: &mut World<D>, watch: &mut S) -> Reply
    ensures merges { MergesTip D.Disk world.old result world.new }
    ensures goes_on { GoesOn D.Disk world.old world.new }
{
    let reopened = world.do_job(Event::Reopen, Worker::Opener, watch);
    if let Reply::Reopened(_) = reopened {
        world.do_job(Event::Merge, Worker::Merger, watch)
    } else {
        reopened
    }
}

/// Prints the last reply of a merge, and says whether the merge came to its end.
fn told<W: Write>(alloc: Global, reply: Reply, out: &mut Output<W>) -> Result<(), Stop>
    ensures merged { OnOk result ((serial : ℕ) × (reply ≡ Merged serial)
        × Appends (W.contents out.old.writer) (W.contents out.new.writer) (reply_line reply)) }
    ensures refused { result ≡ Err Stop.Refused → (is_merged reply ≡ false)
        × Appends (W.contents out.old.writer) (W.contents out.new.writer) (reply_line reply) }
    ensures stops { IfErr result IsEndOfMerge }
    ensures writer { OnWriter result (out.new.refused ≡ true) }
{
    let is_merged = matches!(reply, Reply::Merged(_));
    print_line(&Answer::Reply(reply), &mut Vec::new(alloc), out)?;
    if is_merged {
        Ok(())
    } else {
        Err(Stop::Refused)
    }
}
