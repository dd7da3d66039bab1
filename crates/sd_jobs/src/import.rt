//! `ckpt import`: the memory of ELF core files as the memory of a space, one after the other, and a checkpoint of each.
ghost use Rattle.std.specs.Prelude.{IfOk};
ghost use Rattle.sd_disk.specs.Folder.{outside_of};
ghost use Rattle.sd_run.specs.Whole.{IsLeftByEvents, LeavesFiles};
ghost use Rattle.sd_world.specs.Goes.{GoesOn};

use sd_areas::SpaceId;
use sd_command::Reply;
use sd_cores::{ShownCore, Source, end_after, open_cores, unread};
use sd_disk::Disk;
use sd_exit::{Output, Stop, exit};
use sd_gate::Worker;
use sd_import::{ImportError, Tally, import_core};
use sd_program::{Called, FewSlots, Inputs, tell};
use sd_restore::Fault;
use sd_run::{FRAMES, RunWatch, unopened};
use sd_script::{Answer, print_answer};
use sd_watching::{CountedDisk, CountsAsked, Course, Session};
use sd_world::{Event, OpenError, World};
use std::alloc::Global;
use std::io;
use std::io::Write;
use std::sync::Wait;
use std::time::Clock;

/// What is reported of a core file that another program changed while it was imported.
const CHANGED: &str = "it was changed while it was imported; nothing of it is saved";

/// What is reported of a file of counts that is a core.
const IS_CORE: &str = "a core that is to be imported, which isn't written over: name another";

/// What an import is asked for.
#[derive(Clone, Copy)]
pub struct ImportAsked<'a> {
    /// The space that gets the memory.
    pub space: SpaceId,
    /// How many rounds each checkpoint has.
    pub rounds: u64,
    pub counts: CountsAsked<'a>,
}

/// Where the memory of a core goes, and how many rounds its checkpoint has.
#[derive(Clone, Copy)]
struct Saving {
    space: SpaceId,
    rounds: u64,
}

/// Imports the cores into a store, and returns it with the exit status.
fn import_over<D: Disk, W: Write, S: RunWatch>(
    called: Called<'_>,
    saving: Saving,
    sources: &[Source<'_>],
    disk: D,
    out: &mut Output<W>,
    watch: &mut S,
) -> (D, u8)
    // The disk was only read, or events were made over it. Whatever moment of it a crash comes, the journal of that
    // moment allows what it leaves.
    ensures left { IsLeftByEvents D.Disk disk result.0 }
{
    match World::open(called.rt.alloc(), disk, FRAMES) {
        Ok(mut world) => {
            let ended = import_all(called, saving, sources, &mut world, out, watch);
            world.sound();
            (world.close(), exit(&ended, out))
        }
        Err(OpenError { fault, disk }) => (disk, exit(&Err(unopened(fault)), out)),
    }
}

/// Opens the store of a world again, and imports the cores, up to the first that isn't saved. Between two the journal
/// is trimmed, so each has all of its room.
fn import_all<D: Disk, W: Write, S: RunWatch>(
    called: Called<'_>,
    saving: Saving,
    sources: &[Source<'_>],
    world: &mut World<D>,
    out: &mut Output<W>,
    watch: &mut S,
) -> Result<(), Stop>
    ensures goes_on { GoesOn D.Disk world.old world.new }
{
    let reopened = world.do_job(Event::Reopen, Worker::Opener, watch);
    if !matches!(&reopened, Reply::Reopened(_)) {
        return Err(refused(called.rt.alloc(), reopened, out));
    }
    for source in sources {
        import_one(called, saving, source, world, out, watch)?;
        let _ = world.make(Event::Trim);
    }
    Ok(())
}

/// Gives the space the memory of a core, and makes a checkpoint.
fn import_one<D: Disk, W: Write, S: RunWatch>(
    called: Called<'_>,
    saving: Saving,
    source: &Source<'_>,
    world: &mut World<D>,
    out: &mut Output<W>,
    watch: &mut S,
) -> Result<(), Stop>
    ensures goes_on { GoesOn D.Disk world.old world.new }
{
    let alloc = called.rt.alloc();
    let file = ShownCore::new(called.rt, &source.file, called.is_watched());
    let imported = import_core(alloc, world, &file, &source.core, saving.space);
    file.clear();
    match imported {
        Ok(tally) => print_tally(&tally, out)?,
        Err(error) => return Err(ended_with(called, source.name, error, out)),
    }
    let answer = world.do_job(Event::Begin(saving.rounds), Worker::Dumper, watch);
    if let Reply::Refused(why) = &answer {
        watch.refused(world.core(), *why);
    }
    if !matches!(&answer, Reply::Acked(_)) {
        return Err(refused(alloc, answer, out));
    }
    print_reply(alloc, answer, out)?;
    Ok(out.flush()?)
}

/// Prints what was imported, also where the output is held back, before the checkpoint is made.
fn print_tally<W: Write>(tally: &Tally, out: &mut Output<W>) -> io::Result<()> {
    writeln!(out, "{tally}")?;
    out.flush()
}

/// Prints a reply as one line, in one piece.
fn print_reply<W: Write>(alloc: Global, reply: Reply, out: &mut Output<W>) -> Result<(), Stop> {
    let mut line = Vec::new(alloc);
    if print_answer(&Answer::Reply(reply), &mut line).is_err() {
        return Err(Stop::Fault(Fault::OutOfMemory));
    }
    out.write_all(&line)?;
    Ok(())
}

/// Prints a reply that ends an import, and returns how the program ends.
fn refused<W: Write>(alloc: Global, reply: Reply, out: &mut Output<W>) -> Stop {
    match print_reply(alloc, reply, out) {
        Ok(()) => Stop::Refused,
        Err(stop) => stop,
    }
}

/// Prints why an import ended early, and reports its cause.
fn ended_with<W: Write>(
    called: Called<'_>,
    name: &str,
    error: ImportError,
    out: &mut Output<W>,
) -> Stop {
    match error {
        ImportError::Core(error) => unread(called.rt, called.causes, name, error, out),
        ImportError::Answer(reply) => refused(called.rt.alloc(), reply, out),
        ImportError::Changed => {
            tell(called.rt, called.causes, name, &CHANGED);
            end_after(b"core changed\n", out)
        }
        ImportError::OutOfMemory => Stop::Fault(Fault::OutOfMemory),
    }
}

/// `ckpt import` of the cores of these names: files that are missing are made. All cores are opened before; where one
/// is none, no file is made.
///
/// # Errors
///
/// Those of a core that isn't read, and of a store that isn't opened.
pub fn import_program<R: Clock + Wait, W: Write>(
    called: Called<'_>,
    clock: &R,
    names: &[&str],
    asked: ImportAsked<'_>,
    out: &mut Output<W>,
) -> Result<u8, Stop>
    // The files that are found in the folder of the command line were only read, or events were made over them.
    ensures left { IfOk result (λ _. LeavesFiles ⟦<CountedDisk<'static> as Disk>⟧
        (outside_of called.entry.found.now).found) }
{
    let sources = open_cores(called.rt, called.causes, names, out)?;
    let inputs = Inputs {
        paths: names,
        cause: IS_CORE,
    };
    let session = Session::new(called);
    let course = Course::none(called.rt);
    let (disk, mut watch) = session.open(clock, asked.counts, inputs, course, out)?;
    let saving = Saving {
        space: asked.space,
        rounds: asked.rounds,
    };
    let rounds = saving.rounds;
    let (disk, status) = import_over(called, saving, &sources, disk, out, &mut watch);
    let few = watch.course().few();
    let status = session.close(disk, watch, status);
    if let Some(few) = few {
        called.report_few(FewSlots::of_checkpoint(few.free, rounds));
    }
    Ok(status)
}
