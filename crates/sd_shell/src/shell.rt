//! `ckpt shell`: requests from the standard input, one by one. What is answered is printed before the shell waits for
//! more of its input.
ghost use Rattle.std.specs.Prelude.{◌≡◌, ◌↔◌, IfOk, IsTrue};
ghost use Rattle.sd_disk.specs.Folder.{outside_of};
ghost use Rattle.sd_run.specs.Whole.{IsLeftByEvents, LeavesFiles};
ghost use Rattle.sd_world.specs.Goes.{GoesOn};

use crate::asking::{Asking, asking_of, end_prompt, prompt};
use crate::bulk::{Bulk, BulkLine, MOST_BYTES, Way, answer_get, answer_put, parse_bulk};
use crate::explained::{print_requests, refuse_line, report_rounds};
use crate::requests::Requests;
use crate::waiting::{drop_bytes, wait_for_bytes, wait_for_line};
use sd_command::{Refusal, Reply};
use sd_core::Core;
use sd_disk::Disk;
use sd_exit::{Output, Stop, exit};
use sd_gate::Worker;
use sd_program::{Called, FewSlots, Inputs};
use sd_restore::Fault;
use sd_run::{FRAMES, Watch, run_line, unopened};
use sd_script::{Answer, Line, Script, ScriptError};
use sd_watching::{CountedDisk, CountsAsked, Course, Session, slots_for};
use sd_world::{OpenError, World};
use std::alloc::Global;
use std::cell::Cell;
use std::io::{IsTerminal, Read, Write};
use std::sync::Wait;
use std::time::Clock;

/// The line that ends a shell before its input does.
const QUIT: &[u8] = b"quit";

/// The line that lists the requests, on a terminal.
const HELP: &[u8] = b"help";

/// How requests are asked for, and of which store.
#[derive(Clone, Copy)]
pub(crate) struct Asked<'a> {
    pub(crate) called: Called<'a>,
    pub(crate) asking: Asking,
    /// The worker whose device call failed, until the store is opened again.
    failed: &'a Cell<Option<Worker>>,
}

impl Asked<'_> {
    /// Reports how many slots are free, where a request was refused because too few are.
    fn report_answer(self, core: &Core, wanted: Option<FewSlots>, answer: &Answer) {
        let Some(wanted) = wanted else {
            return;
        };
        if is_no_slot(answer)
            && let Ok(free) = core.free_slots()
        {
            let free = free.len();
            self.called.report_few(FewSlots { free, ..wanted });
        }
    }

    /// Keeps whose device call failed, and reports how many rounds a checkpoint has at most, where it was asked for
    /// more.
    fn note(self, answer: &Answer, worker: Option<Worker>, rounds: Option<u64>) {
        match answer {
            Answer::Reply(Reply::Refused(Refusal::Device)) => self.failed.set(worker),
            Answer::Reply(Reply::Reopened(_)) => self.failed.set(None),
            Answer::Reply(Reply::Refused(Refusal::Einval)) => report_rounds(self, rounds),
            _ => {}
        }
    }
}

/// Whether a request was refused because too few slots are free.
fn is_no_slot(answer: &Answer) -> bool
    ensures { IsTrue result ↔ (answer.now ≡ Answer.Reply (Reply.Refused Refusal.NoSlot)) }
{
    matches!(answer, Answer::Reply(Reply::Refused(Refusal::NoSlot)))
}

/// Runs requests over a store: it is opened, and opened again, whose reply is printed; then the lines of the input are
/// answered, up to its end or the line `quit`. A line that doesn't fit is answered with `script line N` and changes
/// nothing. An acknowledged checkpoint, a merge and a reopening are printed at once, and all answers before the shell
/// waits for its input. Returns the disk, and why the shell ended early, if it did.
fn run_shell<D: Disk, I: Read + Drop, W: Write, S: Watch>(
    asked: Asked<'_>,
    disk: D,
    input: I,
    out: &mut Output<W>,
    watch: &mut S,
) -> (D, Result<(), Stop>)
    // The disk was only read, or the store was opened and requests were answered. Whatever moment of it a crash comes,
    // the journal of that moment allows what it leaves.
    ensures left { IsLeftByEvents D.Disk disk result.0 }
{
    match World::open(asked.called.rt.alloc(), disk, FRAMES) {
        Ok(mut world) => {
            let mut requests = Requests::new(asked.called.rt.alloc(), input);
            let ended = answer_all(asked, &mut world, &mut requests, out, watch);
            world.sound();
            (world.close(), ended)
        }
        Err(OpenError { fault, disk }) => (disk, Err(unopened(fault))),
    }
}

/// Opens the store again, and answers the lines of the input.
fn answer_all<D: Disk, I: Read, W: Write, S: Watch>(
    asked: Asked<'_>,
    world: &mut World<D>,
    requests: &mut Requests<I>,
    out: &mut Output<W>,
    watch: &mut S,
) -> Result<(), Stop>
    ensures goes_on { GoesOn D.Disk world.old world.new }
{
    run_line(asked.called.rt.alloc(), world, Line::Reopen, out, watch)?;
    prompt(asked.asking, out)?;
    for number in 1..usize::MAX {
        if !answer_next(asked, world, requests, number, out, watch)? {
            break;
        }
    }
    Ok(())
}

/// Waits for the next line of the input, and answers it. Returns whether the shell goes on.
fn answer_next<D: Disk, I: Read, W: Write, S: Watch>(
    asked: Asked<'_>,
    world: &mut World<D>,
    requests: &mut Requests<I>,
    number: usize,
    out: &mut Output<W>,
    watch: &mut S,
) -> Result<bool, Stop>
    ensures goes_on { GoesOn D.Disk world.old world.new }
{
    world.sound();
    let Some(length) = wait_for_line(asked, requests, out)? else {
        end_prompt(asked.asking, out)?;
        return Ok(false);
    };
    if !answer_whole(asked, world, requests, length, number, out, watch)? {
        return Ok(false);
    }
    prompt(asked.asking, out)?;
    Ok(true)
}

/// Answers a line of so many bytes, with the bytes in bulk that come after it. Returns whether the shell goes on.
fn answer_whole<D: Disk, I: Read, W: Write, S: Watch>(
    asked: Asked<'_>,
    world: &mut World<D>,
    requests: &mut Requests<I>,
    length: usize,
    number: usize,
    out: &mut Output<W>,
    watch: &mut S,
) -> Result<bool, Stop>
    ensures goes_on { GoesOn D.Disk world.old world.new }
{
    world.sound();
    let line = requests.take_line(length);
    if line == QUIT {
        return Ok(false);
    }
    let Some(bulk) = answer(asked, world, line, number, out, watch)? else {
        return Ok(true);
    };
    answer_bulk(asked, world, bulk, requests, out)?;
    Ok(true)
}

/// Answers the request of a line, if it has one. One for bytes in bulk is returned.
fn answer<D: Disk, W: Write, S: Watch>(
    asked: Asked<'_>,
    world: &mut World<D>,
    line: &[u8],
    number: usize,
    out: &mut Output<W>,
    watch: &mut S,
) -> Result<Option<Bulk>, Stop>
    ensures goes_on { GoesOn D.Disk world.old world.new }
{
    world.sound();
    if line == HELP && asked.asking == Asking::Prompts {
        print_requests(out)?;
        return Ok(None);
    }
    match parse_bulk(asked.called.rt.alloc(), line)? {
        Some(BulkLine::Fits(bulk)) => Ok(Some(bulk)),
        Some(BulkLine::Unfit) => {
            refuse_line(asked, line, number, out)?;
            Ok(None)
        }
        None => {
            answer_line(asked, world, line, number, out, watch)?;
            Ok(None)
        }
    }
}

/// Answers the request of a line of the language, if it has one.
fn answer_line<D: Disk, W: Write, S: Watch>(
    asked: Asked<'_>,
    world: &mut World<D>,
    line: &[u8],
    number: usize,
    out: &mut Output<W>,
    watch: &mut S,
) -> Result<(), Stop>
    ensures goes_on { GoesOn D.Disk world.old world.new }
{
    world.sound();
    match request_of(asked.called.rt.alloc(), line) {
        Ok(Some(request)) => answer_request(asked, world, request, out, watch),
        Ok(None) => Ok(()),
        Err(ScriptError::Line(_)) => refuse_line(asked, line, number, out),
        Err(ScriptError::OutOfMemory) => Err(Stop::Fault(Fault::OutOfMemory)),
    }
}

/// The request of a line, if it has one.
fn request_of(alloc: Global, line: &[u8]) -> Result<Option<Line>, ScriptError> {
    let mut script = Script::parse(alloc, line)?;
    Ok(script.lines.pop())
}

/// Before a store is opened again whose device failed, the outcomes of the device calls that are out are handed in.
fn hand_in_failed<D: Disk, S: Watch>(
    asked: Asked<'_>,
    world: &mut World<D>,
    request: &Line,
    watch: &mut S,
) -> Result<(), Stop>
    ensures goes_on { GoesOn D.Disk world.old world.new }
{
    world.sound();
    if let (Line::Reopen, Some(failed)) = (request, asked.failed.get()) {
        return hand_in_all(asked, world, failed, watch);
    }
    Ok(())
}

/// Answers a request of the language.
fn answer_request<D: Disk, W: Write, S: Watch>(
    asked: Asked<'_>,
    world: &mut World<D>,
    request: Line,
    out: &mut Output<W>,
    watch: &mut S,
) -> Result<(), Stop>
    ensures goes_on { GoesOn D.Disk world.old world.new }
{
    let wanted = slots_for(&request, 0);
    let rounds = rounds_of(&request);
    let worker = worker_of(&request);
    hand_in_failed(asked, world, &request, watch)?;
    let given = run_line(asked.called.rt.alloc(), world, request, out, watch)?;
    asked.report_answer(world.core(), wanted, &given);
    asked.note(&given, worker, rounds);
    Ok(())
}

/// How many rounds a request asks for, if it begins a checkpoint.
fn rounds_of(request: &Line) -> Option<u64> {
    match request {
        Line::Begin(rounds) | Line::Checkpoint(rounds) => Some(*rounds),
        _ => None,
    }
}

/// The worker whose device calls a request may make.
fn worker_of(request: &Line) -> Option<Worker> {
    match request {
        Line::Checkpoint(_) => Some(Worker::Dumper),
        Line::Merge => Some(Worker::Merger),
        Line::Reopen => Some(Worker::Opener),
        Line::Work(worker) | Line::Perform(worker) | Line::Finish(worker) => Some(*worker),
        Line::PerformAt { worker, .. } | Line::Step { worker, .. } => Some(*worker),
        _ => None,
    }
}

/// How many device calls of a worker are out at most, and one more.
const CALLS: usize = 12;

/// Has each worker hand in what its device calls brought, the one whose call failed first: then the store is down, and
/// no other goes on. It is done by requests `finish`, whose answers nobody sees.
fn hand_in_all<D: Disk, S: Watch>(
    asked: Asked<'_>,
    world: &mut World<D>,
    failed: Worker,
    watch: &mut S,
) -> Result<(), Stop>
    ensures goes_on { GoesOn D.Disk world.old world.new }
{
    world.sound();
    for worker in [failed, Worker::Dumper, Worker::Merger, Worker::Opener] {
        hand_in(asked, world, worker, watch)?;
    }
    Ok(())
}

/// Has a worker go on until it is idle.
fn hand_in<D: Disk, S: Watch>(
    asked: Asked<'_>,
    world: &mut World<D>,
    worker: Worker,
    watch: &mut S,
) -> Result<(), Stop>
    ensures goes_on { GoesOn D.Disk world.old world.new }
{
    world.sound();
    let alloc = asked.called.rt.alloc();
    let mut unseen = Output::new(Vec::new(alloc));
    for _ in 0..CALLS {
        let given = run_line(alloc, world, Line::Finish(worker), &mut unseen, watch)?;
        if let Answer::Reply(Reply::Refused(Refusal::Idle)) = given {
            return Ok(());
        }
    }
    Ok(())
}

/// Answers a request for bytes in bulk. Those of a `put` that isn't carried out are read, and dropped.
fn answer_bulk<D: Disk, I: Read, W: Write>(
    asked: Asked<'_>,
    world: &mut World<D>,
    bulk: Bulk,
    requests: &mut Requests<I>,
    out: &mut Output<W>,
) -> Result<(), Stop>
    ensures goes_on { GoesOn D.Disk world.old world.new }
{
    world.sound();
    let length = bulk.length.min(usize::MAX as u64) as usize;
    if length > MOST_BYTES {
        if bulk.way == Way::Put {
            drop_bytes(asked, requests, length, out)?;
        }
        writeln!(out, "too-long {MOST_BYTES}")?;
        return Ok(());
    }
    let alloc = asked.called.rt.alloc();
    if bulk.way == Way::Get {
        return answer_get(alloc, world, bulk.place, length, out);
    }
    let bytes = wait_for_bytes(asked, requests, length, out)?;
    if bytes.len() < length {
        writeln!(out, "cut-off {}", bytes.len())?;
        return Ok(());
    }
    answer_put(alloc, world, bulk.place, bytes, out)
}

/// `ckpt shell`.
///
/// # Errors
///
/// Those of a store that isn't opened.
pub fn shell_program<R: Clock + Wait, W: Write>(
    called: Called<'_>,
    clock: &R,
    out: &mut Output<W>,
) -> Result<u8, Stop>
    // The files that are found in the folder of the command line were only read, or requests were answered over them.
    ensures left { IfOk result (λ _. LeavesFiles ⟦<CountedDisk<'static> as Disk>⟧
        (outside_of called.entry.found.now).found) }
{
    let rt = called.rt;
    let failed = Cell::new(None);
    let asked = Asked {
        called,
        asking: asking_of(rt.stdin().is_terminal() && rt.stdout().is_terminal()),
        failed: &failed,
    };
    let session = Session::new(called);
    let course = Course::none(rt);
    let (disk, mut watch) = session.open(clock, CountsAsked::NONE, Inputs::NONE, course, out)?;
    let (disk, ended) = run_shell(asked, disk, rt.stdin(), out, &mut watch);
    let status = exit(&ended, out);
    Ok(session.close(disk, watch, status))
}
