//! The lines of a script, answered by a world.
ghost use Rattle.std.specs.Prelude.{◌≡◌, ◌∷◌, true, Err, IfErr, IfOk, OnErr, OnOk};
ghost use Rattle.std.specs.Io.KnownBytes.{Appends, Keeps};
ghost use Rattle.sd_exit.specs.declared.stop.Stop.TheVariants as stop;
ghost use Rattle.sd_exit.specs.Ending.{OnWriter};
ghost use Rattle.sd_exit.specs.Texts.{PrintsBeginning};
ghost use Rattle.sd_script.specs.declared.line.Line.TheVariants as asked;
ghost use Rattle.sd_script.specs.Texts.{answer_line};
ghost use Rattle.sd_world.specs.Points.{StandsAt};
ghost use Rattle.sd_world.specs.Promise.{Point};
ghost use Rattle.sd_run.specs.Ending.{IsUnprinted};
ghost use Rattle.sd_run.specs.Strict.{ChecksAnswer, IsEndOfLines, Passes, StopsStrictly};
ghost use Rattle.sd_world.specs.Goes.{GoesOn};
ghost use Rattle.sd_world.specs.Runs.{IsStep};
ghost use Rattle.sd_world.specs.declared.event.Event.TheVariants.{Command as CommandEvent};
ghost use Rattle.sd_run.specs.Lines.{AnswersLine};
ghost use Rattle.sd_run.specs.Promise.{RunsLine, Tells};
ghost use Rattle.sd_run.specs.Whole.{PrintsLines, PrintsSome};
ghost use Rattle.sd_run.specs.Words.{AreGiven};

use crate::page_words;
use crate::printing::print_line;
use crate::rule::Rule;
use crate::watching::RunWatch;
use sd_areas::SpaceId;
use sd_command::{Command, Reply};
use sd_disk::Disk;
use sd_exit::{Output, Stop};
use sd_gate::Worker;
use sd_script::{Answer, Line};
use sd_world::{Event, Watch, World};
use std::alloc::Global;
use std::io::Write;

/// The seat that a script's commands come from.
const SCRIPT_SEAT: usize = 0;

/// Makes the event of a command.
pub(crate) fn apply<D: Disk>(world: &mut World<D>, command: Command) -> Reply
    ensures step { IsStep D.Disk (CommandEvent 0 command) world.old result world.new }
    ensures goes_on { GoesOn D.Disk world.old world.new }
{
    world.apply(SCRIPT_SEAT, command)
}

/// Shows a watch whose events a line makes, where it makes those of a worker.
fn show_worker<D: Disk, S: Watch>(world: &World<D>, line: &Line, watch: &mut S) {
    match line {
        Line::Work(worker)
        | Line::Perform(worker)
        | Line::PerformAt { worker, .. }
        | Line::Step { worker, .. }
        | Line::Finish(worker) => watch.steps(world.core(), *worker),
        _ => {}
    }
}

/// Makes the events of a line, and returns what the last of them is answered. A line that asks for words makes none.
fn answer<D: Disk, S: Watch>(
    alloc: Global,
    world: &mut World<D>,
    line: Line,
    watch: &mut S,
) -> Answer
    ensures answered { AnswersLine D.Disk line world.old result world.new }
    ensures goes_on { GoesOn D.Disk world.old world.new }
{
    show_worker(world, &line, watch);
    let reply = match line {
        Line::Command(command) => apply(world, command),
        Line::Begin(rounds) => world.make(Event::Begin(rounds)),
        Line::BeginMerge => world.make(Event::Merge),
        Line::Cancel => world.make(Event::Cancel),
        Line::Trim => world.make(Event::Trim),
        Line::Work(worker) => world.make(Event::Work(worker)),
        Line::Perform(worker) => world.make(Event::Perform(worker)),
        Line::PerformAt { worker, place } => world.make(Event::PerformAt(worker, place)),
        Line::Step { worker, count } => world.advance(worker, count.max(1)),
        Line::Finish(worker) => world.finish_watched(worker, watch),
        Line::Checkpoint(rounds) => world.do_job(Event::Begin(rounds), Worker::Dumper, watch),
        Line::Merge => world.do_job(Event::Merge, Worker::Merger, watch),
        Line::Reopen => world.do_job(Event::Reopen, Worker::Opener, watch),
        Line::Words {
            space,
            address,
            count,
        } => return words(alloc, world, space, address, count),
    };
    Answer::Reply(reply)
}

/// The words of so many pages, from the page of an address on, as the memory stands, frozen or not.
fn words<D: Disk>(
    alloc: Global,
    world: &World<D>,
    space: SpaceId,
    address: u64,
    count: u64,
) -> Answer
    ensures given { AreGiven world.now.core.memory space address count result }
    ensures goes_on { GoesOn D.Disk world.now world.now }
{
    world.sound();
    page_words::answer(alloc, world.core().memory(), space, address, count)
}

/// Answers a line, and prints its answer, which the watch then sees. An acknowledged checkpoint is seen before the
/// next line begins; other answers may wait in the writer's buffer.
///
/// # Errors
///
/// `Fault` where there is no room for the answer's text, and `Writer` where it was refused; `Refused` where the answer
/// ends the run by its rule. The line was answered.
fn answer_one<D: Disk, W: Write, S: RunWatch>(
    alloc: Global,
    world: &mut World<D>,
    line: Line,
    rule: Rule,
    buffer: &mut Vec<u8>,
    out: &mut Output<W>,
    watch: &mut S,
) -> Result<(), Stop>
    // Its answer is printed, or a beginning of that.
    ensures printed { (given : Answer) × AnswersLine D.Disk line world.old given world.new
        × OnOk result (Appends (W.contents out.old.writer) (W.contents out.new.writer) (answer_line given))
        × PrintsBeginning (W.contents out.old.writer) (W.contents out.new.writer) (answer_line given)
        × ChecksAnswer rule given result (W.contents out.old.writer) (W.contents out.new.writer) }
    ensures goes_on { GoesOn D.Disk world.old world.new }
    ensures stops { IfErr result (IsEndOfLines rule) }
    ensures writer { OnWriter result (out.new.refused ≡ true) }
{
    let given = answer(alloc, world, line, watch);
    print_line(&given, buffer, out)?;
    flush_acked(&given, out)?;
    watch.answered(world.core(), &given);
    rule.check(&given)
}

/// Flushes after the answer of an acknowledged checkpoint.
#[tactic(auto, using(crate::proofs::LineLemmas::stays))]
fn flush_acked<W: Write>(given: &Answer, out: &mut Output<W>) -> Result<(), Stop>
    ensures bytes { Keeps (W.contents out.old.writer) (W.contents out.new.writer) }
    ensures stops { IfErr result IsUnprinted }
    ensures writer { OnWriter result (out.new.refused ≡ true) }
{
    if let Answer::Reply(Reply::Acked(_)) = given {
        out.flush()?;
    }
    Ok(())
}

/// Answers one request of a run, and prints its answer, for a caller that has them one by one; returns the answer. An
/// acknowledged checkpoint, a merge and a reopening are flushed; another answer may wait in the writer's buffer, so
/// flush before you wait for the next request. The world is opened over [`FRAMES`](crate::FRAMES) frames, and its first
/// request is `Line::Reopen`, as in `run_lines`.
///
/// # Errors
///
/// `Fault` where there is no room for the answer's text, and `Writer` where it was refused. The request was answered.
pub fn run_line<D: Disk, W: Write, S: Watch>(
    alloc: Global,
    world: &mut World<D>,
    line: Line,
    out: &mut Output<W>,
    watch: &mut S,
) -> Result<Answer, Stop>
    ensures answered { (given : Answer) × AnswersLine D.Disk line world.old given world.new
        × IfOk result (Tells given (W.contents out.old.writer) (W.contents out.new.writer)) }
    ensures goes_on { GoesOn D.Disk world.old world.new }
    // It fails only where the answer isn't printed, for lack of memory or since the writer refused it.
    ensures stops { IfErr result IsUnprinted }
    ensures writer { IfErr result (λ why. OnWriter (Err why) (out.new.refused ≡ true)) }
    // The same of the line, its answer, what is printed and the disk alone, as in `run_lines`.
    ensures promise { D.is_honest world.new.disk → (first : Point D) → StandsAt world.old first
        → RunsLine D.Disk line first world.new result
        (W.contents out.old.writer) (W.contents out.new.writer) }
{
    world.points_follow();
    let told = answer(alloc, world, line, watch);
    print_line(&told, &mut Vec::new(alloc), out)?;
    flush_settled(&told, out)?;
    Ok(told)
}

/// Flushes after an answer that says what the store shows: an acknowledged checkpoint, a merge, a reopening.
#[tactic(auto, using(crate::proofs::LineLemmas::stays))]
fn flush_settled<W: Write>(given: &Answer, out: &mut Output<W>) -> Result<(), Stop>
    ensures bytes { Keeps (W.contents out.old.writer) (W.contents out.new.writer) }
    ensures stops { IfErr result IsUnprinted }
    ensures writer { OnWriter result (out.new.refused ≡ true) }
{
    if let Answer::Reply(Reply::Acked(_) | Reply::Merged(_) | Reply::Reopened(_)) = given {
        out.flush()?;
    }
    Ok(())
}

/// Answers one line after the other, and prints each answer, up to the first that ends the run by its rule.
///
/// # Errors
///
/// Those of the printing, and `Refused` after an answer that ends the run: no further line is answered.
fn print_all<D: Disk, W: Write, S: RunWatch>(
    alloc: Global,
    world: &mut World<D>,
    lines: Vec<Line>,
    rule: Rule,
    buffer: &mut Vec<u8>,
    out: &mut Output<W>,
    watch: &mut S,
) -> Result<(), Stop>
    ensures told { OnErr result (PrintsSome D.Disk world.old lines.items world.new
        (W.contents out.old.writer) (W.contents out.new.writer)) }
    ensures printed { OnOk result ((all : PrintsLines D.Disk world.old lines.items world.new
        (W.contents out.old.writer) (W.contents out.new.writer)) × Passes rule all.answers) }
    ensures strict { result ≡ Err stop.Refused → StopsStrictly D.Disk rule world.old lines.items world.new
        (W.contents out.old.writer) (W.contents out.new.writer) }
    ensures goes_on { GoesOn D.Disk world.old world.new }
    ensures stops { IfErr result (IsEndOfLines rule) }
    ensures writer { OnWriter result (out.new.refused ≡ true) }
{
    world.sound();
    for line in lines {
        answer_one(alloc, world, line, rule, buffer, out, watch)?;
    }
    Ok(())
}

/// Opens the store of a world again, and then answers the lines, each with its answer printed, up to the first answer
/// that ends the run by its rule.
///
/// # Errors
///
/// Those of the printing, and `Refused` after an answer that ends the run: no further line is answered.
pub(crate) fn answer_all<D: Disk, W: Write, S: RunWatch>(
    alloc: Global,
    world: &mut World<D>,
    lines: Vec<Line>,
    rule: Rule,
    buffer: &mut Vec<u8>,
    out: &mut Output<W>,
    watch: &mut S,
) -> Result<(), Stop>
    ensures told { PrintsSome D.Disk world.old (asked.Reopen ∷ lines.items) world.new
        (W.contents out.old.writer) (W.contents out.new.writer) }
    ensures printed { OnOk result ((all : PrintsLines D.Disk world.old (asked.Reopen ∷ lines.items) world.new
        (W.contents out.old.writer) (W.contents out.new.writer)) × Passes rule all.answers) }
    ensures strict { result ≡ Err stop.Refused → StopsStrictly D.Disk rule world.old (asked.Reopen ∷ lines.items)
        world.new (W.contents out.old.writer) (W.contents out.new.writer) }
    ensures goes_on { GoesOn D.Disk world.old world.new }
    ensures stops { IfErr result (IsEndOfLines rule) }
    ensures writer { OnWriter result (out.new.refused ≡ true) }
{
    answer_one(alloc, world, Line::Reopen, rule, buffer, out, watch)?;
    print_all(alloc, world, lines, rule, buffer, out, watch)
}
