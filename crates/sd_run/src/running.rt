//! Whole runs of a script, from one disk to another.
ghost use Rattle.std.specs.Prelude.{◌≡◌, ◌≢◌, ◌∷◌, ℕ, Some, true, Err, IfErr, IsSome, OnOk};
ghost use Rattle.std.specs.Io.KnownBytes.{Appends};
ghost use Rattle.sd_exit.specs.declared.stop.Stop.TheVariants as stop;
ghost use Rattle.sd_exit.specs.Ending.{OnWriter};
ghost use Rattle.sd_script.specs.Script.{first_unfit_line, requests_of};
ghost use Rattle.sd_script.specs.declared.line.Line.TheVariants as asked;
ghost use Rattle.sd_run.specs.Ending.{IsWhyRun, script_fault_line};
ghost use Rattle.sd_run.specs.Promise.{Promise, PromiseAnyway, PromiseToExit};
ghost use Rattle.sd_run.specs.Strict.{IsStrictRun, Passes};
ghost use Rattle.sd_run.specs.Whole.{IsLeftByRun, IsWholeRun};

use crate::ending::{unfit, unopened};
use crate::lines::answer_all;
use crate::printing::LINE_BYTES;
use crate::rule::Rule;
use crate::watching::RunWatch;
use sd_disk::Disk;
use sd_exit::{Output, Stop, exit};
use sd_restore::Fault;
use sd_script::Script;
use sd_world::{OpenError, Unwatched, World};
use std::alloc::Global;
use std::io::Write;

/// How many frames a run's memory has.
pub const FRAMES: usize = 65_536;

/// Parses a whole script and then runs it over a disk: the store is opened, and opened again, whose reply is printed,
/// and then each line is answered, and its answer printed as one line. Returns the disk and the exit status: 0 at the
/// end of the script, 2 for a script that doesn't fit the language, and 1 where the store isn't opened or the writer
/// fails.
pub fn run_script<D: Disk, W: Write>(
    alloc: Global,
    disk: D,
    script: &[u8],
    out: &mut Output<W>,
) -> (D, u8)
    // A script with a line that doesn't fit never ends with status 0, and leaves the disk as it is.
    ensures unfit { IsSome (first_unfit_line script.now) → result.0 ≡ disk }
    ensures refused { IsSome (first_unfit_line script.now) → result.1 ≢ 0 }
    // With status 2 the first such line is blamed, and nothing else printed.
    ensures blamed { (number : ℕ) → first_unfit_line script.now ≡ Some number → result.1 ≡ 2
        → Appends (W.contents out.old.writer) (W.contents out.new.writer) (script_fault_line number) }

    // Status 0: the store was opened again, and the lines were answered, in order, each by its own events, and what was
    // printed is their answers. Whatever moment of it a crash comes, the journal of that moment allows what it leaves.
    ensures whole { result.1 ≡ 0 → IsWholeRun D.Disk (asked.Reopen ∷ requests_of script.now) disk result.0
        (W.contents out.old.writer) (W.contents out.new.writer) }
    // However it ends: the disk was only read, or the first lines were answered so, up to any place.
    ensures left { IsLeftByRun D.Disk (asked.Reopen ∷ requests_of script.now) disk result.0 }
    // Both again, of the lines, their answers, what is printed and the disk alone: `docs/PROMISE.md`.
    ensures promise { result.1 ≡ 0 → D.is_honest result.0
        → Promise D.Disk (asked.Reopen ∷ requests_of script.now) disk result.0
        (W.contents out.old.writer) (W.contents out.new.writer) }
    ensures so_far { D.is_honest result.0
        → PromiseToExit D.Disk (λ number. first_unfit_line script.now ≡ Some number)
        (asked.Reopen ∷ requests_of script.now) disk result.0 (W.contents out.old.writer)
        (W.contents out.new.writer) out.new.refused result.1 }
{
    match Script::parse(alloc, script) {
        Ok(script) => {
            let (disk, ended) = run_lines(alloc, disk, script, Rule::Plain, out, &mut Unwatched);
            (disk, exit(&ended, out))
        }
        Err(error) => (disk, exit(&Err(unfit(error)), out)),
    }
}

/// Runs a parsed script over a disk, as `run_script` does, up to the first answer that ends the run by its rule, and
/// returns the disk. The jobs that last are watched, and the watch sees each answer once it is printed.
///
/// # Errors
///
/// `Fault` and `NoFrame` where the store isn't opened, or there is no room for the answers' lines: nothing was printed.
/// `Fault` also where there is no room for an answer, and `Writer` where one is refused: no further line is answered.
/// `Refused` after an answer that ends the run by its rule, which is printed: no further line is answered.
pub fn run_lines<D: Disk, W: Write, S: RunWatch>(
    alloc: Global,
    disk: D,
    script: Script,
    rule: Rule,
    out: &mut Output<W>,
    watch: &mut S,
) -> (D, Result<(), Stop>)
    ensures whole { OnOk result.1 (IsWholeRun D.Disk (asked.Reopen ∷ script.lines.items) disk result.0
        (W.contents out.old.writer) (W.contents out.new.writer)) }
    ensures left { IsLeftByRun D.Disk (asked.Reopen ∷ script.lines.items) disk result.0 }
    // Both again, of the lines, their answers, what is printed and the disk alone: `docs/PROMISE.md`.
    ensures promise { OnOk result.1 (D.is_honest result.0
        → Promise D.Disk (asked.Reopen ∷ script.lines.items) disk result.0
        (W.contents out.old.writer) (W.contents out.new.writer)) }
    ensures so_far { D.is_honest result.0 → PromiseAnyway D.Disk (asked.Reopen ∷ script.lines.items)
        disk result.0 (W.contents out.old.writer) (W.contents out.new.writer) }
    // A strict run ends at the first answer that is a refusal or `segv`, which is printed, and at no other.
    ensures passes { OnOk result.1 ((run : IsWholeRun D.Disk (asked.Reopen ∷ script.lines.items) disk result.0
        (W.contents out.old.writer) (W.contents out.new.writer)) × Passes rule run.answers.answers) }
    ensures strict { result.1 ≡ Err stop.Refused → IsStrictRun D.Disk rule (asked.Reopen ∷ script.lines.items)
        disk result.0 (W.contents out.old.writer) (W.contents out.new.writer) }
    // What stopped it is what it names.
    ensures why { D.is_honest result.0 → result.1 ≢ Err stop.Refused → IfErr result.1
        (IsWhyRun (λ _. ⊥) (D.contents disk) (D.failed disk) (D.failed result.0)) }
    ensures writer { OnWriter result.1 (out.new.refused ≡ true) }
{
    let mut buffer = match Vec::with_capacity(alloc, LINE_BYTES) {
        Ok(buffer) => buffer,
        Err(_) => return (disk, Err(Stop::Fault(Fault::OutOfMemory))),
    };
    match World::open(alloc, disk, FRAMES) {
        Ok(mut world) => {
            let lines = script.lines;
            let ended = answer_all(alloc, &mut world, lines, rule, &mut buffer, out, watch);
            world.sound();
            world.points_follow();
            (world.close(), ended)
        }
        Err(OpenError { fault, disk }) => (disk, Err(unopened(fault))),
    }
}
