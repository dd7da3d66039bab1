//! How far the run of a script is: the request that was answered last, the first that found too few free slots, and the
//! one that ended a strict run.
ghost use Rattle.std.specs.Prelude.{◌≡◌, [], false};
ghost use Rattle.std.specs.Option.{option_copied};
ghost use Rattle.sd_watching.specs.Course.{IsFresh};

use sd_command::{Refusal, Reply};
use sd_core::Core;
use sd_program::{CLEAR, Done, Pace};
use sd_run::is_failure;
use sd_script::{Answer, print_answer};
use std::io::Write;
use std::time::Duration;
use std::{fmt, io};

/// How many answers are printed between two looks at the clock.
const ANSWERS_A_LOOK: usize = 16;

/// A line of a script, of how many.
#[derive(Clone, Copy)]
pub struct LineOf {
    pub number: usize,
    pub of: usize,
}

impl fmt::Display for LineOf {
    fn fmt<W: fmt::Write>(&self, f: &mut fmt::Formatter<W>) -> fmt::Result {
        write!(f, "script line {} of {}", self.number, self.of)
    }
}

/// A request that found too few free slots.
#[derive(Clone, Copy)]
pub struct FewAt {
    /// Its number among the requests of the script, counted from 1.
    pub request: usize,
    /// How many slots were free.
    pub free: usize,
}

/// The request at which a strict run ended, and the line of its answer.
#[derive(Drop)]
pub struct Failure {
    /// Its number among the requests of the script, counted from 1; 0 is the opening.
    pub request: usize,
    pub answer: Vec<u8>,
}

/// How far the run of a script is, as it is reported.
#[derive(Drop)]
pub struct Course<'a> {
    rt: &'a HostRuntime,
    /// The script, or nothing where none is run.
    script: &'a [u8],
    /// How many requests were answered. The first is the opening.
    answers: usize,
    few: Option<FewAt>,
    /// The first request whose answer is a refusal or `segv`.
    failure: Option<Failure>,
    /// Whether an order had nothing to do.
    idle: bool,
    /// Whether the line of a long script is written.
    shows: bool,
    pace: Pace,
    is_shown: bool,
}

impl<'a> Course<'a> {
    /// The course of a script of which nothing was answered yet. `shows` says whether its line is written where it
    /// takes long.
    pub fn new(rt: &'a HostRuntime, script: &'a [u8], shows: bool) -> Self
        ensures script { result.script ≡ script.entry }
        ensures shows { result.shows ≡ shows }
        ensures fresh { IsFresh result }
    {
        Course {
            rt,
            script,
            answers: 0,
            few: None,
            failure: None,
            idle: false,
            shows,
            pace: Pace::IDLE,
            is_shown: false,
        }
    }

    /// The course of a program that runs no script.
    pub fn none(rt: &'a HostRuntime) -> Self
        ensures script { result.script.now ≡ [] }
        ensures shows { result.shows ≡ false }
        ensures fresh { IsFresh result }
    {
        Course::new(rt, &[], false)
    }

    /// The first request whose answer is a refusal or `segv`.
    pub fn failure(&self) -> Option<&Failure>
        ensures { option_copied result ≡ self.now.failure }
    {
        self.failure.as_ref()
    }

    /// The first request that found too few free slots.
    pub fn few(&self) -> Option<FewAt>
        ensures { result ≡ self.now.few }
    {
        self.few
    }

    /// Whether an order had nothing to do.
    pub fn was_idle(&self) -> bool
        ensures { result ≡ self.now.idle }
    {
        self.idle
    }

    /// The line whose request is being answered, if one is.
    pub(crate) fn line(&self) -> Option<LineOf> {
        let number = line_of_request(self.script, self.answers)?;
        let of = self.script.split(|byte| *byte == b'\n').count();
        let ends = self.script.ends_with(b"\n");
        let of = of.saturating_sub(usize::from(ends));
        Some(LineOf { number, of })
    }

    /// Takes in that the next request was answered.
    pub(crate) fn answered(&mut self, core: &Core, given: &Answer) {
        let request = self.answers;
        if let Answer::Reply(Reply::Refused(why)) = given {
            self.refused(core, *why);
        }
        if is_failure(given) && self.failure.is_none() {
            self.note_failure(request, given);
        }
        self.answers = request.saturating_add(1);
        if self.shows && request % ANSWERS_A_LOOK == 0 {
            self.look();
        }
    }

    /// Takes in that the next request is refused.
    pub(crate) fn refused(&mut self, core: &Core, why: Refusal) {
        if why == Refusal::Idle {
            self.idle = true;
        }
        if why == Refusal::NoSlot && self.few.is_none() {
            self.note_few(core);
        }
    }

    /// Keeps how many slots the next request found free. A count that finds no room is left out.
    fn note_few(&mut self, core: &Core) {
        if let Ok(free) = core.free_slots() {
            self.few = Some(FewAt {
                request: self.answers,
                free: free.len(),
            });
        }
    }

    /// Keeps the answer of a request that failed. One that finds no room is left out.
    fn note_failure(&mut self, request: usize, given: &Answer) {
        let mut answer = Vec::new(self.rt.alloc());
        if print_answer(given, &mut answer).is_ok() {
            self.failure = Some(Failure { request, answer });
        }
    }

    /// Looks at the clock, and writes the script's line where it is time for it.
    fn look(&mut self) {
        if let Some(took) = self.pace.due(self.rt) {
            // A line that can't be written is no fault of the run.
            let _ = self.show(took);
        }
    }

    /// Writes the script's line over the one that stands there.
    fn show(&mut self, took: Duration) -> io::Result<()> {
        let Some(line) = self.line() else {
            return Ok(());
        };
        let done = Done {
            done: line.number as u128,
            of: line.of as u128,
            took,
        };
        self.is_shown = true;
        let mut text = Vec::new(self.rt.alloc());
        write!(text, "{CLEAR}{line}: {done}")?;
        self.rt.stderr().write_all(&text)
    }

    /// Clears the script's line.
    pub fn clear(&self) {
        if self.is_shown {
            let _ = self.rt.stderr().write_all(CLEAR.as_bytes());
        }
    }

    /// The number of the line that has this request of the script. Both are counted from 1.
    pub fn line_of_request(&self, request: usize) -> Option<usize> {
        line_of_request(self.script, request)
    }
}

/// The number of the line that has this request of a script. Both are counted from 1.
fn line_of_request(script: &[u8], request: usize) -> Option<usize> {
    let before = request.checked_sub(1)?;
    let mut lines = script
        .split(|byte| *byte == b'\n')
        .enumerate()
        .filter(|(_, line)| has_request(line));
    let (place, _) = lines.nth(before)?;
    Some(place.saturating_add(1))
}

/// Whether a line has a request: it isn't empty, and no comment.
fn has_request(line: &[u8]) -> bool {
    !line.is_empty() && !line.starts_with(b"#")
}

/// A line of a script, without its end. They are counted from 1.
pub fn line_of(bytes: &[u8], number: usize) -> Option<&[u8]> {
    bytes
        .split(|byte| *byte == b'\n')
        .nth(number.checked_sub(1)?)
}
