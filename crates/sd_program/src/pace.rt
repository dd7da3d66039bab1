//! When a line of progress is written, and how far something is.
ghost use Rattle.std.specs.Prelude.{◌≡◌, ◌/◌, IfNone, IfSome};
ghost use Rattle.std.specs.Duration.{as_nanos};
ghost use Rattle.sd_program.specs.Pace.{IsDue, IsNotDue, percent_of, secs_left_of};

use std::fmt;
use std::time::{Clock, Duration, Instant};

/// How many seconds a job takes before it is shown, and before its line is written anew.
const PAUSE_SECS: u64 = 1;

/// Goes to the start of a terminal's line, and clears it.
pub const CLEAR: &str = "\r\x1b[K";

/// How much of something is done.
#[derive(Clone, Copy)]
pub struct Done {
    pub done: u128,
    pub of: u128,
    /// How long it took.
    pub took: Duration,
}

impl Done {
    /// How much of a hundred is done, less than a hundred before the end.
    pub fn percent(self) -> u128
        ensures { result ≡ percent_of self.done self.of }
    {
        let hundredfold = self.done.saturating_mul(100);
        hundredfold.checked_div(self.of).unwrap_or(0).min(100)
    }

    /// How many seconds are left, if the rest goes on as fast.
    pub fn secs_left(self) -> u128
        ensures { result ≡ secs_left_of self.done self.of (as_nanos self.took / 1_000_000) }
    {
        let rest = self.of.saturating_sub(self.done);
        let millis = self.took.as_millis().saturating_mul(rest);
        millis.checked_div(self.done).unwrap_or(0) / 1000
    }
}

impl fmt::Display for Done {
    ghost use Rattle.std.specs.Prelude.{Some};
    ghost use Rattle.sd_program.specs.Texts.{done_text};

    ghost output = { λ done. Some (done_text done) };

    fn fmt<W: fmt::Write>(&self, f: &mut fmt::Formatter<W>) -> fmt::Result {
        write!(f, "{} %", self.percent())?;
        if self.done > 0 {
            write!(f, ", {} s left", self.secs_left())?;
        }
        Ok(())
    }
}

/// When a line is to be written: a second after the beginning, and then each second.
#[derive(Clone, Copy)]
pub struct Pace {
    begun: Option<Instant>,
    last: Option<Instant>,
}

impl Pace {
    /// Nothing has begun.
    pub const IDLE: Pace = Pace {
        begun: None,
        last: None,
    };

    /// How long it took so far, where it is time for a line. The first call is the beginning.
    pub fn due<R: Clock>(&mut self, clock: &R) -> Option<Duration>
        ensures due { IfSome result (IsDue self.old self.new) }
        ensures waits { IfNone result (IsNotDue self.old self.new) }
    {
        let now = Instant::now(clock).ok()?;
        let (Some(begun), Some(last)) = (self.begun, self.last) else {
            self.begun = Some(now);
            self.last = Some(now);
            return None;
        };
        if now.duration_since(last) < Duration::from_secs(PAUSE_SECS) {
            return None;
        }
        self.last = Some(now);
        Some(now.duration_since(begun))
    }
}
