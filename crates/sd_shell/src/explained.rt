//! What a shell reports beside its answers: what is wrong with a line, which requests there are, and limits.

use crate::asking::Asking;
use crate::bulk::{MOST_BYTES, blame_explained, explained_by};
use crate::shell::Asked;
use sd_exit::{Output, Stop};
use sd_program::{Causes, STANDARD_INPUT};
use sd_script::{Blame, LINE_FORMS, LineFault};
use std::io::Write;
use std::{fmt, io};

/// The most rounds of a checkpoint.
const MOST_ROUNDS: u64 = 8;

/// The most bytes of a word that is quoted.
const MOST_QUOTED: usize = 80;

/// What is wrong with a line, and where the requests are listed if its first word names none.
#[derive(Clone, Copy)]
struct Explained<'a> {
    blame: Blame<'a>,
    asking: Asking,
}

impl Explained<'_> {
    /// Where the requests are listed.
    fn list(self) -> &'static str {
        match self.asking {
            Asking::Prompts => "help lists the requests",
            Asking::Silent => {
                "ckpt run --help lists the requests, and ckpt shell --help put and get"
            }
        }
    }

    /// Says that no request has the first word, which is quoted unless it is long.
    fn write_unknown<W: fmt::Write>(self, f: &mut fmt::Formatter<W>) -> fmt::Result {
        f.write_str("no request is named ")?;
        match self.blame.field {
            Some(word) if word.len() <= MOST_QUOTED => write!(f, "{word:?}")?,
            _ => f.write_str("so")?,
        }
        if let Some(blank) = self.blame.blank {
            write!(f, "; {blank}")?;
        }
        write!(f, "; {}", self.list())
    }
}

impl fmt::Display for Explained<'_> {
    fn fmt<W: fmt::Write>(&self, f: &mut fmt::Formatter<W>) -> fmt::Result {
        match self.blame.fault {
            LineFault::UnknownRequest => self.write_unknown(f),
            _ => write!(f, "{}", self.blame),
        }
    }
}

/// Answers a line that doesn't fit, and reports what is wrong with it: on a terminal beside the answer, and else on the
/// standard error.
pub(crate) fn refuse_line<W: Write>(
    asked: Asked<'_>,
    line: &[u8],
    number: usize,
    out: &mut Output<W>,
) -> Result<(), Stop> {
    let alloc = asked.called.rt.alloc();
    let explained = explained_by(alloc, line)?;
    let cause = Explained {
        blame: blame_explained(alloc, &explained)?,
        asking: asked.asking,
    };
    if asked.asking == Asking::Prompts {
        writeln!(out, "script line {number}: {cause}")?;
        return Ok(());
    }
    writeln!(out, "script line {number}")?;
    if asked.called.causes == Causes::Told {
        let _ = eprintln!(asked.called.rt; "ckpt: {STANDARD_INPUT}: line {number}: {cause}");
    }
    Ok(())
}

/// More rounds than a checkpoint may have.
#[derive(Clone, Copy)]
struct TooManyRounds(u64);

impl fmt::Display for TooManyRounds {
    fn fmt<W: fmt::Write>(&self, f: &mut fmt::Formatter<W>) -> fmt::Result {
        write!(
            f,
            "a checkpoint has 0 to {MOST_ROUNDS} rounds, not {}",
            self.0
        )
    }
}

/// Reports how many rounds a checkpoint has at most, where more were asked for.
pub(crate) fn report_rounds(asked: Asked<'_>, rounds: Option<u64>) {
    if let Some(rounds) = rounds
        && rounds > MOST_ROUNDS
    {
        asked.called.tell(&TooManyRounds(rounds));
    }
}

/// Lists the requests, a line each.
pub(crate) fn print_requests<W: Write>(out: &mut Output<W>) -> io::Result<()> {
    for form in &LINE_FORMS {
        writeln!(out, "{form}: {}", form.does)?;
    }
    writeln!(
        out,
        "put SPACE ADDRESS LENGTH: stores the LENGTH bytes after the line, 1 to {MOST_BYTES}"
    )?;
    writeln!(
        out,
        "get SPACE ADDRESS LENGTH: loads 1 to {MOST_BYTES} bytes"
    )?;
    writeln!(out, "help: lists the requests")?;
    writeln!(out, "quit: ends the shell")
}
