//! Whether a shell asks for its requests, and how.
use sd_exit::{Output, Stop};
use std::io;
use std::io::Write;

/// What stands before each request, on a terminal.
const PROMPT: &str = "> ";

/// Whether a shell asks for each request, and explains what is wrong with one: where both its input and its output are
/// a terminal.
#[derive(Clone, Copy, PartialEq, Eq)]
pub(crate) enum Asking {
    Prompts,
    Silent,
}

/// Asks for the next request, on a terminal.
pub(crate) fn prompt<W: Write>(asking: Asking, out: &mut Output<W>) -> io::Result<()> {
    if asking == Asking::Silent {
        return Ok(());
    }
    out.write_all(PROMPT.as_bytes())?;
    out.flush()
}

/// Ends the line of a prompt after which the input ended.
pub(crate) fn end_prompt<W: Write>(asking: Asking, out: &mut Output<W>) -> Result<(), Stop> {
    if asking == Asking::Prompts {
        out.write_all(b"\n")?;
    }
    Ok(())
}

/// Whether a shell asks for its requests: where its input and its output are a terminal.
pub(crate) fn asking_of(is_terminal: bool) -> Asking {
    if is_terminal {
        Asking::Prompts
    } else {
        Asking::Silent
    }
}
