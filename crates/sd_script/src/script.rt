//! Scripts: what a user asks for, line by line.

ghost use Rattle.std.specs.Prelude.{◌≡◌, ◌<◌, ◌++◌, [], ◌∷◌, length, true, false, OnOk, IfOk, IfSome, IfNone};
ghost use Rattle.std.specs.List.{filter_map};
ghost use Rattle.sd_script.specs.Script.{GivesMeaning, IfUnfit, first_unfit_line, is_unfit, lines_of, meaning_of};
ghost use Rattle.sd_script.specs.Script.{request_in, requests_of};

use crate::line::{self, Line};
use crate::line_error::LineError;
use crate::script_error::ScriptError;
use memchr::memchr;
use std::alloc::Global;
use std::str;

/// The requests of a script, in order.
#[derive(Drop)]
pub struct Script {
    pub lines: Vec<Line>,
}

impl Script {
    /// Parses a whole script: lines of UTF-8, each ended by byte 10 or the end of the script.
    /// Empty lines and those that begin with `#` ask for nothing.
    pub fn parse(alloc: Global, script: &[u8]) -> Result<Script, ScriptError>
        ensures fits { OnOk result (first_unfit_line script.now ≡ None) }
        ensures requests { IfOk result (λ s. s.lines.items ≡ requests_of script.now) }
        ensures unfit { IfUnfit result (λ n. first_unfit_line script.now ≡ Some n) }
    {
        let mut lines = Vec::new(alloc);
        let mut rest = script;
        let mut number = 1;
        while let Some((line, others)) = first_line(rest) {
            take_line(alloc, line, number, &mut lines)?;
            rest = others;
            number += 1;
        }
        take_line(alloc, rest, number, &mut lines)?;
        Ok(Script { lines })
    }
}

/// The first line of a text and what stands after its end, if byte 10 ends it.
fn first_line(text: &[u8]) -> Option<(&[u8], &[u8])>
    ensures first { IfSome result
        (λ parts. lines_of text.now ≡ parts.0.now ∷ lines_of parts.1.now) }
    ensures shorter { IfSome result (λ parts. length parts.1.now < length text.now) }
    ensures last { IfNone result (lines_of text.now ≡ text.now ∷ []) }
{
    let end = memchr(b'\n', text)?;
    Some((&text[..end], &text[end + 1..]))
}

/// Adds what a line asks for, if anything, to the requests.
fn take_line(
    alloc: Global,
    line: &[u8],
    number: usize,
    lines: &mut Vec<Line>,
) -> Result<(), ScriptError>
    ensures fits { OnOk result (is_unfit line.now ≡ false) }
    ensures asked { OnOk result
        (lines.new.items ≡ lines.old.items ++ filter_map request_in (line.now ∷ [])) }
    ensures unfit { IfUnfit result (λ n. (n ≡ number) × (is_unfit line.now ≡ true)) }
{
    match request(alloc, line) {
        Ok(Some(asked)) => lines.push(asked)?,
        Ok(None) => {}
        Err(LineError::Unfit) => return Err(ScriptError::Line(number)),
        Err(LineError::OutOfMemory) => return Err(ScriptError::OutOfMemory),
    }
    Ok(())
}

/// What a line asks for, if anything.
fn request(alloc: Global, bytes: &[u8]) -> Result<Option<Line>, LineError>
    ensures { GivesMeaning result (meaning_of bytes.now) }
{
    let Ok(text) = str::from_utf8(bytes) else {
        return Err(LineError::Unfit);
    };
    if text.is_empty() || text.starts_with('#') {
        return Ok(None);
    }
    Ok(Some(line::parse(alloc, text)?))
}
