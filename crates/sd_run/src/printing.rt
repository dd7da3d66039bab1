//! The answers of lines, printed.
ghost use Rattle.std.specs.Prelude.{◌≡◌, true, IfErr, OnOk};
ghost use Rattle.std.specs.Io.KnownBytes.{Appends};
ghost use Rattle.sd_exit.specs.Ending.{OnWriter};
ghost use Rattle.sd_exit.specs.Texts.{PrintsBeginning};
ghost use Rattle.sd_script.specs.Texts.{answer_line};
ghost use Rattle.sd_run.specs.Ending.{IsUnprinted};

use sd_exit::{Output, Stop};
use sd_restore::Fault;
use sd_script::{Answer, SHORT_LINE, print_answer, put_short_line};
use std::io::Write;

/// The length of the longest line of an answer: the words of 512 pages, and room beside them.
pub(crate) const LINE_BYTES: usize = 16_384;

/// Prints an answer as one line. A short line takes no memory; another is made in the buffer.
///
/// # Errors
///
/// `Fault` where there is no room for the line: nothing is printed. `Writer` where a part of it was refused: what the
/// writer took before that is a beginning of the line.
pub(crate) fn print_line<W: Write>(
    given: &Answer,
    buffer: &mut Vec<u8>,
    out: &mut Output<W>,
) -> Result<(), Stop>
    ensures printed { OnOk result
        (Appends (W.contents out.old.writer) (W.contents out.new.writer) (answer_line given.now)) }
    ensures begins { PrintsBeginning (W.contents out.old.writer) (W.contents out.new.writer) (answer_line given.now) }
    ensures stops { IfErr result IsUnprinted }
    ensures writer { OnWriter result (out.new.refused ≡ true) }
{
    let mut room = [0; SHORT_LINE];
    if let Some(count) = put_short_line(given, &mut room) {
        out.write_all(&room[..count])?;
        return Ok(());
    }
    buffer.clear();
    if print_answer(given, buffer).is_err() {
        return Err(Stop::Fault(Fault::OutOfMemory));
    }
    out.write_all(buffer)?;
    Ok(())
}
