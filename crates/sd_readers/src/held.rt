//! Answers that are held back until they are known to be whole.
ghost use Rattle.sd_exit.specs.Ending.{Exits};

use sd_exit::Output;
use std::io::Write;

/// Prints a text that was held back, and flushes; returns the status that came with it, or 1 where anything was
/// refused.
pub fn print_held<W: Write>(text: &[u8], status: u8, out: &mut Output<W>) -> u8
    ensures exits { Exits (W.contents out.old.writer) (W.contents out.new.writer) out.new.refused text.now status
        result }
{
    let _ = out.write_all(text);
    out.finish(status)
}
