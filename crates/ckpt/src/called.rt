//! How the program is called: the words of its command line, and the descriptors that the caller leaves open.

use crate::FAILED;
use sd_program::{Causes, tell};
use std::fs::File;
use std::io;
use std::rt::{Env, Files};

/// The exit status where the command line doesn't fit.
const UNFIT: u8 = 2;

/// The device of nothing.
pub const NOTHING: &str = "/dev/null";

/// Where a fault of the words is met, as its cause says.
const COMMAND_LINE: &str = "the command line";

/// The words that the program was called with, or the status where they can't be taken.
pub fn words_of(rt: &(impl Env + Eprint + AllocGlobal)) -> Result<Vec<String>, u8> {
    let words = match std::env::args(rt) {
        Ok(words) => words.collect(rt.alloc()).map_err(io::Error::from),
        Err(error) => Err(error),
    };
    words.map_err(|error| match error.kind() {
        io::ErrorKind::InvalidData => {
            tell(rt, Causes::Told, COMMAND_LINE, &"a word of it isn't UTF-8");
            UNFIT
        }
        _ => {
            tell(rt, Causes::Told, COMMAND_LINE, &error);
            FAILED
        }
    })
}

/// Prints what is wrong with the words, or the help, and returns the status. That of wrong words stays where they can't
/// be printed.
pub fn print_words_fault(rt: &(impl Print + Eprint), error: &clap::Error) -> io::Result<u8> {
    match error.print(rt) {
        Err(unprinted) if !error.use_stderr() => Err(unprinted),
        _ => Ok(error.exit_code() as u8),
    }
}

/// Holds three descriptors of nothing. Those of 0 to 2 that the caller closed are among them, so no file of a store
/// becomes the standard output.
pub fn hold_descriptors(rt: &impl Files<File = File>) -> io::Result<(File, File, File)> {
    let first = File::open(rt, NOTHING)?;
    let second = File::open(rt, NOTHING)?;
    let third = File::open(rt, NOTHING)?;
    Ok((first, second, third))
}
