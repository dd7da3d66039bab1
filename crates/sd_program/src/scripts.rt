//! The files that a program reads beside its store: scripts, from a file or from the standard input, and cores.
ghost use Rattle.std.specs.Prelude.{◌≡◌, ◌≢◌, ◌⊎◌, [], codes, false, All, IfErr};
ghost use Rattle.std.specs.IoError.{error_kind};
ghost use Rattle.sd_restore.specs.declared.fault.Fault.TheVariants as fault;

use crate::cause::{Advised, Causes, tell};
use crate::slots::is_same_file;
use sd_exit::Stop;
use sd_restore::Fault;
use std::io;
use std::io::{ErrorKind, Input, Read};
use std::rt::Files;

/// The name of the standard input, as a script.
pub const STANDARD_INPUT: &str = "-";

/// What is reported of a script that is a folder.
const IS_FOLDER: &str = "; SCRIPT is a file, and stands after DIR";

/// What is reported of a file of counts that is the script.
const IS_SCRIPT: &str = "the script that is to be run, which isn't written over: name another";

/// The bytes of a script, which is the standard input where it is named so.
fn bytes_of(rt: &HostRuntime, script: &str) -> io::Result<Vec<u8>> {
    if script != STANDARD_INPUT {
        return std::fs::read(rt, script);
    }
    let mut bytes = Vec::new(rt.alloc());
    rt.reader().read_to_end(&mut bytes)?;
    Ok(bytes)
}

/// Reads a script.
pub fn read_script(rt: &HostRuntime, causes: Causes, script: &str) -> Result<Vec<u8>, Stop>
    ensures { IfErr result (λ stop. (stop ≡ Stop.Fault fault.OutOfMemory) ⊎ (stop ≡ Stop.CannotReadScript)) }
{
    bytes_of(rt, script).map_err(|error| unread(rt, causes, script, &error))
}

/// Why a program ends that can't read its script, with the cause.
pub fn unread(rt: &impl Eprint, causes: Causes, script: &str, error: &io::Error) -> Stop
    ensures memory { error_kind error.now ≡ ErrorKind.OutOfMemory → result ≡ Stop.Fault fault.OutOfMemory }
    ensures other { error_kind error.now ≢ ErrorKind.OutOfMemory → result ≡ Stop.CannotReadScript }
{
    if error.kind() == ErrorKind::OutOfMemory {
        return Stop::Fault(Fault::OutOfMemory);
    }
    let advice = match error.kind() {
        ErrorKind::IsADirectory if script != STANDARD_INPUT => IS_FOLDER,
        _ => "",
    };
    let cause = error;
    tell(rt, causes, script, &Advised { cause, advice });
    Stop::CannotReadScript
}

/// The files that a program reads beside its store. None of them is written as a file of counts.
#[derive(Clone, Copy)]
pub struct Inputs<'a> {
    pub paths: &'a [&'a str],
    /// What is reported of a file of counts that is one of them.
    pub cause: &'a str,
}

impl<'a> Inputs<'a> {
    /// Those of a program that reads its store alone.
    pub const NONE: Inputs<'static> = Inputs {
        paths: &[],
        cause: "",
    };

    /// The script as the one input of a run. The standard input is no file of its own.
    pub fn of_script(names: &'a [&'a str; 1]) -> Inputs<'a>
        ensures standard { All (λ name. name.now ≡ codes "-") names.now → result.paths.now ≡ [] }
        ensures file { All (λ name. name.now ≢ codes "-") names.now → result.paths.now ≡ names.now }
        ensures cause { result.cause.now ≡ IS_SCRIPT.now }
    {
        let is_file = names[0] != STANDARD_INPUT;
        Inputs {
            paths: if is_file { names.as_slice() } else { &[] },
            cause: IS_SCRIPT,
        }
    }

    /// Whether a path leads to one of them.
    pub fn has(self, rt: &impl Files, path: &str) -> bool
        ensures none { self.entry.paths.now ≡ [] → result ≡ false }
    {
        self.paths.iter().any(|input| is_same_file(rt, path, input))
    }
}
