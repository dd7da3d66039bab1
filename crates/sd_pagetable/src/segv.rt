ghost use Rattle.std.specs.Prelude.{◌≡◌, Some};
ghost use Rattle.sd_pagetable.specs.Refusals.{segv_name};

use std::error::Error;
use std::fmt;

/// Why an access to a page is stopped, as SIGSEGV of POSIX.1-2017 reports it.
#[derive(Clone, Copy, Debug, PartialEq, Eq, Hash)]
pub enum Segv {
    /// The page isn't mapped.
    Maperr,
    /// The page's permissions don't allow it.
    Accerr,
}

impl Segv {
    /// Its name: SEGV_MAPERR or SEGV_ACCERR of POSIX.1-2017, in short.
    pub fn name(self) -> &'static str
        ensures { result.now ≡ segv_name self }
    {
        match self {
            Segv::Maperr => "maperr",
            Segv::Accerr => "accerr",
        }
    }
}

/// Prints its name.
impl fmt::Display for Segv {
    ghost output = { λ segv. Some (segv_name segv) };

    fn fmt<W: fmt::Write>(&self, f: &mut fmt::Formatter<W>) -> fmt::Result {
        f.write_str(self.name())
    }
}

impl Error for Segv {}
