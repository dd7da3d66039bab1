//! What stands after a fixed line of the output, for a reader: one line on the standard error. Where that can't be
//! printed, nothing is lost.

use std::fmt;
use std::fmt::Display;

/// Whether causes are reported.
#[derive(Clone, Copy, PartialEq, Eq)]
pub enum Causes {
    Told,
    Kept,
}

/// A cause, and what may help.
#[derive(Drop)]
pub struct Advised<'a, C> {
    pub cause: &'a C,
    /// It begins with what divides it from the cause, or is empty.
    pub advice: &'static str,
}

impl<C: Display> Display for Advised<'_, C> {
    ghost use Rattle.std.specs.Prelude.{◌++◌};
    ghost use Rattle.std.specs.Option.{option_map};

    ghost output = { λ advised. option_map (λ text. text ++ advised.advice.now) (C.output advised.cause.now) };

    fn fmt<W: fmt::Write>(&self, f: &mut fmt::Formatter<W>) -> fmt::Result {
        write!(f, "{}{}", self.cause, self.advice)
    }
}

/// Reports the cause of a fault, after the place where it was met.
pub fn tell<C: Display>(rt: &impl Eprint, causes: Causes, place: &str, cause: &C) {
    if causes == Causes::Told {
        let place = if place.is_empty() { NO_NAME } else { place };
        let _ = eprintln!(rt; "ckpt: {place}: {cause}");
    }
}

/// What stands in the place of an empty name.
const NO_NAME: &str = "an empty name";
