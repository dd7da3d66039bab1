ghost use Rattle.std.specs.Prelude.{Some};
ghost use Rattle.sd_pagetable.specs.Refusals.{memory_refusal_text};
ghost use Rattle.sd_pagetable.specs.declared.memory_refusal.MemoryRefusal.TheVariants.{NoSuchSpace as NoSuchSpaceRefusal};

use sd_pagetable::MemoryRefusal;
use std::error::Error;
use std::fmt;

/// The space isn't alive.
#[derive(Clone, Copy, Debug, PartialEq, Eq, Hash)]
pub struct NoSuchSpace;

/// Prints what `MemoryRefusal::NoSuchSpace` prints.
impl fmt::Display for NoSuchSpace {
    ghost output = { λ _. Some (memory_refusal_text NoSuchSpaceRefusal) };

    fn fmt<W: fmt::Write>(&self, f: &mut fmt::Formatter<W>) -> fmt::Result {
        write!(f, "{}", MemoryRefusal::NoSuchSpace)
    }
}

impl Error for NoSuchSpace {}
