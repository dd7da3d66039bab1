//! What is done with a memory that has no page. Only this file owns one.
use crate::bits::has_exact_bits;
use crate::line::{Line, returns_each};
use crate::procfs::is_shown;
use sd_pagetable::{Memory, MemoryError};
use std::alloc::{AllocError, Global};

/// What is done with a memory.
#[derive(Clone, Copy)]
pub(crate) enum TestAction {
    /// Each line of a script returns what it says.
    Script(&'static [Line]),
    /// A page has exact words, and what else is read of it.
    Bits,
    /// `/proc` shows it.
    Procfs,
}

/// Whether a memory does what it should.
fn does(alloc: Global, memory: &mut Memory, action: TestAction) -> Result<bool, MemoryError> {
    match action {
        TestAction::Script(script) => Ok(returns_each(memory, script)?),
        TestAction::Bits => has_exact_bits(memory),
        TestAction::Procfs => is_shown(alloc, memory),
    }
}

/// Whether a memory of so many frames does what it should.
pub(crate) fn runs(alloc: Global, frames: usize, action: TestAction) -> Result<bool, MemoryError> {
    does(
        alloc,
        &mut Memory::new(alloc, frames.clamp(1, 65_536))?,
        action,
    )
}
