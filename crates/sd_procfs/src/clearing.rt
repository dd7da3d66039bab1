//! Clearing the soft-dirty bits of a space.
ghost use Rattle.std.specs.Prelude.{◌≡◌, ◌≤◌, ℕ, Ok, Err, true, false, None, OnOk, OnErr};
ghost use Rattle.sd_pagetable.specs.Nested.{is_alive};
ghost use Rattle.sd_pagetable.specs.Contents.{plain_of};
ghost use Rattle.sd_procfs.specs.Clears.{Clears, HasHistory, IsNextIn, answer_to, is_clear_text};

use crate::clear_error::ClearError;
use sd_areas::{PageNo, SpaceId};
use sd_pagetable::{Memory, clear_law};

/// Takes a text that was written to the `clear_refs` of a space: `4`, also with a newline, clears the soft-dirty and
/// the writable bit of each mapped page, one page after the other, as the kernel document `soft-dirty` says. It takes
/// no memory.
///
/// # Errors
///
/// In this order: no-such-space; unsupported-value for every other text. An error changes nothing.
pub fn clear_refs(memory: &mut Memory, space: SpaceId, text: &[u8]) -> Result<(), ClearError>
    ensures due { result ≡ answer_to memory.old space text.now }
    ensures clears { OnOk result (Clears space memory.old memory.new) }
    // The tracking law is about these clears.
    ensures history { OnOk result (HasHistory space memory.old memory.new) }
    ensures memory { plain_of memory.new ≡ plain_of memory.old }
    ensures err { OnErr result (memory.new ≡ memory.old) }
{
    if memory.areas(space).is_none() {
        return Err(ClearError::NoSuchSpace);
    }
    if !is_clear_text(text) {
        return Err(ClearError::UnsupportedValue);
    }
    clear_pages(memory, space);
    Ok(())
}

/// Whether a text asks for a clear.
fn is_clear_text(text: &[u8]) -> bool
    ensures { result ≡ is_clear_text text.now }
{
    text == b"4".as_slice() || text == b"4\n".as_slice()
}

/// The next mapped page of a space after another.
fn next_in(memory: &Memory, space: SpaceId, page: PageNo) -> Option<PageNo>
    ensures { IsNextIn memory.now space page result }
{
    let (next_space, next) = memory.next_page(Some((space, page)))?;
    (next_space == space).then_some(next)
}

/// Clears each mapped page of a space, rising.
fn clear_pages(memory: &mut Memory, space: SpaceId)
    ensures clears { Clears space memory.old memory.new }
    ensures history { HasHistory space memory.old memory.new }
    ensures memory { plain_of memory.new ≡ plain_of memory.old }
{
    clear_law();
    let mut cursor = PageNo::new(0);
    while let Some(page) = cursor {
        memory.test_and_clear(space, page);
        cursor = next_in(memory, space, page);
    }
}
