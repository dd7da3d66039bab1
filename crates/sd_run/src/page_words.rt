//! The words of pages, as a line of a script asks for them.
ghost use Rattle.std.specs.Prelude.{◌≡◌, ◌+◌, ◌-◌, ◌≤◌, ◌^◌, ◌||◌, nat_lt, map, IfOk};
ghost use Rattle.std.specs.List.{range_with_len};
ghost use Rattle.sd_pagetable.specs.Nested.{is_alive};
ghost use Rattle.sd_pagetable.specs.Contents.{plain_of, word_at};
ghost use Rattle.sd_pagetable.specs.RefusalOrder.{Answers};
ghost use Rattle.sd_run.specs.Words.{AreGiven, IsWords, words_refusal};

use sd_areas::{PAGE_NUMBER_LIMIT, PageNo, SpaceId};
use sd_command::{Refusal, Reply};
use sd_pagetable::{Memory, MemoryError, MemoryRefusal, plain_law};
use sd_script::Answer;
use std::alloc::{AllocError, Global};

/// How many words a line can ask for.
const WORD_LIMIT: u64 = 512;

/// The words of so many pages, from the page of an address on.
pub fn answer(alloc: Global, memory: &Memory, space: SpaceId, address: u64, count: u64) -> Answer
    ensures { AreGiven memory.now space address count result }
{
    match words(alloc, memory, space, address, count) {
        Ok(answer) => answer,
        Err(MemoryError::Denied(error)) => Answer::Reply(Reply::from(error)),
        Err(MemoryError::OutOfMemory) => Answer::Reply(Reply::Refused(Refusal::OutOfMemory)),
    }
}

fn words(
    alloc: Global,
    memory: &Memory,
    space: SpaceId,
    address: u64,
    count: u64,
) -> Result<Answer, MemoryError>
    ensures due { Answers (words_refusal (plain_of memory.now) space address count) result }
    ensures words { IfOk result (IsWords memory.now space address count) }
{
    if !is_alive(memory, space) {
        return Err(MemoryRefusal::NoSuchSpace.into());
    }
    let first = address / 4096;
    if are_too_many(first, count) {
        return Err(MemoryRefusal::Einval.into());
    }
    Ok(Answer::Words(words_from(alloc, memory, space, first, first + count)?))
}

/// Whether a space is alive.
fn is_alive(memory: &Memory, space: SpaceId) -> bool
    ensures { result ≡ is_alive (plain_of memory.now) space }
{
    plain_law();
    memory.areas(space).is_some()
}

/// Whether so many pages from a first on are over 512, or reach past the last.
fn are_too_many(first: u64, count: u64) -> bool
    requires { first ≤ 2 ^ 52 }
    ensures { result ≡ (nat_lt 512 count || nat_lt (2 ^ 35) (first + count)) }
{
    count > WORD_LIMIT || first + count > PAGE_NUMBER_LIMIT
}

/// The words of the pages from a first up to another.
fn words_from(
    alloc: Global,
    memory: &Memory,
    space: SpaceId,
    first: u64,
    end: u64,
) -> Result<Vec<u64>, AllocError>
    requires ordered { first ≤ end }
    requires within { end ≤ 2 ^ 35 }
    ensures { IfOk result
        (λ words. words.items
        ≡ map (word_at memory.now space) (range_with_len first (end - first))) }
{
    let mut words = Vec::new(alloc);
    for number in first..end {
        words.push(memory.word(space, PageNo::new(number).unwrap()))?;
    }
    Ok(words)
}
