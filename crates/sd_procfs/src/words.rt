//! The words of pages.
ghost use Rattle.std.specs.Prelude.{◌≡◌, ◌*◌, length, is_ok, OnOk, OnErr};
ghost use Rattle.sd_pagetable.specs.Nested.{is_alive};
ghost use Rattle.sd_pagetable.specs.Contents.{word_at};
ghost use Rattle.sd_procfs.specs.Words.{words_text};

use crate::no_such_space::NoSuchSpace;
use sd_areas::{PageNo, SpaceId};
use sd_pagetable::Memory;

/// How many bytes a word has.
const WORD_SIZE: usize = 8;

/// Writes the words of `count` pages from `first` on, each in 8 bytes, little endian, as a read of `pagemap` gives them
/// by its kernel document. A page that isn't mapped, and one past the last, has the word 0. The buffer has 8 bytes for
/// each page. It takes no memory.
///
/// # Errors
///
/// The space isn't alive: the buffer stays.
pub fn pagemap(
    memory: &Memory,
    space: SpaceId,
    first: PageNo,
    count: usize,
    words: &mut [u8],
) -> Result<(), NoSuchSpace>
    requires { length words.old ≡ 8 * count }
    ensures alive { is_ok result ≡ is_alive memory.now.spaces space }
    ensures ok { OnOk result (words.new ≡ words_text memory.now space first count) }
    ensures err { OnErr result (words.new ≡ words.old) }
{
    if memory.areas(space).is_none() {
        return Err(NoSuchSpace);
    }
    write_words(memory, space, first, count, words);
    Ok(())
}

fn write_words(memory: &Memory, space: SpaceId, first: PageNo, count: usize, words: &mut [u8])
    requires { length words.old ≡ 8 * count }
    ensures { words.new ≡ words_text memory.now space first count }
{
    for index in 0..count {
        let word = word_of(memory, space, first.number() + index as u64);
        let place = WORD_SIZE * index;
        words[place..place + WORD_SIZE].copy_from_slice(&word.to_le_bytes());
    }
}

/// The word of the page with a number, which may be past the last.
fn word_of(memory: &Memory, space: SpaceId, number: u64) -> u64
    ensures { result ≡ word_at memory.now space number }
{
    memory.sound();
    match PageNo::new(number) {
        Some(page) => memory.word(space, page),
        None => 0,
    }
}
