//! One line of a script.
ghost use Rattle.std.specs.Prelude.{◌≡◌, ◌<◌, ◌≤◌, ◌==◌, false, map, take, length, bytes_eq, codes, IfSome, IfNone};
ghost use Rattle.std.specs.List.{after_first, before_first, position_or_len, slice_split};
ghost use Rattle.sd_script.specs.Line.{ParsesLine, asked_by, asked_by_word, at_least_one, begin_of, begin_merge_of};
ghost use Rattle.sd_script.specs.Line.{cancel_of, checkpoint_of, exit_of, fault_of, finish_of, fork_of, load_of};
ghost use Rattle.sd_script.specs.Line.{merge_of, mmap_of, mprotect_of, munmap_of, perform_at_of, perform_of, reopen_of};
ghost use Rattle.sd_script.specs.Line.{step_of, store_of, trim_of, try_of, words_of, work_of};

use crate::field_values::{hex_bytes, number, permissions, worker_named};
use crate::line_error::LineError;
use memchr::memchr;
use sd_areas::SpaceId;
use sd_command::Command;
use sd_gate::Worker;
use std::alloc::Global;

/// What a line asks for.
#[derive(Drop)]
pub enum Line {
    Command(Command),
    /// The words of so many pages, from the page of an address on.
    Words {
        space: SpaceId,
        address: u64,
        count: u64,
    },
    /// The order to begin a checkpoint of so many pre-dumps and a dump.
    Begin(u64),
    /// The order to begin a merge.
    BeginMerge,
    /// The order to cancel the checkpoint.
    Cancel,
    /// A worker's next step, or its next device call asked for or handed in.
    Work(Worker),
    /// The device call with the least ticket of those that a worker asked for.
    Perform(Worker),
    /// The device call at this place, from 0 by rising ticket, of those that a worker asked for.
    PerformAt {
        worker: Worker,
        place: u64,
    },
    /// So many events of a worker, at least one.
    Step {
        worker: Worker,
        count: u64,
    },
    /// Events of a worker up to the end of its job.
    Finish(Worker),
    /// A checkpoint of so many pre-dumps and a dump, up to its end.
    Checkpoint(u64),
    /// A merge, up to its end.
    Merge,
    /// The store opened again, up to the end of that.
    Reopen,
    /// The order to trim the journal.
    Trim,
}

/// The most fields that a line of the language has.
const MOST_FIELDS: usize = 5;

/// What a line asks for.
pub fn parse(alloc: Global, line: &str) -> Result<Line, LineError>
    ensures { ParsesLine result (asked_by line.now) }
{
    let mut fields = [""; MOST_FIELDS];
    let Some(count) = split_into(&mut fields, line) else {
        return Err(LineError::Unfit);
    };
    match &fields[..count] {
        [word, arguments @ ..] => request(alloc, word, arguments),
        [] => Err(LineError::Unfit),
    }
}

/// Puts the fields of a line, which single spaces separate, into a list, and returns how many they are, if they find
/// room.
fn split_into<'a>(fields: &mut [&'a str; MOST_FIELDS], line: &'a str) -> Option<usize>
    ensures room { IfSome result (λ count. count ≤ 5) }
    ensures kept { length fields.new ≡ 5 }
    ensures split { IfSome result (λ count. map (λ field. field.now) (take count fields.new)
        ≡ slice_split (λ byte. byte == 32) line.now) }
    ensures more { IfNone result (5 < length (slice_split (λ byte. byte == 32) line.now)) }
{
    let mut rest = line;
    let mut count = 0;
    while let Some((field, others)) = first_field(rest) {
        if count + 1 == MOST_FIELDS {
            return None;
        }
        fields[count] = field;
        rest = others;
        count += 1;
    }
    fields[count] = rest;
    Some(count + 1)
}

/// The first field of a text, and what stands after the space that ends it, if one does.
fn first_field(text: &str) -> Option<(&str, &str)>
    ensures first { IfSome result
        (λ parts. (parts.0.now ≡ before_first (λ byte. byte == 32) text.now)
        × (parts.1.now ≡ after_first (λ byte. byte == 32) text.now)
        × (position_or_len (λ byte. byte == 32) text.now < length text.now)) }
    ensures last { IfNone result
        (position_or_len (λ byte. byte == 32) text.now ≡ length text.now) }
{
    let end = memchr(b' ', text.as_bytes())?;
    Some((&text[..end], &text[end + 1..]))
}

/// What a word and its arguments ask for.
fn request(alloc: Global, word: &str, arguments: &[&str]) -> Result<Line, LineError>
    ensures { ParsesLine result (asked_by_word word.now (map (λ field. field.now) arguments.now)) }
{
    match word {
        "try" => try_store(alloc, arguments),
        "store" => store(alloc, arguments),
        _ => request_of_no_bytes(word, arguments).ok_or(LineError::Unfit),
    }
}

/// What a word and its arguments ask for, where it is none of the two that have bytes.
fn request_of_no_bytes(word: &str, arguments: &[&str]) -> Option<Line>
    requires not_try { bytes_eq word.now (codes "try") ≡ false }
    requires not_store { bytes_eq word.now (codes "store") ≡ false }
    ensures { result ≡ asked_by_word word.now (map (λ field. field.now) arguments.now) }
{
    match word {
        "mmap" => mmap(arguments),
        "munmap" => munmap(arguments),
        "mprotect" => mprotect(arguments),
        "fork" => fork(arguments),
        "exit" => exit(arguments),
        "load" => load(arguments),
        "fault" => fault(arguments),
        "words" => words(arguments),
        "begin" => begin(arguments),
        "begin-merge" => begin_merge(arguments),
        "cancel" => cancel(arguments),
        "work" => work(arguments),
        "perform" => perform(arguments),
        "perform-at" => perform_at(arguments),
        "step" => step(arguments),
        "finish" => finish(arguments),
        "checkpoint" => checkpoint(arguments),
        "merge" => merge(arguments),
        "reopen" => reopen(arguments),
        "trim" => trim(arguments),
        _ => None,
    }
}

fn mmap(arguments: &[&str]) -> Option<Line>
    ensures { result ≡ mmap_of (map (λ field. field.now) arguments.now) }
{
    let [space, address, length, prot] = arguments else {
        return None;
    };
    Some(Line::Command(Command::Mmap {
        space: SpaceId::new(number(space)?),
        address: number(address)?,
        length: number(length)?,
        prot: permissions(prot)?,
    }))
}

fn munmap(arguments: &[&str]) -> Option<Line>
    ensures { result ≡ munmap_of (map (λ field. field.now) arguments.now) }
{
    let [space, address, length] = arguments else {
        return None;
    };
    Some(Line::Command(Command::Munmap {
        space: SpaceId::new(number(space)?),
        address: number(address)?,
        length: number(length)?,
    }))
}

fn mprotect(arguments: &[&str]) -> Option<Line>
    ensures { result ≡ mprotect_of (map (λ field. field.now) arguments.now) }
{
    let [space, address, length, prot] = arguments else {
        return None;
    };
    Some(Line::Command(Command::Mprotect {
        space: SpaceId::new(number(space)?),
        address: number(address)?,
        length: number(length)?,
        prot: permissions(prot)?,
    }))
}

fn fork(arguments: &[&str]) -> Option<Line>
    ensures { result ≡ fork_of (map (λ field. field.now) arguments.now) }
{
    let [space] = arguments else {
        return None;
    };
    let space = SpaceId::new(number(space)?);
    Some(Line::Command(Command::Fork { space }))
}

fn exit(arguments: &[&str]) -> Option<Line>
    ensures { result ≡ exit_of (map (λ field. field.now) arguments.now) }
{
    let [space] = arguments else {
        return None;
    };
    let space = SpaceId::new(number(space)?);
    Some(Line::Command(Command::Exit { space }))
}

fn load(arguments: &[&str]) -> Option<Line>
    ensures { result ≡ load_of (map (λ field. field.now) arguments.now) }
{
    let [space, address, count] = arguments else {
        return None;
    };
    Some(Line::Command(Command::Load {
        space: SpaceId::new(number(space)?),
        address: number(address)?,
        count: number(count)?,
    }))
}

fn try_store(alloc: Global, arguments: &[&str]) -> Result<Line, LineError>
    ensures { ParsesLine result (try_of (map (λ field. field.now) arguments.now)) }
{
    let [space, address, bytes] = arguments else {
        return Err(LineError::Unfit);
    };
    Ok(Line::Command(Command::TryStore {
        space: SpaceId::new(number(space).ok_or(LineError::Unfit)?),
        address: number(address).ok_or(LineError::Unfit)?,
        bytes: hex_bytes(alloc, bytes)?,
    }))
}

fn fault(arguments: &[&str]) -> Option<Line>
    ensures { result ≡ fault_of (map (λ field. field.now) arguments.now) }
{
    let [space, address] = arguments else {
        return None;
    };
    Some(Line::Command(Command::Fault {
        space: SpaceId::new(number(space)?),
        address: number(address)?,
    }))
}

fn store(alloc: Global, arguments: &[&str]) -> Result<Line, LineError>
    ensures { ParsesLine result (store_of (map (λ field. field.now) arguments.now)) }
{
    let [space, address, bytes] = arguments else {
        return Err(LineError::Unfit);
    };
    Ok(Line::Command(Command::Store {
        space: SpaceId::new(number(space).ok_or(LineError::Unfit)?),
        address: number(address).ok_or(LineError::Unfit)?,
        bytes: hex_bytes(alloc, bytes)?,
    }))
}

/// Words of no page at all don't fit.
fn words(arguments: &[&str]) -> Option<Line>
    ensures { result ≡ words_of (map (λ field. field.now) arguments.now) }
{
    let [space, address, count] = arguments else {
        return None;
    };
    Some(Line::Words {
        space: SpaceId::new(number(space)?),
        address: number(address)?,
        count: at_least_one(number(count)?)?,
    })
}

fn at_least_one(number: u64) -> Option<u64>
    ensures { result ≡ at_least_one number }
{
    (number > 0).then_some(number)
}

fn begin(arguments: &[&str]) -> Option<Line>
    ensures { result ≡ begin_of (map (λ field. field.now) arguments.now) }
{
    let [rounds] = arguments else {
        return None;
    };
    Some(Line::Begin(number(rounds)?))
}

fn begin_merge(arguments: &[&str]) -> Option<Line>
    ensures { result ≡ begin_merge_of (map (λ field. field.now) arguments.now) }
{
    arguments.is_empty().then_some(Line::BeginMerge)
}

fn cancel(arguments: &[&str]) -> Option<Line>
    ensures { result ≡ cancel_of (map (λ field. field.now) arguments.now) }
{
    arguments.is_empty().then_some(Line::Cancel)
}

fn work(arguments: &[&str]) -> Option<Line>
    ensures { result ≡ work_of (map (λ field. field.now) arguments.now) }
{
    let [name] = arguments else {
        return None;
    };
    Some(Line::Work(worker_named(name)?))
}

fn perform(arguments: &[&str]) -> Option<Line>
    ensures { result ≡ perform_of (map (λ field. field.now) arguments.now) }
{
    let [name] = arguments else {
        return None;
    };
    Some(Line::Perform(worker_named(name)?))
}

fn perform_at(arguments: &[&str]) -> Option<Line>
    ensures { result ≡ perform_at_of (map (λ field. field.now) arguments.now) }
{
    let [name, place] = arguments else {
        return None;
    };
    Some(Line::PerformAt {
        worker: worker_named(name)?,
        place: number(place)?,
    })
}

/// No step at all doesn't fit.
fn step(arguments: &[&str]) -> Option<Line>
    ensures { result ≡ step_of (map (λ field. field.now) arguments.now) }
{
    let [name, count] = arguments else {
        return None;
    };
    Some(Line::Step {
        worker: worker_named(name)?,
        count: at_least_one(number(count)?)?,
    })
}

fn finish(arguments: &[&str]) -> Option<Line>
    ensures { result ≡ finish_of (map (λ field. field.now) arguments.now) }
{
    let [name] = arguments else {
        return None;
    };
    Some(Line::Finish(worker_named(name)?))
}

fn checkpoint(arguments: &[&str]) -> Option<Line>
    ensures { result ≡ checkpoint_of (map (λ field. field.now) arguments.now) }
{
    let [rounds] = arguments else {
        return None;
    };
    Some(Line::Checkpoint(number(rounds)?))
}

fn merge(arguments: &[&str]) -> Option<Line>
    ensures { result ≡ merge_of (map (λ field. field.now) arguments.now) }
{
    arguments.is_empty().then_some(Line::Merge)
}

fn reopen(arguments: &[&str]) -> Option<Line>
    ensures { result ≡ reopen_of (map (λ field. field.now) arguments.now) }
{
    arguments.is_empty().then_some(Line::Reopen)
}

fn trim(arguments: &[&str]) -> Option<Line>
    ensures { result ≡ trim_of (map (λ field. field.now) arguments.now) }
{
    arguments.is_empty().then_some(Line::Trim)
}
