//! What is asked of a world. Its few functions alone know the contracts of a world.
use crate::lines::{Line, Word, load, map, reply_of, store};
use crate::store::Device;
use sd_command::{Command, Reply};
use sd_gate::Worker;
use sd_world::{Event, PassEnd, World};
use std::alloc::{AllocError, Global};

/// A world of these tests.
pub(crate) type Tested = World<Device>;

/// So many events of the dumper. Returns the last reply.
pub(crate) fn steps(world: &mut Tested, count: u64) -> Reply {
    let mut last = Reply::Worked;
    for _ in 0..count {
        last = world.advance(Worker::Dumper, 1);
    }
    last
}

/// So many steps of the dumper's pass in one call. `Worked` where it made them all, and else `Done`.
fn pass(world: &mut Tested, count: u64) -> Reply {
    match world.pass_on(count).end {
        PassEnd::AllMade => Reply::Worked,
        PassEnd::AnotherIsNext | PassEnd::OutOfMemory => Reply::Done,
    }
}

/// One event so often. Returns the last reply.
fn repeat(world: &mut Tested, event: &Event, count: u64) -> Reply {
    let mut last = Reply::Worked;
    for _ in 0..count {
        last = world.step(event);
    }
    last
}

/// The event of a command.
fn event_of(command: Command) -> Event {
    Event::Command { seat: 0, command }
}

/// The event of a line.
pub(crate) fn event(alloc: Global, line: Line<'_>) -> Result<Event, AllocError> {
    Ok(match line.word {
        Word::Begin => Event::Begin(line.number),
        Word::Reopen => Event::Reopen,
        Word::Cancel => Event::Cancel,
        Word::Trim => Event::Trim,
        Word::Merge => Event::Merge,
        Word::Work(worker) => Event::Work(worker),
        Word::Perform(worker) => Event::Perform(worker),
        Word::Map => event_of(map()),
        Word::Store => event_of(store(alloc, line.number)?),
        _ => event_of(load()),
    })
}

/// Makes an event.
fn step(alloc: Global, world: &mut Tested, line: Line<'_>) -> Result<Reply, AllocError> {
    let event = event(alloc, line)?;
    Ok(world.step(&event))
}

/// Opens the store again. Returns the opener's last reply, or why it doesn't begin.
fn open(world: &mut Tested) -> Reply {
    match world.step(&Event::Reopen) {
        Reply::Worked => world.finish(Worker::Opener),
        refused => refused,
    }
}

/// Makes a checkpoint without rounds. Returns the dumper's last reply, or why it doesn't begin.
fn save(world: &mut Tested) -> Reply {
    match world.step(&Event::Begin(0)) {
        Reply::Begun(_) => world.finish(Worker::Dumper),
        refused => refused,
    }
}

/// What a line asks that changes nothing.
fn look(world: &Tested, line: Line<'_>) -> Reply {
    reply_of(match line.word {
        Word::Left(worker) => world.core().left(worker) == u128::from(line.number),
        Word::Idle(worker) => world.core().is_idle(worker),
        Word::Out(worker) => world.is_out(worker),
        _ => false,
    })
}

/// Makes what a line asks: an event, or several. Returns the last reply.
pub(crate) fn ask(alloc: Global, world: &mut Tested, line: Line<'_>) -> Result<Reply, AllocError> {
    match line.word {
        Word::Steps => Ok(steps(world, line.number)),
        Word::Pass => Ok(pass(world, line.number)),
        Word::Loads => Ok(repeat(world, &event_of(load()), line.number)),
        Word::Finish(worker) => Ok(world.finish(worker)),
        Word::Map => Ok(world.apply(0, map())),
        Word::Store => Ok(world.apply(0, store(alloc, line.number)?)),
        Word::Open => Ok(open(world)),
        Word::Save => Ok(save(world)),
        Word::Left(_) | Word::Idle(_) | Word::Out(_) => Ok(look(world, line)),
        _ => step(alloc, world, line),
    }
}
