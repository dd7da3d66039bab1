//! A world over a store, what is asked of it, and a second world over what it left. Only this file owns a world.
use crate::driver::{Tested, ask, event};
use crate::lines::{is_printed, read};
use crate::store::{Device, Store, empty};
use sd_command::Reply;
use sd_world::{Event, OpenFault, World};
use std::alloc::{AllocError, Global};

/// What is asked of a world over an empty store, and of a second world over what the first left.
#[derive(Clone, Copy)]
pub(crate) struct Run {
    pub(crate) store: Store,
    /// Whether the events of a script are run at once. They are else made one by one.
    pub(crate) at_once: bool,
    pub(crate) first: &'static [&'static str],
    pub(crate) second: &'static [&'static str],
}

/// Whether a line is answered as it says.
fn is_answered(alloc: Global, world: &mut Tested, line: &str) -> Result<bool, AllocError> {
    let Some(line) = read(line) else {
        return Ok(false);
    };
    let reply = ask(alloc, world, line)?;
    is_printed(alloc, &reply, line.answer)
}

/// Whether a script's lines are answered, one after the other.
fn plays(alloc: Global, world: &mut Tested, script: &str) -> Result<bool, AllocError> {
    for line in script.lines() {
        if !is_answered(alloc, world, line)? {
            return Ok(false);
        }
    }
    Ok(true)
}

/// Adds the event of a line.
fn add_event(alloc: Global, line: &str, events: &mut Vec<Event>) -> Result<(), AllocError> {
    if let Some(line) = read(line) {
        events.push(event(alloc, line)?)?;
    }
    Ok(())
}

/// Adds the events of a script.
fn add_events(alloc: Global, script: &str, events: &mut Vec<Event>) -> Result<(), AllocError> {
    for line in script.lines() {
        add_event(alloc, line, events)?;
    }
    Ok(())
}

/// Whether each line of a script has its reply, and no other reply is there.
fn are_printed(alloc: Global, replies: &[Reply], script: &str) -> Result<bool, AllocError> {
    for (reply, line) in replies.iter().zip(script.lines()) {
        match read(line) {
            Some(line) if is_printed(alloc, reply, line.answer)? => {}
            _ => return Ok(false),
        }
    }
    Ok(replies.len() == script.lines().count())
}

/// Whether events that are run at once are answered as a script says.
fn runs(
    alloc: Global,
    world: &mut Tested,
    events: &[Event],
    script: &str,
) -> Result<bool, AllocError> {
    match world.run(events) {
        Ok(replies) => are_printed(alloc, &replies, script),
        Err(_) => Err(AllocError),
    }
}

/// Whether a script that is run at once is answered.
fn plays_at_once(alloc: Global, world: &mut Tested, script: &str) -> Result<bool, AllocError> {
    let mut events = Vec::new(alloc);
    add_events(alloc, script, &mut events)?;
    runs(alloc, world, &events, script)
}

/// Whether scripts are answered, one after the other.
fn answers(
    alloc: Global,
    world: &mut Tested,
    at_once: bool,
    scripts: &[&str],
) -> Result<bool, AllocError> {
    for script in scripts {
        let is_answered = if at_once {
            plays_at_once(alloc, world, script)?
        } else {
            plays(alloc, world, script)?
        };
        if !is_answered {
            return Ok(false);
        }
    }
    Ok(true)
}

/// Opens a world over a disk, asks what the scripts say, and closes it. Returns its disk, and whether all was answered;
/// or why it isn't opened.
fn opened(
    alloc: Global,
    disk: Device,
    at_once: bool,
    scripts: &[&str],
) -> Result<(Device, bool), OpenFault> {
    match World::open(alloc, disk, 16) {
        Ok(mut world) => {
            let answered = answers(alloc, &mut world, at_once, scripts);
            Ok((world.close(), answered == Ok(true)))
        }
        Err(error) => Err(error.fault),
    }
}

/// Why a world over a store isn't opened, if it isn't.
pub(crate) fn fault_of(alloc: Global, store: Store) -> Result<Option<OpenFault>, AllocError> {
    Ok(opened(alloc, empty(alloc, store)?, false, &[]).err())
}

/// Whether a world, and a second one over what it left, answer what a run says.
pub(crate) fn is_run(alloc: Global, run: &Run) -> Result<bool, AllocError> {
    match opened(alloc, empty(alloc, run.store)?, run.at_once, run.first) {
        Ok((disk, answered)) => {
            let second = opened(alloc, disk, false, run.second);
            Ok(answered && matches!(second, Ok((_, true))))
        }
        Err(_) => Ok(false),
    }
}
