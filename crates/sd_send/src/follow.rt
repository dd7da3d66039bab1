//! `ckpt send --follow`: a store, sent beside a run that writes it, until that ends.

use crate::followed::Followed;
use crate::send_error::SendError;
use crate::sender::Sender;
use crate::sending::base_of;
use crate::sent::Sent;
use sd_exit::Stop;
use sd_program::{Called, may_change, read_until_steady};
use sd_stream::Base;
use std::io::Write;
use std::sync::Wait;
use std::thread;
use std::time::{Clock, Duration};

/// How long a sender waits before it looks at the store again, in milliseconds.
const PAUSE: u64 = 20;

/// The base of a stream, or why the store has none.
type FoundBase = Result<Option<Base>, SendError>;

/// Whether a run may have disturbed what was read.
fn is_disturbed(error: &SendError) -> bool {
    match error {
        SendError::Fault(fault) => may_change(Some(*fault)),
        _ => false,
    }
}

/// Reads the base of a stream once. The error is a folder that isn't opened.
fn base_once(called: Called<'_>, since: Option<u64>) -> Result<FoundBase, Stop> {
    let mut disk = called.open_store()?;
    Ok(base_of(called.rt.alloc(), &mut disk, since))
}

/// Sends what a store has more, if it can be read as one moment. A fault that a run may make is left to the next look.
fn send_more<W: Write>(
    called: Called<'_>,
    beside: bool,
    followed: &mut Followed,
    sender: &mut Sender<W>,
) -> Result<(), SendError> {
    let alloc = called.rt.alloc();
    let mut disk = called.open_store()?;
    let ended = match followed.look(alloc, &mut disk) {
        Ok(true) => sender.more(alloc, &mut disk, followed.catalog()),
        Ok(false) => Ok(()),
        Err(fault) if beside && may_change(Some(fault)) => Ok(()),
        Err(fault) => Err(SendError::Fault(fault)),
    };
    if ended.is_err() {
        called.report_device(&disk);
    }
    ended
}

/// Sends what a store has, and each further checkpoint as it comes, until no run writes the store.
pub(crate) fn follow<R: Clock + Wait, W: Write + Drop>(
    called: Called<'_>,
    clock: &R,
    since: Option<u64>,
    out: W,
) -> Result<Sent, SendError> {
    let base = read_until_steady(
        clock,
        || base_once(called, since),
        |found| match found {
            Ok(_) => false,
            Err(error) => is_disturbed(error),
        },
    )?;
    let mut sender = Sender::begin(out, base?)?;
    let mut followed = Followed::new(called.rt.alloc());
    for _ in 0..u64::MAX {
        let beside = called.is_beside();
        send_more(called, beside, &mut followed, &mut sender)?;
        if !beside {
            break;
        }
        thread::sleep(clock, Duration::from_millis(PAUSE));
    }
    let (_, sent) = sender.end()?;
    Ok(sent)
}
