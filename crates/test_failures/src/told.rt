//! What a run is answered.
use sd_command::{Refusal, Reply};
use sd_gate::Worker;
use sd_world::Event;
use std::alloc::{AllocError, Global};

/// More events than a run has.
const EVENTS: usize = 2_000;

/// What a run was answered.
#[derive(Drop)]
pub(crate) struct Told {
    /// The replies, but for those of events that were given once more, since memory was refused.
    pub(crate) replies: Vec<Reply>,
    /// Whether the store was opened again, so that it takes commands.
    pub(crate) is_ready: bool,
    /// Whether there was no room for a reply.
    pub(crate) is_lost: bool,
    /// The worker whose device call failed, if one did.
    pub(crate) failed: Option<Worker>,
}

/// How a run ended of which a call was to fail.
#[derive(Clone, Copy, PartialEq, Eq)]
pub(crate) enum Ended {
    /// The call came before the store took commands.
    Opening,
    /// It came later.
    Failed,
    /// It never came.
    Done,
}

/// How a run goes on after a reply.
#[derive(Clone, Copy, PartialEq, Eq)]
pub(crate) enum Next {
    /// The worker goes on.
    GoesOn,
    /// Its job has come to its end, or is refused.
    Ends,
    /// Its device call failed.
    Failed,
}

impl Told {
    /// Nothing yet, with room for all replies. Memory is refused once at most.
    pub(crate) fn new(alloc: Global) -> Result<Told, AllocError> {
        let replies = match Vec::with_capacity(alloc, EVENTS) {
            Ok(room) => room,
            Err(_) => Vec::with_capacity(alloc, EVENTS)?,
        };
        Ok(Told {
            replies,
            is_ready: false,
            is_lost: false,
            failed: None,
        })
    }

    /// How the run ended.
    pub(crate) fn end(&self) -> Ended {
        match self.failed {
            None if self.is_ready => Ended::Done,
            None | Some(Worker::Opener) => Ended::Opening,
            Some(_) => Ended::Failed,
        }
    }

    /// The number that was acknowledged last, 0 where none was.
    pub(crate) fn last(&self) -> u64 {
        let mut last = 0;
        for reply in &self.replies {
            if let Reply::Acked(number) = reply {
                last = *number;
            }
        }
        last
    }

    /// Takes the reply to an event.
    ///
    /// # Errors
    ///
    /// There is no room for it.
    pub(crate) fn take(&mut self, event: &Event, reply: Reply) -> Result<Next, AllocError> {
        let next = match (event, &reply) {
            (_, Reply::Worked) => Next::GoesOn,
            (Event::Perform(worker), Reply::Refused(Refusal::Device)) => {
                self.failed = Some(*worker);
                Next::Failed
            }
            _ => Next::Ends,
        };
        if let Reply::Reopened(_) = reply {
            self.is_ready = true;
        }
        self.replies.push(reply)?;
        Ok(next)
    }
}
