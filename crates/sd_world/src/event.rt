use sd_command::Command;
use sd_gate::Worker;

/// One event of a run.
#[derive(Debug, Drop)]
pub enum Event {
    /// A command of a seat.
    Command { seat: usize, command: Command },
    /// The order to begin a checkpoint of so many pre-dumps and a dump.
    Begin(u64),
    /// A worker hands in the kept outcome with the least ticket, or else makes its next step or asks for its next
    /// device call.
    Work(Worker),
    /// A worker makes its next step or asks for its next device call, whatever outcomes are kept.
    TakeUp(Worker),
    /// A worker hands in the kept outcome at this place, from 0 by rising ticket.
    HandInAt(Worker, u64),
    /// The device call with the least ticket is made of those that a worker asked for.
    Perform(Worker),
    /// The device call at this place, from 0 by rising ticket, is made of those that a worker asked for.
    PerformAt(Worker, u64),
    /// The order to begin a merge.
    Merge,
    /// The order to cancel the checkpoint that runs or is pending.
    Cancel,
    /// The order to open the store again.
    Reopen,
    /// The order to trim the journal: up to and with the entry that ended the pending of the last checkpoint it is
    /// folded into the memory that the run goes on from.
    Trim,
}
