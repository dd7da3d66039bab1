//! Commands on a memory.
ghost use Rattle.std.specs.Prelude.{◌≡◌, false, None, Err, OnErr, IfOk};
ghost use Rattle.sd_pagetable.specs.Contents.{plain_of};
ghost use Rattle.sd_pagetable.specs.RefusalOrder.{Answers, access_refusal};
ghost use Rattle.sd_pagetable.specs.Tracking.{Step};
ghost use Rattle.sd_pagetable.specs.declared.access.Access.TheVariants.{Read};
ghost use Rattle.sd_command.specs.Attempts.{CommandDoes, HasLoadedBytes, denial, done_reply, try_reply};
ghost use Rattle.sd_command.specs.Events.{Chooses, TakesMemory, event_of};
ghost use Rattle.sd_command.specs.Replies.{IsLegalReply, effect};

use crate::bytes::Bytes;
use crate::command::Command;
use crate::refusal::Refusal;
use crate::reply::Reply;
use sd_areas::SpaceId;
use sd_pagetable::{AccessError, Memory, MemoryError, StoreOutcome, plain_law};
use std::alloc::{AllocError, Global};

/// One byte more than a load can have.
const TOO_MANY: usize = 65;

/// Applies a command to a memory that isn't frozen, and returns the reply. Refusals and faults are replies.
///
/// # Errors
///
/// Out of memory where a growth was refused: nothing changes. An exit and a try of a store take no memory, and the
/// other commands only after what needs none: a load that is refused takes none, nor a fault or a store of a page that
/// is alone in its frame, nor a call over a range whose pages are all so already.
pub fn apply_to(alloc: Global, memory: &mut Memory, command: &Command) -> Result<Reply, AllocError>
    // The reply is legal in the plain memory, and what that leaves open is as the frames and writable bits have it.
    ensures legal { IfOk result (IsLegalReply (plain_of memory.old) false command.now) }
    ensures chooses { IfOk result (Chooses memory.old command.now) }

    // The memory makes the event's step, and the plain memory the command's effect.
    ensures step { IfOk result (λ reply. Step memory.old (event_of command.now reply) memory.new) }
    ensures effect { IfOk result (λ reply.
        plain_of memory.new ≡ effect command.now reply (plain_of memory.old)) }

    ensures takes_memory { OnErr result (TakesMemory memory.old command.now) }
    ensures err { OnErr result (memory.new ≡ memory.old) }
{
    plain_law();
    match attempt(alloc, memory, command) {
        Ok(reply) => Ok(reply),
        Err(MemoryError::Denied(error)) => Ok(Reply::from(error)),
        Err(MemoryError::OutOfMemory) => Err(AllocError),
    }
}

/// Makes the call of a command on a memory.
fn attempt(alloc: Global, memory: &mut Memory, command: &Command) -> Result<Reply, MemoryError>
    ensures due { Answers (denial memory.old command.now) result }
    ensures takes_memory { result ≡ Err MemoryError.OutOfMemory → TakesMemory memory.old command.now }
    ensures does { IfOk result (λ reply. CommandDoes command.now reply memory.old memory.new) }
    ensures effect { IfOk result (λ reply.
        plain_of memory.new ≡ effect command.now reply (plain_of memory.old)) }
    ensures err { OnErr result (memory.new ≡ memory.old) }
{
    match command {
        Command::Mmap {
            space,
            address,
            length,
            prot,
        } => done(memory.mmap(*space, *address, *length, *prot)),
        Command::Munmap {
            space,
            address,
            length,
        } => done(memory.munmap(*space, *address, *length)),
        Command::Mprotect {
            space,
            address,
            length,
            prot,
        } => done(memory.mprotect(*space, *address, *length, *prot)),
        Command::Fork { space } => Ok(Reply::Child(memory.fork(*space)?)),
        Command::Exit { space } => {
            memory.exit(*space)?;
            Ok(Reply::Done)
        }
        Command::Load {
            space,
            address,
            count,
        } => load(alloc, memory, *space, *address, *count),
        Command::TryStore {
            space,
            address,
            bytes,
        } => Ok(tried(memory.try_store(*space, *address, bytes.as_slice())?)),
        Command::Fault { space, address } => done(memory.fault(*space, *address)),
        Command::Store {
            space,
            address,
            bytes,
        } => done(memory.store_now(*space, *address, bytes.as_slice())),
    }
}

/// The reply of a command that returns nothing more.
fn done(ended: Result<(), MemoryError>) -> Result<Reply, MemoryError>
    ensures { result ≡ done_reply ended }
{
    ended?;
    Ok(Reply::Done)
}

/// The reply of a try of a store.
fn tried(outcome: StoreOutcome) -> Reply
    ensures { result ≡ try_reply outcome }
{
    match outcome {
        StoreOutcome::Done => Reply::Done,
        StoreOutcome::NeedsFault => Reply::NeedsFault,
    }
}

/// Loads so many bytes, and takes memory for those that it returns. The memory itself refuses a load of more than 64.
fn load(
    alloc: Global,
    memory: &Memory,
    space: SpaceId,
    address: u64,
    count: u64,
) -> Result<Reply, MemoryError>
    ensures due { Answers (access_refusal (plain_of memory.now) space address count Read) result }
    ensures tested { result ≡ Err MemoryError.OutOfMemory
        → access_refusal (plain_of memory.now) space address count Read ≡ None }
    ensures bytes { IfOk result (HasLoadedBytes memory.now space address count) }
{
    let mut buffer = [0; TOO_MANY];
    let bytes = &mut buffer[..count.min(TOO_MANY as u64) as usize];
    memory.load(space, address, bytes)?;
    Ok(Reply::Bytes(Bytes::from_slice(alloc, bytes)?))
}

impl From<AccessError> for Reply {
    ghost use Rattle.std.specs.Prelude.{◌≡◌};
    ghost use Rattle.sd_command.specs.Replies.{reply_of};

    ghost from_gives = { λ error reply. reply ≡ reply_of error };

    fn from(error: AccessError) -> Reply {
        match error {
            AccessError::Refused(due) => Reply::Refused(Refusal::from(due)),
            AccessError::Segv(segv) => Reply::Segv(segv),
        }
    }
}
