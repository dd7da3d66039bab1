ghost use Rattle.std.specs.Prelude.{◌≡◌, ℕ, List, IsErr, IfOk};
ghost use Rattle.sd_command.specs.declared.reply.Reply.TheVariants as told;

use crate::bytes::Bytes;
use crate::refusal::Refusal;
use sd_areas::SpaceId;
use sd_pagetable::Segv;
use std::alloc::AllocError;
use std::fmt;

/// The reply to a command, to an order or to a step of a worker. It is printed as a line of a script's output has it.
#[derive(Clone, Debug, PartialEq, Eq, Drop)]
pub enum Reply {
    /// The command was carried out.
    Done,
    /// What a load read.
    Bytes(Bytes),
    /// The space that a fork made.
    Child(SpaceId),
    /// The page isn't writable: it needs a fault first.
    NeedsFault,
    /// The access was stopped.
    Segv(Segv),
    /// A checkpoint with this number was begun.
    Begun(u64),
    /// A step of a worker that ends nothing.
    Worked,
    /// The checkpoint with this number is on the disk.
    Acked(u64),
    /// The checkpoint with this number was cancelled.
    Cancelled(u64),
    /// The merged image with this serial is on the disk.
    Merged(u64),
    /// So many entries were taken from the front of the journal.
    Trimmed(u64),
    /// The store was opened, and this is its checkpoint, if it has one.
    Reopened(Option<u64>),
    /// Refused; nothing changed but what the refusal itself names.
    Refused(Refusal),
}

impl Reply {
    /// A copy. Only that of what a load read takes memory.
    ///
    /// # Errors
    ///
    /// Out of memory where its bytes find no room.
    pub fn try_clone(&self) -> Result<Reply, AllocError>
        ensures copy { IfOk result (λ copy. copy ≡ self.now) }
        ensures bytes { IsErr result → (bytes : List ℕ) × (self.now ≡ told.Bytes bytes) }
    {
        self.clone()
    }
}

impl fmt::Display for Reply {
    fn fmt<W: fmt::Write>(&self, f: &mut fmt::Formatter<W>) -> fmt::Result {
        match self {
            Reply::Done => f.write_str("done"),
            Reply::Bytes(bytes) => write_bytes(f, bytes.as_slice()),
            Reply::Child(space) => write!(f, "child {}", space.number()),
            Reply::NeedsFault => f.write_str("needs-fault"),
            Reply::Segv(segv) => write!(f, "segv {segv}"),
            Reply::Begun(number) => write!(f, "begun {number}"),
            Reply::Worked => f.write_str("worked"),
            Reply::Acked(number) => write!(f, "acked {number}"),
            Reply::Cancelled(number) => write!(f, "cancelled {number}"),
            Reply::Merged(serial) => write!(f, "merged {serial}"),
            Reply::Trimmed(count) => write!(f, "trimmed {count}"),
            Reply::Reopened(Some(number)) => write!(f, "reopened {number}"),
            Reply::Reopened(None) => f.write_str("reopened none"),
            Reply::Refused(refusal) => write!(f, "refused {refusal}"),
        }
    }
}

fn write_bytes<W: fmt::Write>(f: &mut fmt::Formatter<W>, bytes: &[u8]) -> fmt::Result {
    f.write_str("bytes ")?;
    for byte in bytes {
        write!(f, "{byte:02x}")?;
    }
    Ok(())
}
