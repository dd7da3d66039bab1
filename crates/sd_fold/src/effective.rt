//! Which entries change a memory.
ghost use Rattle.std.specs.Prelude.{◌≡◌};
ghost use Rattle.std.specs.List.{list_any};
ghost use Rattle.sd_fold.specs.Effective.{changes_done, is_fork, has_effect, is_effective};

use sd_command::{Command, Reply};
use sd_journal::Entry;

/// Whether a command changes a memory where it is carried out.
fn changes_done(command: &Command) -> bool
    ensures { result ≡ changes_done command.now }
{
    match command {
        Command::Mmap { .. } | Command::Munmap { .. } | Command::Mprotect { .. } => true,
        Command::Exit { .. } | Command::TryStore { .. } | Command::Store { .. } => true,
        _ => false,
    }
}

fn is_fork(command: &Command) -> bool
    ensures { result ≡ is_fork command.now }
{
    match command {
        Command::Fork { .. } => true,
        _ => false,
    }
}

/// Whether a command with this reply changes a memory.
fn has_effect(command: &Command, reply: &Reply) -> bool
    ensures { result ≡ has_effect reply.now command.now }
{
    match reply {
        Reply::Done => changes_done(command),
        Reply::Child(_) => is_fork(command),
        _ => false,
    }
}

/// Whether an entry changes a memory.
fn is_effective(entry: &Entry) -> bool
    ensures { result ≡ is_effective entry.now }
{
    match entry {
        Entry::Applied { command, reply, .. } => has_effect(command, reply),
        _ => false,
    }
}

/// Whether one of the entries changes a memory.
pub(crate) fn any_effective(entries: &[Entry]) -> bool
    ensures { result ≡ list_any is_effective entries.now }
{
    entries.iter().any(|entry| is_effective(entry))
}
