//! Checking a journal against what the seats and the worker were answered.
ghost use Rattle.std.specs.Prelude.{◌≡◌, ◌↔◌, ◌+◌, ◌<◌, ℕ, false, length, IsOk, IsTrue, IfErr, OnOk, MatchOption};
ghost use Rattle.sd_journal.specs.Receipts.{Accounts, AllStand, AreRising, IsEntryAt, IsFault, IsFaultAfter, IsFaultAt};
ghost use Rattle.sd_journal.specs.Receipts.{Stands, acked_numbers, command_count, is_command};
ghost use Rattle.sd_journal.specs.declared.entry.Entry.{Entry as Told};
ghost use Rattle.sd_receipts.specs.Noted.{AreNoted, Rises};
ghost use Rattle.sd_receipts.specs.InTime.{in_time};

use crate::rising::{no_numbers, note, rises};
use sd_command::{Command, Reply};
use sd_journal::{CloseFault, Entry, Journal, Receipt};

/// Tests whether a journal accounts for the receipts and the acknowledged numbers: each receipt stands in it at its
/// number, those of a seat at rising numbers in the order given, and it has no other command and no other
/// acknowledgement.
///
/// # Errors
///
/// The first fault: through the receipts in the order given, for each `NotThere`, then `Differs`, then `OutOfOrder`;
/// then `Count`; last `Acks`.
pub fn check_receipts(
    journal: &Journal,
    receipts: &[Receipt],
    acks: &[u64],
) -> Result<(), CloseFault>
    ensures exact { IsOk result
        ↔ Accounts journal.now.first (in_time journal.now) receipts.now acks.now }
    ensures fault { IfErr result
        (IsFault journal.now.first (in_time journal.now) receipts.now acks.now) }
{
    check_entries(journal.first(), journal.entries(), receipts, acks)
}

/// Tests whether entries, the first of which has a number, account for the receipts and the acknowledged numbers.
///
/// # Errors
///
/// The first fault, as of `check_receipts`.
pub(crate) fn check_entries(
    first: u64,
    entries: &[Entry],
    receipts: &[Receipt],
    acks: &[u64],
) -> Result<(), CloseFault>
    ensures exact { IsOk result ↔ Accounts first entries.now receipts.now acks.now }
    ensures fault { IfErr result (IsFault first entries.now receipts.now acks.now) }
{
    check_each(first, entries, receipts)?;
    if command_count(entries) != receipts.len() {
        return Err(CloseFault::Count);
    }
    if !is_acked(entries, acks) {
        return Err(CloseFault::Acks);
    }
    Ok(())
}

/// Tests one receipt after the other.
fn check_each(first: u64, entries: &[Entry], receipts: &[Receipt]) -> Result<(), CloseFault>
    ensures stand { OnOk result (AllStand first entries.now receipts.now) }
    ensures rising { OnOk result (AreRising receipts.now) }
    ensures fault { IfErr result (IsFaultAt first entries.now receipts.now) }
{
    let mut last = no_numbers();
    for (place, receipt) in receipts.iter().enumerate() {
        check_one(first, entries, &receipts[..place], &last, receipt)?;
        note(&mut last, receipt);
    }
    Ok(())
}

/// Tests one receipt after those before it, of which `last` has the last number of each seat.
fn check_one(
    first: u64,
    entries: &[Entry],
    before: &[Receipt],
    last: &[Option<u64>],
    receipt: &Receipt,
) -> Result<(), CloseFault>
    requires { AreNoted before.now last.now }
    ensures stands { OnOk result (Stands first entries.now receipt.now) }
    ensures rises { OnOk result (Rises before.now receipt.now) }
    ensures fault { IfErr result (IsFaultAfter first entries.now before.now receipt.now) }
{
    let Some(entry) = entry_at(first, entries, receipt.number) else {
        return Err(CloseFault::NotThere(receipt.number));
    };
    if !is_command(entry) {
        return Err(CloseFault::NotThere(receipt.number));
    }
    if !tells(entry, receipt) {
        return Err(CloseFault::Differs(receipt.number));
    }
    if !rises(before, last, receipt) {
        return Err(CloseFault::OutOfOrder(receipt.seat));
    }
    Ok(())
}

/// The entry with a number.
fn entry_at(first: u64, entries: &[Entry], number: u64) -> Option<&Entry>
    ensures { MatchOption result ((entry : _) → IsEntryAt first entries.now number entry → ⊥)
        (λ entry. IsEntryAt first entries.now number entry.now) }
{
    if number < first {
        return None;
    }
    entries.get((number - first) as usize)
}

fn is_command(entry: &Entry) -> bool
    ensures { result ≡ is_command entry.now }
{
    matches!(entry, Entry::Applied { .. })
}

/// Whether an entry is a receipt's command with its seat and reply.
fn tells(entry: &Entry, receipt: &Receipt) -> bool
    ensures { IsTrue result ↔ (entry.now ≡ Entry.Applied receipt.now.seat receipt.now.command receipt.now.reply) }
{
    match entry {
        Entry::Applied {
            seat,
            command,
            reply,
        } => {
            *seat == receipt.seat
                && is_same_command(command, &receipt.command)
                && is_same_reply(reply, &receipt.reply)
        }
        _ => false,
    }
}

fn is_same_command(one: &Command, other: &Command) -> bool
    ensures { IsTrue result ↔ (one.now ≡ other.now) }
{
    one == other
}

fn is_same_reply(one: &Reply, other: &Reply) -> bool
    ensures { IsTrue result ↔ (one.now ≡ other.now) }
{
    one == other
}

/// How many commands a journal has.
fn command_count(entries: &[Entry]) -> usize
    ensures { result ≡ command_count entries.now }
{
    entries.iter().filter(|entry| is_command(entry)).count()
}

/// Whether a journal acknowledges these numbers, in this order.
fn is_acked(entries: &[Entry], acks: &[u64]) -> bool
    ensures { IsTrue result ↔ (acked_numbers entries.now ≡ acks.now) }
{
    let mut found = 0;
    for entry in entries {
        let Entry::Acked(number) = entry else {
            continue;
        };
        if found >= acks.len() || acks[found] != *number {
            return false;
        }
        found += 1;
    }
    found == acks.len()
}
