//! Receipts against a journal.

use sd_areas::SpaceId;
use sd_command::{Command, Reply};
use sd_journal::{CloseFault, Entry, Journal, Receipt};
use sd_receipts::check_receipts;
use std::alloc::{AllocError, Global};

fn exit() -> Command {
    Command::Exit {
        space: SpaceId::new(1),
    }
}

/// The reply that the journal has at a number.
fn reply_at(number: u64) -> Reply {
    match number {
        1 => Reply::Child(SpaceId::new(2)),
        _ => Reply::Done,
    }
}

/// Adds an entry to a journal that has a free one.
fn add(journal: &mut Journal, entry: Entry) -> Result<(), AllocError> {
    journal.reserve()?;
    if journal.free() > 0 {
        journal.append(entry);
    }
    Ok(())
}

/// Adds a command of each of these seats, of which the second makes space 2, and an acknowledgement.
fn apply_each(journal: &mut Journal, first: usize, seats: &[usize]) -> Result<(), AllocError> {
    for seat in seats {
        let entry = Entry::Applied {
            seat: first.saturating_add(*seat),
            command: exit(),
            reply: reply_at(journal.next_number()),
        };
        add(journal, entry)?;
    }
    add(journal, Entry::Acked(7))
}

/// A receipt: its seat, from the first one on, its number, and the number of the entry that has its reply.
type Told = (usize, u64, u64);

/// The first seat of each row: the first and the last of the table, and one that has no place there.
const SEATS: &[usize] = &[0, 999, 1000];

/// Three commands of the first seat.
const ONE_SEAT: &[usize] = &[0, 0, 0];

/// The seats of a journal's commands, from the first one on, the receipts, the acknowledgements, and what these are
/// answered.
type Row = (
    &'static [usize],
    &'static [Told],
    &'static [u64],
    Result<(), CloseFault>,
);

/// Each fault of receipts of one seat. Then another reply, another seat, and several seats, of which only those of one
/// seat have an order.
const ROWS: &[Row] = &[
    (ONE_SEAT, &[(0, 0, 0), (0, 1, 1), (0, 2, 2)], &[7], Ok(())),
    (
        ONE_SEAT,
        &[(0, 0, 0), (0, 1, 1)],
        &[7],
        Err(CloseFault::Count),
    ),
    (
        ONE_SEAT,
        &[(0, 1, 1), (0, 0, 0), (0, 2, 2)],
        &[7],
        Err(CloseFault::OutOfOrder(0)),
    ),
    (
        ONE_SEAT,
        &[(0, 0, 0), (0, 1, 1), (0, 1, 1)],
        &[7],
        Err(CloseFault::OutOfOrder(0)),
    ),
    (
        ONE_SEAT,
        &[(0, 0, 0), (0, 1, 1), (0, 9, 9)],
        &[7],
        Err(CloseFault::NotThere(9)),
    ),
    (
        ONE_SEAT,
        &[(0, 0, 0), (0, 1, 1), (0, 3, 3)],
        &[7],
        Err(CloseFault::NotThere(3)),
    ),
    (
        ONE_SEAT,
        &[(0, 0, 0), (0, 1, 1), (0, 2, 2)],
        &[7, 8],
        Err(CloseFault::Acks),
    ),
    (
        ONE_SEAT,
        &[(0, 0, 0), (0, 1, 1), (0, 2, 2)],
        &[],
        Err(CloseFault::Acks),
    ),
    (
        ONE_SEAT,
        &[(0, 0, 0), (0, 1, 0), (0, 2, 2)],
        &[7],
        Err(CloseFault::Differs(1)),
    ),
    (
        ONE_SEAT,
        &[(0, 0, 0), (0, 1, 1), (1, 2, 2)],
        &[7],
        Err(CloseFault::Differs(2)),
    ),
    (
        &[0, 1000, 0, 5],
        &[(5, 3, 3), (1000, 1, 1), (0, 0, 0), (0, 2, 2)],
        &[7],
        Ok(()),
    ),
    (&[], &[], &[7], Ok(())),
    (&[], &[], &[], Err(CloseFault::Acks)),
];

fn receive(receipts: &mut Vec<Receipt>, first: usize, told: &[Told]) -> Result<(), AllocError> {
    for (seat, number, replied) in told {
        receipts.push(Receipt {
            seat: first.saturating_add(*seat),
            number: *number,
            command: exit(),
            reply: reply_at(*replied),
        })?;
    }
    Ok(())
}

/// What a row is answered whose first seat is this.
fn answer_of(wanted: Result<(), CloseFault>, first: usize) -> Result<(), CloseFault> {
    match wanted {
        Err(CloseFault::OutOfOrder(_)) => Err(CloseFault::OutOfOrder(first)),
        other => other,
    }
}

/// Whether receipts are answered as their row says.
fn are_answered(
    journal: &mut Journal,
    receipts: &mut Vec<Receipt>,
    first: usize,
    row: &Row,
) -> Result<bool, AllocError> {
    apply_each(journal, first, row.0)?;
    receive(receipts, first, row.1)?;
    Ok(check_receipts(journal, receipts, row.2) == answer_of(row.3, first))
}

/// Whether that is so of each row.
fn are_all_answered(alloc: Global, first: usize) -> Result<bool, AllocError> {
    for row in ROWS {
        if !are_answered(&mut Journal::new(alloc), &mut Vec::new(alloc), first, row)? {
            return Ok(false);
        }
    }
    Ok(true)
}

/// Whether an empty journal accounts for nothing alone.
fn is_nothing(journal: &Journal) -> bool {
    check_receipts(journal, &[], &[]) == Ok(())
        && check_receipts(journal, &[], &[7]) == Err(CloseFault::Acks)
}

#[test]
fn receipts_account_for_a_journal(rt: HostRuntime) -> Result<(), AllocError> {
    for first in SEATS {
        assert!(rt;
            are_all_answered(rt.alloc(), *first)?,
            "from seat {first} on"
        );
    }
    assert!(rt; is_nothing(&Journal::new(rt.alloc())));
    Ok(())
}
