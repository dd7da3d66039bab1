//! What seats and workers were answered.
use sd_command::Refusal;
use sd_journal::{CloseFault, Entry, Receipt};
use sd_receipts::Folded;
use std::alloc::{AllocError, Global};
use std::mem;

/// More trims than are made in a run.
const MOST_TRIMS: u64 = 10_000;

/// What seats, dumpers and trims were answered, and what closing with it is to answer. The receipts of each seat stand
/// in its order.
#[derive(Drop)]
pub(crate) struct Told {
    pub(crate) receipts: Vec<Receipt>,
    pub(crate) acks: Vec<u64>,
    pub(crate) folded: Vec<Folded>,
    pub(crate) fault: Option<CloseFault>,
}

/// Room for acknowledgements, where memory is refused once at most.
fn room_for_acks(alloc: Global) -> Result<Vec<u64>, AllocError> {
    match Vec::with_capacity(alloc, 4) {
        Ok(room) => Ok(room),
        Err(_) => Vec::with_capacity(alloc, 4),
    }
}

impl Told {
    /// Nothing was answered yet.
    pub(crate) fn new(alloc: Global) -> Result<Told, AllocError> {
        let acks = room_for_acks(alloc)?;
        Ok(Told {
            receipts: Vec::new(alloc),
            acks,
            folded: Vec::new(alloc),
            fault: None,
        })
    }

    /// Keeps a receipt. Returns whether there was room.
    pub(crate) fn keep(&mut self, receipt: Receipt) -> bool {
        self.receipts.push(receipt).is_ok()
    }

    /// Keeps a number that was acknowledged. Returns whether there was room.
    pub(crate) fn keep_ack(&mut self, number: u64) -> bool {
        self.acks.push(number).is_ok()
    }

    /// Keeps what a trim folded. Returns whether there was room.
    pub(crate) fn keep_folded(&mut self, folded: Folded) -> bool {
        self.folded.push(folded).is_ok()
    }

    /// Keeps the receipts of a seat, where memory is refused once at most. Returns whether there was room.
    pub(crate) fn take(&mut self, receipts: Vec<Receipt>) -> bool {
        let mut receipts = receipts;
        self.receipts.append(&mut receipts).is_ok() || self.receipts.append(&mut receipts).is_ok()
    }

    /// Whether what the trims folded accounts, part by part, for the receipts and the acknowledgements of its entries.
    /// It takes these; what the journal still has is left.
    pub(crate) fn are_folded(&mut self, alloc: Global) -> bool {
        let mut first = 0;
        for _ in 0..MOST_TRIMS {
            if self.folded.is_empty() {
                return true;
            }
            match self.fold_from(alloc, first) {
                Some(next) => first = next,
                None => return false,
            }
        }
        false
    }

    /// The part that begins with this entry, compared with what was answered. Returns the number after its last entry.
    fn fold_from(&mut self, alloc: Global, first: u64) -> Option<u64> {
        let part = take_part(&mut self.folded, first)?;
        if self.accounts(alloc, &part) {
            Some(end_of(&part))
        } else {
            None
        }
    }

    /// Whether a part accounts for its receipts and acknowledgements, which it takes.
    fn accounts(&mut self, alloc: Global, part: &Folded) -> bool {
        let mut receipts = Vec::new(alloc);
        if !take_below(alloc, &mut self.receipts, end_of(part), &mut receipts) {
            return false;
        }
        let Ok(acks) = take_front(&mut self.acks, count_acks(part)) else {
            return false;
        };
        part.check(&receipts, &acks).is_ok()
    }
}

/// The number after that of the last entry.
fn end_of(part: &Folded) -> u64 {
    part.first.saturating_add(part.entries.len() as u64)
}

/// How many checkpoints the entries acknowledge.
fn count_acks(part: &Folded) -> usize {
    part.entries
        .iter()
        .filter(|entry| matches!(entry, Entry::Acked(_)))
        .count()
}

/// Takes the part that begins with this entry.
fn take_part(parts: &mut Vec<Folded>, first: u64) -> Option<Folded> {
    let place = parts.iter().position(|part| part.first == first)?;
    if place < parts.len() {
        Some(parts.swap_remove(place))
    } else {
        None
    }
}

/// Takes so many numbers from the front, or all.
fn take_front(numbers: &mut Vec<u64>, count: usize) -> Result<Vec<u64>, AllocError> {
    let rest = numbers.split_off(count.min(numbers.len()))?;
    Ok(mem::replace(numbers, rest))
}

/// Puts a receipt with a lesser number into the first list, and any other one into the second.
fn part(receipt: Receipt, number: u64, below: &mut Vec<Receipt>, rest: &mut Vec<Receipt>) -> bool {
    if receipt.number < number {
        below.push(receipt).is_ok()
    } else {
        rest.push(receipt).is_ok()
    }
}

/// Moves the receipts with lesser numbers to another list, in their order. Returns whether there was room.
fn take_below(
    alloc: Global,
    receipts: &mut Vec<Receipt>,
    number: u64,
    below: &mut Vec<Receipt>,
) -> bool {
    let all = mem::replace(receipts, Vec::new(alloc));
    for receipt in all {
        if !part(receipt, number, below, receipts) {
            return false;
        }
    }
    true
}
