//! What has to be stored in a page so that its bytes become others.
ghost use Rattle.std.specs.Prelude.{◌≡◌, ◌≢◌, ◌+◌, ◌<◌, ◌≤◌, ℕ, length, slice_index, MatchOption};
ghost use Rattle.std.specs.Prelude.{IfOk};
ghost use Rattle.sd_elf.specs.Pieces.{ArePieces, AreSame, IsPiece};

use sd_areas::PAGE_SIZE;
use std::alloc::{AllocError, Global};

/// How many bytes a store has at most.
const STORE_LIMIT: usize = 64;

/// A part of a page: from one byte up to another.
#[derive(Clone, Copy, PartialEq, Eq)]
pub struct Piece {
    pub from: usize,
    pub to: usize,
}

/// The first byte from a place on that differs.
fn first_difference(old: &[u8], new: &[u8], from: usize) -> Option<usize>
    requires { length old.now ≡ length new.now }
    ensures { MatchOption result (AreSame old.now new.now from (length old.now))
        (λ first. (from ≤ first) × (first < length old.now) × AreSame old.now new.now from first
        × (slice_index old.now first ≢ slice_index new.now first)) }
{
    for k in from..old.len() {
        if old[k] != new[k] {
            return Some(k);
        }
    }
    None
}

/// The end of the last byte that differs from one on that does, up to another.
fn end_of_differences(old: &[u8], new: &[u8], from: usize, to: usize) -> usize
    requires lengths { length old.now ≡ length new.now }
    requires within { to ≤ length old.now }
    requires some { from < to }
    requires first { slice_index old.now from ≢ slice_index new.now from }
    ensures some { from < result }
    ensures within { result ≤ to }
    ensures behind { AreSame old.now new.now result to }
{
    let mut end = from + 1;
    for k in from + 1..to {
        if old[k] != new[k] {
            end = k + 1;
        }
    }
    end
}

/// The next part of a page, from a place on, that has to be stored so that its bytes become others: from the first byte
/// that differs to the last that one store reaches. None where nothing differs from there on.
fn next_piece(old: &[u8], new: &[u8], from: usize) -> Option<Piece>
    requires { length old.now ≡ length new.now }
    ensures { MatchOption result (AreSame old.now new.now from (length old.now))
        (IsPiece old.now new.now from) }
{
    let first = first_difference(old, new, from)?;
    let reach = old.len().min(first.saturating_add(STORE_LIMIT));
    let to = end_of_differences(old, new, first, reach);
    Some(Piece { from: first, to })
}

/// The parts of a page that have to be stored so that its bytes become others, rising.
///
/// # Errors
///
/// Out of memory where the list can't grow.
pub fn pieces_of(
    alloc: Global,
    old: &[u8; PAGE_SIZE],
    new: &[u8; PAGE_SIZE],
) -> Result<Vec<Piece>, AllocError>
    ensures { IfOk result (λ pieces. ArePieces old.now new.now 4096 pieces.items) }
{
    let mut pieces = Vec::new(alloc);
    let mut from = 0;
    while let Some(piece) = next_piece(old, new, from) {
        from = piece.to;
        pieces.push(piece)?;
    }
    Ok(pieces)
}
