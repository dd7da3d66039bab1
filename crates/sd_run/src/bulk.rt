//! Bytes in bulk: stores and loads of at most 64 bytes, one after the other.
ghost use Rattle.std.specs.Prelude.{◌≡◌, ◌≤◌, ◌++◌, [], length, IfSome, IfNone};
ghost use Rattle.sd_world.specs.Goes.{GoesOn};
ghost use Rattle.sd_world.specs.Points.{StandsAt};
ghost use Rattle.sd_world.specs.Promise.{Point};
ghost use Rattle.sd_run.specs.Bulk.{Gets, Puts};
ghost use Rattle.sd_run.specs.Lines.{AnswersLines};
ghost use Rattle.sd_run.specs.Promise.{GoesByLines};

use crate::lines::apply;
use sd_areas::SpaceId;
use sd_command::{Bytes, Command, Reply};
use sd_disk::Disk;
use sd_world::World;
use std::alloc::{AllocError, Global};

/// The most bytes that a store or a load has.
const PIECE: usize = 64;

/// The bytes of a page.
const PAGE: u64 = 4096;

/// Where bytes begin: an address of a space.
#[derive(Clone, Copy, Debug, PartialEq, Eq)]
pub struct Place {
    pub space: SpaceId,
    pub address: u64,
}

/// The store or load that wasn't done, by its address, and its answer.
#[derive(Debug, Drop)]
pub struct Halt {
    pub address: u64,
    pub reply: Reply,
}

/// How many bytes the store or load at an address has, of so many that are left: at most 64, and none of the next page.
fn piece_len(address: u64, left: usize) -> usize
    requires { 1 ≤ left }
    ensures some { 1 ≤ result }
    ensures few { result ≤ 64 }
    ensures left { result ≤ left }
{
    let of_page = (PAGE - address % PAGE) as usize;
    PIECE.min(of_page).min(left)
}

/// The bytes of the next store, and those after it.
fn split_piece(address: u64, bytes: &[u8]) -> Option<(&[u8], &[u8])>
    ensures parts { IfSome result (λ parts. bytes.now ≡ parts.0.now ++ parts.1.now) }
    ensures some { IfSome result (λ parts. 1 ≤ length parts.0.now) }
    ensures few { IfSome result (λ parts. length parts.0.now ≤ 64) }
    ensures none { IfNone result (bytes.now ≡ []) }
{
    if bytes.is_empty() {
        return None;
    }
    Some(bytes.split_at(piece_len(address, bytes.len())))
}

/// Stores bytes piece by piece, up to the first store that isn't done.
fn put_pieces<D: Disk>(
    alloc: Global,
    world: &mut World<D>,
    place: Place,
    bytes: &[u8],
) -> Result<Option<Halt>, AllocError>
    ensures answered { Puts (λ lines answers. AnswersLines D.Disk world.old lines answers world.new)
        place.space place.address bytes.now result }
    ensures goes_on { GoesOn D.Disk world.old world.new }
{
    world.sound();
    let Place { space, mut address } = place;
    let mut rest = bytes;
    while let Some((piece, others)) = split_piece(address, rest) {
        let bytes = Bytes::new(Vec::from_slice(alloc, piece)?);
        let store = Command::Store {
            space,
            address,
            bytes,
        };
        match apply(world, store) {
            Reply::Done => {}
            reply => return Ok(Some(Halt { address, reply })),
        }
        address = address.wrapping_add(piece.len() as u64);
        rest = others;
    }
    Ok(None)
}

/// Stores bytes by stores of at most 64 bytes, each within one page, in rising order, up to the first that isn't done.
/// None where all were stored.
///
/// # Errors
///
/// `AllocError` where there is no room for the bytes of a store: those before it were made.
pub fn put_bytes<D: Disk>(
    alloc: Global,
    world: &mut World<D>,
    place: Place,
    bytes: &[u8],
) -> Result<Option<Halt>, AllocError>
    // It is the lines of these stores, one after the other.
    ensures answered { Puts (λ lines answers. AnswersLines D.Disk world.old lines answers world.new)
        place.space place.address bytes.now result }
    ensures goes_on { GoesOn D.Disk world.old world.new }
    // So what `run_line` promises of each line holds: from each point at which the world stands, the run comes by them
    // to one at which it stands then.
    ensures promise { D.is_honest world.new.disk → (first : Point D) → StandsAt world.old first
        → (last : Point D) × StandsAt world.new last
        × Puts (λ lines answers. GoesByLines D.Disk first lines answers last)
        place.space place.address bytes.now result }
{
    world.points_follow();
    put_pieces(alloc, world, place, bytes)
}

/// Loads bytes piece by piece, up to the first load that isn't answered bytes, and adds them to a list.
fn get_pieces<D: Disk>(
    world: &mut World<D>,
    place: Place,
    length: usize,
    bytes: &mut Vec<u8>,
) -> Result<Option<Halt>, AllocError>
    ensures answered { Gets (λ lines answers. AnswersLines D.Disk world.old lines answers world.new)
        place.space place.address length bytes.old.items bytes.new.items result }
    ensures goes_on { GoesOn D.Disk world.old world.new }
{
    world.sound();
    let Place { space, mut address } = place;
    let mut left = length;
    while left > 0 {
        let count = piece_len(address, left);
        let load = Command::Load {
            space,
            address,
            count: count as u64,
        };
        match apply(world, load) {
            Reply::Bytes(piece) => bytes.extend_from_slice(piece.as_slice())?,
            reply => return Ok(Some(Halt { address, reply })),
        }
        address = address.wrapping_add(count as u64);
        left -= count;
    }
    Ok(None)
}

/// Loads so many bytes by loads of at most 64 bytes, each within one page, in rising order, up to the first that is
/// refused, and adds them to a list. None where all were loaded.
///
/// # Errors
///
/// `AllocError` where there is no room for the bytes of a load, which was made, as those before it.
pub fn get_bytes<D: Disk>(
    world: &mut World<D>,
    place: Place,
    length: usize,
    bytes: &mut Vec<u8>,
) -> Result<Option<Halt>, AllocError>
    // It is the lines of these loads, one after the other, and the bytes are those of their answers.
    ensures answered { Gets (λ lines answers. AnswersLines D.Disk world.old lines answers world.new)
        place.space place.address length bytes.old.items bytes.new.items result }
    ensures goes_on { GoesOn D.Disk world.old world.new }
    // So what `run_line` promises of each line holds.
    ensures promise { D.is_honest world.new.disk → (first : Point D) → StandsAt world.old first
        → (last : Point D) × StandsAt world.new last
        × Gets (λ lines answers. GoesByLines D.Disk first lines answers last)
        place.space place.address length bytes.old.items bytes.new.items result }
{
    world.points_follow();
    get_pieces(world, place, length, bytes)
}
