//! The items of a table, as they stand there, as far as its bytes go.
ghost use Rattle.std.specs.Prelude.{◌≡◌, ◌+◌, ◌*◌, ◌≤◌, List, ℕ, length, drop, option_copied};
ghost use Rattle.sd_image.specs.Reading.{number_at};
ghost use Rattle.sd_show.specs.Items.{areas_in, behind, place_after_run, place_after_space, items_in, runs_in};

use sd_image::{u32_at, u64_at};

/// The length of the head of a table, in bytes.
pub(crate) const TABLE_HEAD_SIZE: usize = 8;

/// The length of the head of a space, in bytes.
pub(crate) const SPACE_HEAD_SIZE: usize = 16;

/// The length of an area or a run, in bytes.
pub(crate) const ITEM_SIZE: usize = 24;

/// The first items of some bytes: so many, or as many as there are bytes for.
fn items_in(bytes: &[u8], count: u64) -> &[[u8; ITEM_SIZE]]
    ensures { result.now ≡ items_in count bytes.now }
{
    let (items, _) = bytes.as_chunks::<ITEM_SIZE>();
    if count >= items.len() as u64 {
        return items;
    }
    &items[..count as usize]
}

/// The bytes after so many items, none where there are not as many.
fn bytes_behind(bytes: &[u8], count: u64) -> &[u8]
    ensures { result.now ≡ drop (24 * count) bytes.now }
{
    if count > (bytes.len() / ITEM_SIZE) as u64 {
        return &[];
    }
    &bytes[ITEM_SIZE * count as usize..]
}

/// The areas of the space that bytes begin with.
#[tactic(auto, unfolding(crate::specs::Items::areas_in))]
pub(crate) fn areas_in(bytes: &[u8]) -> &[[u8; ITEM_SIZE]]
    requires { 16 ≤ length bytes.now }
    ensures { result.now ≡ areas_in bytes.now }
{
    items_in(&bytes[SPACE_HEAD_SIZE..], u64::from(u32_at(bytes, 4)))
}

/// The bytes after the areas of the space that bytes begin with.
fn behind_areas(bytes: &[u8]) -> &[u8]
    requires { 16 ≤ length bytes.now }
    ensures { result.now ≡ drop (24 * number_at 4 4 bytes.now) (drop 16 bytes.now) }
{
    bytes_behind(&bytes[SPACE_HEAD_SIZE..], u64::from(u32_at(bytes, 4)))
}

/// The runs of the space that bytes begin with.
#[tactic(auto, unfolding(crate::specs::Items::runs_in))]
pub(crate) fn runs_in(bytes: &[u8]) -> &[[u8; ITEM_SIZE]]
    requires { 16 ≤ length bytes.now }
    ensures { result.now ≡ runs_in bytes.now }
{
    items_in(behind_areas(bytes), u64_at(bytes, 8))
}

/// The bytes after the space that bytes begin with.
#[tactic(auto, unfolding(crate::specs::Items::place_after_space))]
pub(crate) fn place_after_space(bytes: &[u8]) -> &[u8]
    requires { 16 ≤ length bytes.now }
    ensures { result.now ≡ place_after_space bytes.now }
{
    bytes_behind(behind_areas(bytes), u64_at(bytes, 8))
}

/// Where the bytes after so many data pages begin in the file, if that is below 2^64.
fn behind(at: Option<u64>, count: u64) -> Option<u64>
    ensures { result ≡ behind at count }
{
    at?.checked_add(count.checked_mul(4096)?)
}

/// Where the next data page stands in the file after a run, whose own pages would begin at a place.
pub(crate) fn place_after_run(at: Option<u64>, run: &[u8; ITEM_SIZE]) -> Option<u64>
    ensures { result ≡ place_after_run at run.now }
{
    if u32_at(run, 16) != 1 {
        return at;
    }
    behind(at, u64_at(run, 8))
}
