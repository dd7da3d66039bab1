//! Reading a table, item by item from front to back.

ghost use Rattle.std.specs.Prelude.{◌≡◌, ◌⊎◌, ℕ, ◌+◌, ◌^◌, ◌<◌, ◌≤◌, ◌&&◌, nat_lt, nat_le, List, None, Some, Ok, Err};
ghost use Rattle.std.specs.Prelude.{true, false, length, map, IsOk, IfOk, MatchOption, option_copied};
ghost use Rattle.sd_areas.specs.Areas.{begins_after, is_area_after};
ghost use Rattle.sd_image.specs.declared.header.Header.{Header};
ghost use Rattle.sd_image.specs.Reading.{Reads, ReadsTable, number_at, prot_of_number, item_at, many, head_at, area_of};
ghost use Rattle.sd_image.specs.Reading.{area_holds};
ghost use Rattle.sd_image.specs.Reading.{area_from, area_at, run_kind_of, run_of, run_holds, run_from, run_at};
ghost use Rattle.sd_image.specs.Reading.{area_limit, space_head_of, space_head_at, covers, space_at, ends_rightly};
ghost use Rattle.sd_image.specs.Reading.{table_in};
ghost use Rattle.sd_image.specs.Words.{run_kind_number};
ghost use Rattle.sd_image.specs.declared.table_error.TableError.TheVariants.{OutOfMemory};
ghost use Rattle.sd_image.specs.Table.{Listed, listing_of, run_begins_after, has_source, is_run_after, table_text};
ghost use Rattle.sd_image.specs.Table.{IsTable};

use crate::coverage::have_same_pages;
use crate::fields::{u32_at, u64_at};
use crate::header::{Header, Kind};
use crate::layout::{RANGE_SIZE, SPACE_HEAD_SIZE, TABLE_HEAD_SIZE};
use crate::reason::Reason;
use crate::run::{Run, RunKind};
use crate::space_head::SpaceHead;
use crate::table::{SpaceTable, Table};
use crate::table_error::TableError;
use crate::totals::{left_by_data, left_by_mapped};
use sd_areas::{
    AREA_LIMIT, Area, MAPPED_PAGE_LIMIT, PAGE_NUMBER_LIMIT, PageNo, Prot, SPACE_LIMIT, SpaceId,
};
use std::alloc::Global;

/// The next item, and the bytes after it.
fn item_of(bytes: &[u8], len: usize) -> Result<(&[u8], &[u8]), Reason>
    ensures read { Reads (λ x. (x.0.now, x.1.now)) result (item_at len bytes.now) }
    ensures long { IfOk result (λ x. length x.0.now ≡ len) }
{
    if bytes.len() < len {
        return Err(Reason::PastEnd);
    }
    Ok(bytes.split_at(len))
}

/// How many spaces the table has.
#[tactic(auto, unfolding(crate::specs::Reading::head_at))]
fn head_of(bytes: &[u8]) -> Result<(u32, &[u8]), Reason>
    ensures { Reads (λ x. (x.0, x.1.now)) result (head_at bytes.now) }
{
    let (item, rest) = item_of(bytes, TABLE_HEAD_SIZE)?;
    let spaces = u32_at(item, 0);
    if u64::from(spaces) > SPACE_LIMIT {
        return Err(Reason::Space);
    }
    if u32_at(item, 4) != 0 {
        return Err(Reason::Zero);
    }
    Ok((spaces, rest))
}

/// The first page after a range of pages.
fn end_of(first: PageNo, count: u64) -> u128
    ensures { result ≡ first + count }
{
    u128::from(first.number()) + u128::from(count)
}

/// Whether a range has pages, all of them in a space.
fn is_range(first: PageNo, count: u64) -> bool
    ensures { result ≡ (nat_lt 0 count && nat_le (first + count) (2 ^ 35)) }
{
    0 < count && end_of(first, count) <= u128::from(PAGE_NUMBER_LIMIT)
}

/// Whether an area begins after the one before it, or at its end with other permissions.
fn begins_after(before: Option<&Area>, area: &Area) -> bool
    ensures { result ≡ begins_after (option_copied before.entry) area.now }
{
    let Some(before) = before else {
        return true;
    };
    let end = end_of(before.first, before.count);
    let first = u128::from(area.first.number());
    end < first || (end == first && before.prot.bits() != area.prot.bits())
}

/// Whether an area may stand after the one before it.
fn is_area_after(before: Option<&Area>, area: &Area) -> bool
    ensures { result ≡ is_area_after (option_copied before.entry) area.now }
{
    is_range(area.first, area.count) && begins_after(before, area)
}

/// The permissions with this number, or none.
fn prot_with(number: u32) -> Option<Prot>
    ensures { MatchOption result (7 < number) (λ prot. (number ≤ 7) × (prot ≡ prot_of_number number)) }
{
    if number > 7 {
        return None;
    }
    Prot::from_bits(number as u8)
}

/// The area of an item, where it may stand after the one before.
fn area_in(before: Option<&Area>, item: &[u8]) -> Option<Area>
    requires { length item.now ≡ 24 }
    ensures { MatchOption result (area_holds (option_copied before.entry) item.now ≡ false)
        (λ area. (area_holds (option_copied before.entry) item.now ≡ true)
        × (area ≡ area_of item.now)) }
{
    let first = PageNo::new(u64_at(item, 0))?;
    let count = u64_at(item, 8);
    let prot = prot_with(u32_at(item, 16))?;
    let area = Area { first, count, prot };
    if !is_area_after(before, &area) {
        return None;
    }
    Some(area)
}

/// The area that an item of 24 bytes spells, after the one before.
#[tactic(auto, unfolding(crate::specs::Reading::area_from))]
fn area_from(before: Option<&Area>, item: &[u8]) -> Result<Area, Reason>
    requires { length item.now ≡ 24 }
    ensures { result ≡ area_from (option_copied before.entry) item.now }
{
    let area = area_in(before, item).ok_or(Reason::Area)?;
    if u32_at(item, 20) != 0 {
        return Err(Reason::Zero);
    }
    Ok(area)
}

/// So many areas, one after the other. Memory is taken as they are read, whatever the count says.
fn areas_of(alloc: Global, count: u32, bytes: &[u8]) -> Result<(Vec<Area>, &[u8]), TableError>
    ensures { ReadsTable (λ x. (x.0.items, x.1.now)) result (many area_at Some count None bytes.now) }
{
    let mut areas = Vec::new(alloc);
    let mut rest = bytes;
    for _ in 0..count {
        let (item, after) = item_of(rest, RANGE_SIZE)?;
        let area = area_from(areas.last(), item)?;
        areas.push(area)?;
        rest = after;
    }
    Ok((areas, rest))
}

/// The kind of run with this number, or none.
fn run_kind_with(number: u32) -> Option<RunKind>
    ensures { MatchOption result (number < 1 ⊎ 3 < number)
        (λ kind. (1 ≤ number) × (number ≤ 3) × (kind ≡ run_kind_of number)) }
{
    match number {
        1 => Some(RunKind::Data),
        2 => Some(RunKind::Parent),
        3 => Some(RunKind::Zero),
        _ => None,
    }
}

/// Whether a run begins after the one before it, or at its end as another kind.
fn run_begins_after(before: Option<&Run>, run: &Run) -> bool
    ensures { result ≡ run_begins_after (option_copied before.entry) run.now }
{
    let Some(before) = before else {
        return true;
    };
    let end = end_of(before.first, before.count);
    let first = u128::from(run.first.number());
    end < first || (end == first && before.kind != run.kind)
}

/// Whether the bytes of a run are somewhere.
fn has_source(parent: u64, run: &Run) -> bool
    ensures { result ≡ has_source parent run.now }
{
    match run.kind {
        RunKind::Data | RunKind::Zero => true,
        RunKind::Parent => parent > 0,
    }
}

/// Whether a run may stand after the one before it.
fn is_run_after(parent: u64, before: Option<&Run>, run: &Run) -> bool
    ensures { result ≡ is_run_after parent (option_copied before.entry) run.now }
{
    is_range(run.first, run.count) && run_begins_after(before, run) && has_source(parent, run)
}

/// The run of an item, where it may stand after the one before.
fn run_in(parent: u64, before: Option<&Run>, item: &[u8]) -> Option<Run>
    requires { length item.now ≡ 24 }
    ensures { MatchOption result (run_holds parent (option_copied before.entry) item.now ≡ false)
        (λ run. (run_holds parent (option_copied before.entry) item.now ≡ true)
        × (run ≡ run_of item.now)) }
{
    let first = PageNo::new(u64_at(item, 0))?;
    let count = u64_at(item, 8);
    let kind = run_kind_with(u32_at(item, 16))?;
    let run = Run { first, count, kind };
    if !is_run_after(parent, before, &run) {
        return None;
    }
    Some(run)
}

/// The run that an item of 24 bytes spells, after the one before.
#[tactic(auto, unfolding(crate::specs::Reading::run_from))]
fn run_from(parent: u64, before: Option<&Run>, item: &[u8]) -> Result<Run, Reason>
    requires { length item.now ≡ 24 }
    ensures { result ≡ run_from parent (option_copied before.entry) item.now }
{
    let run = run_in(parent, before, item).ok_or(Reason::Run)?;
    if u32_at(item, 20) != 0 {
        return Err(Reason::Zero);
    }
    Ok(run)
}

/// So many runs, one after the other. Memory is taken as they are read, whatever the count says.
fn runs_of(
    alloc: Global,
    parent: u64,
    count: u64,
    bytes: &[u8],
) -> Result<(Vec<Run>, &[u8]), TableError>
    ensures { ReadsTable (λ x. (x.0.items, x.1.now)) result
        (many (run_at parent) Some count None bytes.now) }
{
    let mut runs = Vec::new(alloc);
    let mut rest = bytes;
    for _ in 0..count {
        let (item, after) = item_of(rest, RANGE_SIZE)?;
        let run = run_from(parent, runs.last(), item)?;
        runs.push(run)?;
        rest = after;
    }
    Ok((runs, rest))
}

/// How many areas a space may have.
fn area_limit(kind: Kind) -> usize
    ensures { result ≡ area_limit kind }
{
    match kind {
        Kind::PreDump => 0,
        Kind::Dump | Kind::Merged => AREA_LIMIT,
    }
}

/// The head of a space after the space with the number `before`.
#[tactic(auto, unfolding(crate::specs::Reading::space_head_at, crate::specs::Reading::space_head_of))]
fn space_head_of(kind: Kind, before: u64, bytes: &[u8]) -> Result<(SpaceHead, &[u8]), Reason>
    ensures { Reads (λ x. (x.0, x.1.now)) result (space_head_at kind before bytes.now) }
{
    let (item, rest) = item_of(bytes, SPACE_HEAD_SIZE)?;
    let head = SpaceHead {
        space: u32_at(item, 0),
        areas: u32_at(item, 4),
        runs: u64_at(item, 8),
    };
    if u64::from(head.space) <= before || u64::from(head.space) > SPACE_LIMIT {
        return Err(Reason::Space);
    }
    if head.areas as usize > area_limit(kind) {
        return Err(Reason::Area);
    }
    Ok((head, rest))
}

/// Whether the runs' pages are what they have to be.
#[tactic(auto, unfolding(crate::specs::Reading::covers))]
fn covers(kind: Kind, areas: &[Area], runs: &[Run]) -> bool
    ensures { result ≡ covers kind areas.now runs.now }
{
    match kind {
        Kind::PreDump => !runs.is_empty(),
        Kind::Dump | Kind::Merged => have_same_pages(areas, runs),
    }
}

/// A space after the space with the number `before`.
#[tactic(auto, unfolding(crate::specs::Reading::space_at))]
fn space_of<'a>(
    alloc: Global,
    header: &Header,
    before: u64,
    bytes: &'a [u8],
) -> Result<(SpaceTable, &'a [u8]), TableError>
    ensures { ReadsTable (λ x. (listing_of x.0, x.1.now)) result (space_at header.now before bytes.now) }
{
    let (head, rest) = space_head_of(header.kind, before, bytes)?;
    let (areas, rest) = areas_of(alloc, head.areas, rest)?;
    let (runs, rest) = runs_of(alloc, header.parent, head.runs, rest)?;
    if !covers(header.kind, &areas, &runs) {
        return Err(TableError::Damaged(Reason::Coverage));
    }
    let space = SpaceId::new(u64::from(head.space));
    Ok((SpaceTable { space, areas, runs }, rest))
}

/// The spaces after the head of a table.
fn spaces_of<'a>(
    alloc: Global,
    header: &Header,
    count: u32,
    bytes: &'a [u8],
) -> Result<(Vec<SpaceTable>, &'a [u8]), TableError>
    ensures { ReadsTable (λ x. (map listing_of x.0.items, x.1.now)) result
        (many (space_at header.now) (λ s. s.space) count 0 bytes.now) }
{
    let mut spaces = Vec::new(alloc);
    let mut before = 0;
    let mut rest = bytes;
    for _ in 0..count {
        let (space, after) = space_of(alloc, header, before, rest)?;
        before = space.space.number();
        spaces.push(space)?;
        rest = after;
    }
    Ok((spaces, rest))
}

/// Whether nothing is left, and the pages are as many as they have to be.
#[tactic(auto, unfolding(crate::specs::Reading::ends_rightly))]
fn ends_rightly(header: &Header, spaces: &[SpaceTable], rest: &[u8]) -> bool
    ensures { result ≡ ends_rightly header.now (map listing_of spaces.now) rest.now }
{
    rest.is_empty()
        && left_by_data(header.pages, spaces) == Some(0)
        && left_by_mapped(MAPPED_PAGE_LIMIT, spaces).is_some()
}

/// The table that all of the bytes spell: the reading, and nothing else.
#[tactic(auto, unfolding(crate::specs::Reading::table_in))]
fn table_of(alloc: Global, header: &Header, bytes: &[u8]) -> Result<Table, TableError>
    ensures exact { ReadsTable (λ t. map listing_of t.spaces.items) result (table_in header.now bytes.now) }
    ensures tested { result ≡ Err OutOfMemory → IsOk (head_at bytes.now) }
{
    let (count, rest) = head_of(bytes)?;
    let (spaces, rest) = spaces_of(alloc, header, count, rest)?;
    if !ends_rightly(header, &spaces, rest) {
        return Err(TableError::Damaged(Reason::Total));
    }
    Ok(Table { spaces })
}

/// The table that the bytes spell, all of them, after this header; or the least reason that applies to the
/// first item at which a rule breaks. Out of memory comes only after the table's head.
pub fn decode_table(alloc: Global, header: &Header, bytes: &[u8]) -> Result<Table, TableError>
    // What is read is spelled so, and is a table.
    ensures found { IfOk result
        (λ t. (bytes.now ≡ table_text (map listing_of t.spaces.items))
        × IsTable header.now (map listing_of t.spaces.items)) }
    // What is spelled so is read, unless memory runs out.
    ensures only { (spaces : List Listed) → bytes.now ≡ table_text spaces
        → IsTable header.now spaces
        → ReadsTable (λ t. map listing_of t.spaces.items) result (Ok spaces) }
    // Which reason it is.
    ensures exact { ReadsTable (λ t. map listing_of t.spaces.items) result
        (table_in header.now bytes.now) }
    // Memory is taken after the head.
    ensures tested { result ≡ Err OutOfMemory → IsOk (head_at bytes.now) }
{
    table_of(alloc, header, bytes)
}
