//! The lines of a table: its spaces, and of each its areas and its runs.
ghost use Rattle.std.specs.Prelude.{◌≡◌, ◌⊎◌, ◌+◌, ◌^◌, ◌≤◌, ◌<◌, nat_le, Some, length, MatchOption, IfOk, OnOk};
ghost use Rattle.std.specs.List.{flat_map};
ghost use Rattle.std.specs.Io.KnownBytes.{Appends};
ghost use Rattle.sd_image.specs.Reading.{prot_of_number};
ghost use Rattle.sd_show.specs.Items.{place_after_runs, runs_in, spaces_in};
ghost use Rattle.sd_show.specs.Texts.{area_item_line, offset_text, permissions_text, range_text, run_kind_text};
ghost use Rattle.sd_show.specs.Texts.{run_kind_word, run_line, runs_text, space_lines, spaces_text, table_lines};

use crate::items::{
    ITEM_SIZE, SPACE_HEAD_SIZE, TABLE_HEAD_SIZE, areas_in, place_after_run, place_after_space,
    runs_in,
};
use sd_areas::{PAGE_NUMBER_LIMIT, Prot};
use sd_image::{HEADER_SIZE, u32_at, u64_at};
use std::io;
use std::io::Write;

/// The permissions with this number, or none where it is over 7.
pub(crate) fn prot_with(number: u32) -> Option<Prot>
    ensures { MatchOption result (7 < number) (λ prot. (number ≤ 7) × (prot ≡ prot_of_number number)) }
{
    if number > 7 {
        return None;
    }
    Prot::from_bits(number as u8)
}

/// Prints the permissions of an area, and ends its line: their letters, or their number where it is over 7.
#[tactic(auto, unfolding(crate::specs::Texts::permissions_text))]
fn print_permissions<W: Write>(number: u32, out: &mut W) -> io::Result<()>
    ensures { OnOk result
        (Appends (W.contents out.old) (W.contents out.new) (permissions_text number)) }
{
    match prot_with(number) {
        Some(prot) => writeln!(out, "{prot}"),
        None => writeln!(out, "{number}"),
    }
}

/// Whether a range of pages ends within those that a space can have.
fn is_within(first: u64, count: u64) -> bool
    ensures { result ≡ nat_le (first + count) (2 ^ 35) }
{
    u128::from(first) + u128::from(count) <= u128::from(PAGE_NUMBER_LIMIT)
}

/// Begins the line of an area: with its first address and the first after it, as `restore` prints them, or with its
/// numbers where a space doesn't have such pages.
#[tactic(auto, unfolding(crate::specs::Texts::range_text))]
fn print_range<W: Write>(first: u64, count: u64, out: &mut W) -> io::Result<()>
    ensures { OnOk result
        (Appends (W.contents out.old) (W.contents out.new) (range_text first count)) }
{
    if is_within(first, count) {
        let end = first + count;
        write!(out, "area 0x{:x} 0x{:x} ", 4096 * first, 4096 * end)
    } else {
        write!(out, "area page {first} pages {count} ")
    }
}

/// Prints an area.
#[tactic(auto, unfolding(crate::specs::Texts::area_item_line))]
fn print_area<W: Write>(area: &[u8; ITEM_SIZE], out: &mut W) -> io::Result<()>
    ensures { OnOk result
        (Appends (W.contents out.old) (W.contents out.new) (area_item_line area.now)) }
{
    print_range(u64_at(area, 0), u64_at(area, 8), out)?;
    print_permissions(u32_at(area, 16), out)
}

/// Prints areas, in their order.
fn print_areas<W: Write>(areas: &[[u8; ITEM_SIZE]], out: &mut W) -> io::Result<()>
    ensures { OnOk result
        (Appends (W.contents out.old) (W.contents out.new) (flat_map area_item_line areas.now)) }
{
    for area in areas {
        print_area(area, out)?;
    }
    Ok(())
}

/// The word for the kind of run with this number, or none.
pub(crate) fn run_kind_word(number: u32) -> Option<&'static str>
    ensures { MatchOption result (number < 1 ⊎ 3 < number)
        (λ word. (1 ≤ number) × (number ≤ 3) × (word.now ≡ run_kind_word number)) }
{
    match number {
        1 => Some("data"),
        2 => Some("parent"),
        3 => Some("zero"),
        _ => None,
    }
}

/// Prints the kind of a run: its word, or its number where it has none.
#[tactic(auto, unfolding(crate::specs::Texts::run_kind_text))]
fn print_run_kind<W: Write>(number: u32, out: &mut W) -> io::Result<()>
    ensures { OnOk result
        (Appends (W.contents out.old) (W.contents out.new) (run_kind_text number)) }
{
    match run_kind_word(number) {
        Some(word) => write!(out, "run {word}"),
        None => write!(out, "run {number}"),
    }
}

/// Ends a run's line: after the place in the file where its bytes begin, if it is of data.
#[tactic(auto, unfolding(crate::specs::Texts::offset_text))]
fn print_offset<W: Write>(kind: u32, at: Option<u64>, out: &mut W) -> io::Result<()>
    ensures { OnOk result
        (Appends (W.contents out.old) (W.contents out.new) (offset_text kind at)) }
{
    match at {
        Some(at) if kind == 1 => writeln!(out, " offset {at}"),
        _ => out.write_all(b"\n"),
    }
}

/// Prints a run, whose bytes begin at a place in the file if it is of data.
#[tactic(auto, unfolding(crate::specs::Texts::run_line))]
fn print_run<W: Write>(at: Option<u64>, run: &[u8; ITEM_SIZE], out: &mut W) -> io::Result<()>
    ensures { OnOk result
        (Appends (W.contents out.old) (W.contents out.new) (run_line at run.now)) }
{
    let kind = u32_at(run, 16);
    print_run_kind(kind, out)?;
    write!(out, " first {} pages {}", u64_at(run, 0), u64_at(run, 8))?;
    print_offset(kind, at, out)
}

/// Prints runs, in their order, and returns where the next data page stands after them.
fn print_runs<W: Write>(
    at: Option<u64>,
    runs: &[[u8; ITEM_SIZE]],
    out: &mut W,
) -> io::Result<Option<u64>>
    ensures text { OnOk result
        (Appends (W.contents out.old) (W.contents out.new) (runs_text at runs.now)) }
    ensures behind { IfOk result (λ next. next ≡ place_after_runs at runs.now) }
{
    let mut next = at;
    for run in runs {
        print_run(next, run, out)?;
        next = place_after_run(next, run);
    }
    Ok(next)
}

/// Prints the space that bytes begin with, and returns where the next data page stands after it.
#[tactic(auto, unfolding(crate::specs::Texts::space_lines, crate::specs::Texts::field_line))]
fn print_space<W: Write>(at: Option<u64>, bytes: &[u8], out: &mut W) -> io::Result<Option<u64>>
    requires { 16 ≤ length bytes.now }
    ensures text { OnOk result
        (Appends (W.contents out.old) (W.contents out.new) (space_lines at bytes.now)) }
    ensures behind { IfOk result (λ next. next ≡ place_after_runs at (runs_in bytes.now)) }
{
    writeln!(out, "space {}", u32_at(bytes, 0))?;
    print_areas(areas_in(bytes), out)?;
    print_runs(at, runs_in(bytes), out)
}

/// Prints so many spaces, as far as the bytes go.
fn print_spaces<W: Write>(count: u32, bytes: &[u8], out: &mut W) -> io::Result<()>
    ensures { OnOk result (Appends (W.contents out.old) (W.contents out.new)
        (spaces_text (Some 4096) (spaces_in count bytes.now))) }
{
    let mut left = count;
    let mut rest = bytes;
    let mut at = Some(HEADER_SIZE as u64);
    while left > 0 && rest.len() >= SPACE_HEAD_SIZE {
        at = print_space(at, rest, out)?;
        rest = place_after_space(rest);
        left -= 1;
    }
    Ok(())
}

/// Prints a table, as far as its bytes go.
#[tactic(auto, unfolding(crate::specs::Texts::table_lines))]
pub(crate) fn print_table<W: Write>(table: &[u8], out: &mut W) -> io::Result<()>
    ensures { OnOk result
        (Appends (W.contents out.old) (W.contents out.new) (table_lines table.now)) }
{
    if table.len() < TABLE_HEAD_SIZE {
        return Ok(());
    }
    print_spaces(u32_at(table, 0), &table[TABLE_HEAD_SIZE..], out)
}
