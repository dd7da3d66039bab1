//! Writing a table.

ghost use Rattle.std.specs.Prelude.{◌≡◌, ◌++◌, map, Ok, IfOk, OnOk};
ghost use Rattle.std.specs.List.{flat_map};
ghost use Rattle.sd_image.specs.Words.{run_kind_number};
ghost use Rattle.sd_image.specs.declared.header.Header.{Header};
ghost use Rattle.sd_image.specs.Table.{listing_of, area_text, run_text, space_text, table_text, IsTable};
ghost use Rattle.sd_image.specs.Reading.{table_in};

use crate::fields::{put_u32, put_u64};
use crate::run::{Run, RunKind};
use crate::table::{SpaceTable, Table};
use sd_areas::Area;
use std::alloc::{AllocError, Global};

/// The number by which a table names the kind.
fn number_of(kind: RunKind) -> u64
    ensures { result ≡ run_kind_number kind }
{
    match kind {
        RunKind::Data => 1,
        RunKind::Parent => 2,
        RunKind::Zero => 3,
    }
}

/// Writes an area.
fn put_area(out: &mut Vec<u8>, area: &Area) -> Result<(), AllocError>
    ensures { OnOk result (out.new.items ≡ out.old.items ++ area_text area.now) }
{
    put_u64(out, area.first.number())?;
    put_u64(out, area.count)?;
    put_u32(out, u64::from(area.prot.bits()))?;
    put_u32(out, 0)?;
    Ok(())
}

/// Writes a run.
fn put_run(out: &mut Vec<u8>, run: &Run) -> Result<(), AllocError>
    ensures { OnOk result (out.new.items ≡ out.old.items ++ run_text run.now) }
{
    put_u64(out, run.first.number())?;
    put_u64(out, run.count)?;
    put_u32(out, number_of(run.kind))?;
    put_u32(out, 0)?;
    Ok(())
}

/// Writes areas, one after the other.
fn put_areas(out: &mut Vec<u8>, areas: &[Area]) -> Result<(), AllocError>
    ensures { OnOk result (out.new.items ≡ out.old.items ++ flat_map area_text areas.now) }
{
    for area in areas {
        put_area(out, area)?;
    }
    Ok(())
}

/// Writes runs, one after the other.
fn put_runs(out: &mut Vec<u8>, runs: &[Run]) -> Result<(), AllocError>
    ensures { OnOk result (out.new.items ≡ out.old.items ++ flat_map run_text runs.now) }
{
    for run in runs {
        put_run(out, run)?;
    }
    Ok(())
}

/// Writes a space: its head, its areas and its runs.
fn put_space(out: &mut Vec<u8>, space: &SpaceTable) -> Result<(), AllocError>
    ensures { OnOk result (out.new.items ≡ out.old.items ++ space_text (listing_of space.now)) }
{
    put_u32(out, space.space.number())?;
    put_u32(out, space.areas.len() as u64)?;
    put_u64(out, space.runs.len() as u64)?;
    put_areas(out, &space.areas)?;
    put_runs(out, &space.runs)?;
    Ok(())
}

/// Writes spaces, one after the other.
fn put_spaces(out: &mut Vec<u8>, spaces: &[SpaceTable]) -> Result<(), AllocError>
    ensures { OnOk result
        (out.new.items ≡ out.old.items ++ flat_map space_text (map listing_of spaces.now)) }
{
    for space in spaces {
        put_space(out, space)?;
    }
    Ok(())
}

/// The bytes of a table. A count that does not fit its bytes loses its highest ones.
pub fn encode_table(alloc: Global, table: &Table) -> Result<Vec<u8>, AllocError>
    ensures text { IfOk result (λ v. v.items ≡ table_text (map listing_of table.now.spaces.items)) }
    // What is written is read back, after each header whose table it is.
    ensures read_back { IfOk result
        (λ v. (header : Header) → IsTable header (map listing_of table.now.spaces.items)
        → table_in header v.items ≡ Ok (map listing_of table.now.spaces.items)) }
{
    let mut out = Vec::new(alloc);
    put_u32(&mut out, table.spaces.len() as u64)?;
    put_u32(&mut out, 0)?;
    put_spaces(&mut out, &table.spaces)?;
    Ok(out)
}
