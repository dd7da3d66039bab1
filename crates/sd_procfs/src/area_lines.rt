//! The areas of a space as text.
ghost use Rattle.std.specs.Prelude.{◌≡◌, ◌≢◌, ◌+◌, ◌≤◌, ◌^◌, ◌++◌, [], None, IfOk, OnOk, OnErr};
ghost use Rattle.std.specs.List.{flat_map};
ghost use Rattle.sd_areas.specs.Areas.{AreMaximal, areas_of};
ghost use Rattle.sd_procfs.specs.Listing.{area_line, listing_text};

use sd_areas::{Area, AreaMap, PAGE_BYTES};
use std::alloc::{AllocError, Global};
use std::fmt::Write;

/// One line for each area, rising: `area FIRST END PERMISSIONS`, the addresses in hexadecimal.
///
/// # Errors
///
/// Out of memory where the text can't grow, which is only where there is an area.
pub fn listing(alloc: Global, areas: &AreaMap) -> Result<String, AllocError>
    ensures text { IfOk result (λ text. text.bytes.items ≡ listing_text areas.now) }
    ensures some { OnErr result (areas_of areas.now ≢ []) }
{
    areas_text(alloc, areas.areas())
}

/// The lines of these areas, as `listing` writes them.
///
/// # Errors
///
/// Out of memory where the text can't grow, which is only where there is an area.
pub fn areas_text(alloc: Global, areas: &[Area]) -> Result<String, AllocError>
    requires { AreMaximal None areas.now }
    ensures text { IfOk result (λ text. text.bytes.items ≡ flat_map area_line areas.now) }
    ensures some { OnErr result (areas.now ≢ []) }
{
    let mut text = String::new(alloc);
    for area in areas {
        push_line(&mut text, area)?;
    }
    Ok(text)
}

fn push_line(text: &mut String, area: &Area) -> Result<(), AllocError>
    requires { area.now.first + area.now.count ≤ 2 ^ 35 }
    ensures { OnOk result (text.new.bytes.items ≡ text.old.bytes.items ++ area_line area.now) }
{
    let first = PAGE_BYTES * area.first.number();
    let end = PAGE_BYTES * (area.first.number() + area.count);
    writeln!(text, "area 0x{first:x} 0x{end:x} {}", area.prot)
}
