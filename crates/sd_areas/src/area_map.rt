ghost use Rattle.std.specs.Prelude.{◌≡◌, ◌≢◌, ◌==◌, ◌%◌, ◌≤◌, [], IsTrue, IsFalse, length, None, Some, Ok, Err};
ghost use Rattle.std.specs.Prelude.{IfOk, IfErr, OnOk, OnErr};
ghost use Rattle.std.specs.FinMap as finmap;
ghost use Rattle.sd_areas.specs.Pages.{is_invalid, is_outside, page_of, pages_for};

use crate::area::Area;
use crate::changes::{neighbours, remove_run, set_between, set_run};
use crate::errno::{AreaError, Errno};
use crate::limits::AREA_LIMIT;
use crate::page_no::PageNo;
use crate::page_range::{PageRange, is_page_start};
use crate::prot::Prot;
use crate::runs::{find_prot, meets_hole};
use crate::snapshot::areas_in;
use crate::snapshot_page::SnapshotPage;
use std::alloc::Global;
use std::collections::BTreeMap;
use std::marker::Model;

/// The address space of one task: which pages are mapped, and with which permissions.
///
/// It keeps the maximal runs of pages with equal permissions, at most 1,024 of them.
/// A call changes them in place: its time grows with the logarithm of the areas, with those that
/// meet its range, and with one move of those after it, and not with the pages.
#[derive(Clone, Drop)]
pub struct AreaMap {
    alloc: Global,
    areas: Vec<Area>,
}

impl Model for AreaMap {
    ghost use Rattle.std.specs.Prelude.{◌≤◌, length, None};
    ghost use Rattle.std.specs.FinMap as finmap;
    ghost use Rattle.std.specs.Coded.{coded_ℕ};
    ghost use Rattle.sd_areas.specs.Areas.{PageMap, AreMaximal, page_map_of};
    ghost use Rattle.sd_areas.specs.Codes.{prot_code};

    ghost Value = { PageMap };

    ghost coded = { finmap.code coded_ℕ prot_code };

    ghost view = { λ a. page_map_of a.areas.items };

    ghost invariant = { λ a. AreMaximal None a.areas.items × (length a.areas.items ≤ 1024) };
}

impl AreaMap {
    ghost use Rattle.sd_areas.specs.Areas.{AreAreasOf, AreMaximal, areas_of, page_map_of};
    ghost use Rattle.sd_areas.specs.Calls.{map_result, unmap_result, protect_result, within_areas, has_hole};
    ghost use Rattle.sd_areas.specs.Calls.{RefusesInOrder, AllHave};
    ghost use Rattle.sd_areas.specs.Memory.{snapshot_prots};
    ghost use Rattle.sd_areas.specs.declared.errno.AreaError.TheVariants.{Refused, OutOfMemory};
    ghost use Rattle.sd_areas.specs.declared.errno.Errno.TheVariants.{Einval, Enomem};

    /// A space without pages.
    pub fn new(alloc: Global) -> Self
        ensures { result ≡ finmap.empty }
    {
        AreaMap {
            alloc,
            areas: Vec::new(alloc),
        }
    }

    /// The space that has these pages, in one pass over them.
    ///
    /// # Errors
    ///
    /// ENOMEM where the space would have over 1,024 areas.
    /// Out of memory where the list of areas can't grow, which is only where there is a page.
    pub fn from_pages(
        alloc: Global,
        pages: &BTreeMap<PageNo, SnapshotPage>,
    ) -> Result<Self, AreaError>
        ensures ok { IfOk result (λ map. within_areas (snapshot_prots pages.now.entries) ≡ Ok map) }
        ensures refused { IfErr result (RefusesInOrder (within_areas (snapshot_prots pages.now.entries))) }
        ensures some { result ≡ Err OutOfMemory → pages.now.entries ≢ [] }
    {
        let areas = areas_in(alloc, pages)?;
        AreaMap::from_areas(alloc, areas)
    }

    /// The maximal runs of pages with equal permissions, in the order of their addresses.
    /// They are at most 1,024.
    pub fn areas(&self) -> &[Area]
        ensures value { result.now ≡ areas_of self.now }
        ensures runs { AreAreasOf self.now result.now }
        ensures limit { length result.now ≤ 1024 }
    {
        self.areas.as_slice()
    }

    /// The permissions of a page, or none where it isn't mapped.
    /// The time grows with the logarithm of the areas.
    pub fn prot_of(&self, page: PageNo) -> Option<Prot>
        ensures { result ≡ finmap.get self.now page }
    {
        find_prot(&self.areas, page)
    }

    /// Maps the whole pages of a range with these permissions, whatever was mapped there, as
    /// `mmap` with MAP_FIXED of POSIX.1-2017 does.
    /// The address and the length are in bytes; the last page is mapped whole.
    ///
    /// # Errors
    ///
    /// EINVAL for a length of 0 or an address that is no multiple of 4,096.
    /// ENOMEM for a range that ends past 2^47, and where the space would have over 1,024 areas.
    /// Out of memory where the list of areas can't grow, which is only where a page of the range doesn't have these
    /// permissions yet. An error changes nothing.
    pub fn map(&mut self, address: u64, bytes: u64, prot: Prot) -> Result<(), AreaError>
        ensures ok { OnOk result (map_result self.old address bytes prot ≡ Ok self.new) }
        ensures refused { IfErr result (RefusesInOrder (map_result self.old address bytes prot)) }
        ensures invalid { IsTrue (is_invalid address bytes) → result ≡ Err (Refused Einval) }
        ensures outside { IsFalse (is_invalid address bytes) → IsTrue (is_outside address bytes)
            → result ≡ Err (Refused Enomem) }
        ensures same { IsFalse (is_invalid address bytes) → IsFalse (is_outside address bytes)
            → AllHave self.old (page_of address) (pages_for bytes) (Some prot) → result ≡ Ok tt }
        ensures err { OnErr result (self.new ≡ self.old) }
    {
        let range = PageRange::for_map(address, bytes)?;
        set_run(self.alloc, &mut self.areas, range.with(prot))
    }

    /// Unmaps each whole page that contains a part of a range, as `munmap` of POSIX.1-2017 does.
    /// Pages of it that aren't mapped have no effect. The address and the length are in bytes.
    ///
    /// # Errors
    ///
    /// EINVAL for a length of 0, an address that is no multiple of 4,096, or a range that ends
    /// past 2^47.
    /// ENOMEM where the space would have over 1,024 areas, since the range lies within one.
    /// Out of memory where the list of areas can't grow, which is only where a page of the range is mapped. An error
    /// changes nothing.
    pub fn unmap(&mut self, address: u64, bytes: u64) -> Result<(), AreaError>
        ensures ok { OnOk result (unmap_result self.old address bytes ≡ Ok self.new) }
        ensures refused { IfErr result (RefusesInOrder (unmap_result self.old address bytes)) }
        ensures invalid { IsTrue (is_invalid address bytes) → result ≡ Err (Refused Einval) }
        ensures outside { IsFalse (is_invalid address bytes) → IsTrue (is_outside address bytes)
            → result ≡ Err (Refused Einval) }
        ensures bare { IsFalse (is_invalid address bytes) → IsFalse (is_outside address bytes)
            → AllHave self.old (page_of address) (pages_for bytes) None → result ≡ Ok tt }
        ensures err { OnErr result (self.new ≡ self.old) }
    {
        let range = PageRange::for_unmap(address, bytes)?;
        remove_run(self.alloc, &mut self.areas, range)
    }

    /// Gives the whole pages of a range these permissions, as `mprotect` of POSIX.1-2017 does.
    /// A length of 0 changes nothing. The address and the length are in bytes.
    ///
    /// # Errors
    ///
    /// EINVAL for an address that is no multiple of 4,096.
    /// ENOMEM for a range that ends past 2^47, where a page of it isn't mapped, and where the space
    /// would have over 1,024 areas.
    /// Out of memory where the list of areas can't grow, which is only where a page of the range doesn't have these
    /// permissions yet. An error changes nothing.
    pub fn protect(&mut self, address: u64, bytes: u64, prot: Prot) -> Result<(), AreaError>
        ensures ok { OnOk result (protect_result self.old address bytes prot ≡ Ok self.new) }
        ensures refused { IfErr result (RefusesInOrder (protect_result self.old address bytes prot)) }
        ensures invalid { IsFalse (address % 4096 == 0) → result ≡ Err (Refused Einval) }
        ensures nothing { IsTrue (address % 4096 == 0) → bytes ≡ 0 → result ≡ Ok tt }
        ensures outside { IsFalse (is_invalid address bytes) → IsTrue (is_outside address bytes)
            → result ≡ Err (Refused Enomem) }
        ensures hole { IsFalse (is_invalid address bytes) → IsFalse (is_outside address bytes)
            → IsTrue (has_hole self.old (page_of address) (pages_for bytes))
            → result ≡ Err (Refused Enomem) }
        ensures same { IsFalse (is_invalid address bytes) → IsFalse (is_outside address bytes)
            → AllHave self.old (page_of address) (pages_for bytes) (Some prot) → result ≡ Ok tt }
        ensures err { OnErr result (self.new ≡ self.old) }
    {
        if !is_page_start(address) {
            return Err(AreaError::Refused(Errno::Einval));
        }
        if bytes == 0 {
            return Ok(());
        }
        let Some(range) = PageRange::new(address, bytes) else {
            return Err(AreaError::Refused(Errno::Enomem));
        };
        let (from, to) = neighbours(&self.areas, &range);
        if meets_hole(&self.areas[from..to], &range) {
            return Err(AreaError::Refused(Errno::Enomem));
        }
        set_between(self.alloc, &mut self.areas, from, to, range.with(prot))
    }

    /// The space that has these areas.
    ///
    /// # Errors
    ///
    /// ENOMEM where they are over 1,024.
    fn from_areas(alloc: Global, areas: Vec<Area>) -> Result<Self, AreaError>
        requires { AreMaximal None areas.items }
        ensures ok { IfOk result (λ map. within_areas (page_map_of areas.items) ≡ Ok map) }
        ensures refused { IfErr result (RefusesInOrder (within_areas (page_map_of areas.items))) }
        ensures granted { result ≢ Err OutOfMemory }
    {
        if AREA_LIMIT < areas.len() {
            return Err(AreaError::Refused(Errno::Enomem));
        }
        Ok(AreaMap { alloc, areas })
    }
}
