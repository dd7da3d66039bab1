ghost use Rattle.std.specs.Prelude.{◌≡◌, ◌<◌, ◌%◌, ◌==◌, not, is_some, IfSome, IsOk, IfOk, IfErr, IsTrue, IsFalse, Err};
ghost use Rattle.std.specs.Prelude.{◌+◌, ◌≤◌, ◌^◌};
ghost use Rattle.sd_areas.specs.Pages.{page_of, pages_for, is_invalid, is_outside};
ghost use Rattle.sd_areas.specs.Areas.{PageMap};
ghost use Rattle.sd_areas.specs.Calls.{map_result, unmap_result, within_areas, set_pages, remove_pages};
ghost use Rattle.sd_areas.specs.declared.errno.Errno.TheVariants.{Einval, Enomem};

use crate::area::Area;
use crate::errno::Errno;
use crate::limits::{PAGE_BYTES, PAGE_NUMBER_LIMIT};
use crate::page_no::PageNo;
use crate::prot::Prot;

/// The whole pages of a range of bytes: `count` of them, from `first` on.
#[derive(Clone, Copy, Debug, PartialEq, Eq, Hash)]
pub struct PageRange {
    pub first: PageNo,
    pub count: u64,
}

impl PageRange {
    /// The whole pages that contain a part of a range of bytes, or none where they reach past the
    /// last address, 2^47 - 1.
    pub(crate) fn new(address: u64, bytes: u64) -> Option<Self>
        requires { 0 < bytes }
        ensures within { not (is_some result) ≡ is_outside address bytes }
        ensures first { IfSome result (λ range. range.first ≡ page_of address) }
        ensures count { IfSome result (λ range. range.count ≡ pages_for bytes) }
    {
        let first = PageNo::new(address / PAGE_BYTES)?;
        let count = bytes.div_ceil(PAGE_BYTES);
        if PAGE_NUMBER_LIMIT < first.number() + count {
            return None;
        }
        Some(PageRange { first, count })
    }

    /// The pages that `mmap` of POSIX.1-2017 maps, by an address and a length in bytes.
    ///
    /// # Errors
    ///
    /// EINVAL for a length of 0 or an address that is no multiple of 4,096.
    /// ENOMEM for a range that ends past 2^47.
    pub fn for_map(address: u64, bytes: u64) -> Result<Self, Errno>
        ensures first { IfOk result (λ range. range.first ≡ page_of address) }
        ensures count { IfOk result (λ range. range.count ≡ pages_for bytes) }
        ensures pages { IfOk result (λ range. 0 < range.count) }
        ensures within { IfOk result (λ range. range.first + range.count ≤ 2 ^ 35) }
        ensures ok { IfOk result (λ range. (pages : PageMap) (prot : Prot)
            → map_result pages address bytes prot
            ≡ within_areas (set_pages pages range.first range.count prot)) }
        ensures refused { IfErr result (λ errno. (pages : PageMap) (prot : Prot)
            → map_result pages address bytes prot ≡ Err errno) }
        ensures invalid { IsTrue (is_invalid address bytes) → result ≡ Err Einval }
        ensures outside { IsFalse (is_invalid address bytes) → IsTrue (is_outside address bytes)
            → result ≡ Err Enomem }
        ensures inside { IsFalse (is_invalid address bytes) → IsFalse (is_outside address bytes) → IsOk result }
    {
        if !is_range(address, bytes) {
            return Err(Errno::Einval);
        }
        PageRange::new(address, bytes).ok_or(Errno::Enomem)
    }

    /// The pages that `munmap` of POSIX.1-2017 unmaps, by an address and a length in bytes.
    ///
    /// # Errors
    ///
    /// EINVAL for a length of 0, an address that is no multiple of 4,096, or a range that ends
    /// past 2^47.
    pub(crate) fn for_unmap(address: u64, bytes: u64) -> Result<Self, Errno>
        ensures first { IfOk result (λ range. range.first ≡ page_of address) }
        ensures count { IfOk result (λ range. range.count ≡ pages_for bytes) }
        ensures pages { IfOk result (λ range. 0 < range.count) }
        ensures within { IfOk result (λ range. range.first + range.count ≤ 2 ^ 35) }
        ensures ok { IfOk result (λ range. (pages : PageMap)
            → unmap_result pages address bytes
            ≡ within_areas (remove_pages pages range.first range.count)) }
        ensures refused { IfErr result (λ errno. (pages : PageMap)
            → unmap_result pages address bytes ≡ Err errno) }
        ensures invalid { IsTrue (is_invalid address bytes) → result ≡ Err Einval }
        ensures outside { IsFalse (is_invalid address bytes) → IsTrue (is_outside address bytes)
            → result ≡ Err Einval }
        ensures inside { IsFalse (is_invalid address bytes) → IsFalse (is_outside address bytes) → IsOk result }
    {
        if !is_range(address, bytes) {
            return Err(Errno::Einval);
        }
        PageRange::new(address, bytes).ok_or(Errno::Einval)
    }

    /// These pages as one area.
    pub(crate) fn with(self, prot: Prot) -> Area
        ensures first { result.first ≡ self.first }
        ensures count { result.count ≡ self.count }
        ensures prot { result.prot ≡ prot }
    {
        Area {
            first: self.first,
            count: self.count,
            prot,
        }
    }
}

/// Whether a range of bytes has a length and begins at a page.
fn is_range(address: u64, bytes: u64) -> bool
    ensures { not result ≡ is_invalid address bytes }
{
    bytes != 0 && is_page_start(address)
}

/// Whether an address is a multiple of the page size.
pub(crate) fn is_page_start(address: u64) -> bool
    ensures { result ≡ (address % 4096 == 0) }
{
    address % PAGE_BYTES == 0
}
