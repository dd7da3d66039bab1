//! The segments of a core, and whether a space can have them.
ghost use Rattle.std.specs.Prelude.{◌≡◌, ◌+◌, ◌<◌, ◌≤◌, ◌^◌, ℕ, filter, IsOk, IfOk, IfErr, MatchOption};
ghost use Rattle.sd_elf.specs.declared.segments.Extent.{Extent};
ghost use Rattle.sd_elf.specs.Segments.{AreSegments, BreaksAtSegment, BreaksSegment, HasBytes, IsSegment, StandsAfter};
ghost use Rattle.sd_elf.specs.Segments.{extent_after, extent_of, is_memory, no_extent, segment_end};

use crate::fault::{CoreFault, SegmentFault};
use crate::program_header::{PT_LOAD, ProgramHeader};
use sd_areas::{AREA_LIMIT, MAPPED_PAGE_LIMIT, PAGE_BYTES};

/// The first address that a space doesn't have.
const ADDRESS_LIMIT: u64 = 1 << 47;

/// From this address on the addresses are the kernel's, as those of its page `vsyscall`.
const KERNEL_START: u64 = 1 << 63;

/// What the segments so far take of a space.
#[derive(Clone, Copy, PartialEq, Eq)]
pub struct Extent {
    /// Where the last ends.
    pub end: u64,
    /// The permissions of the last, as `Prot::bits` has them.
    pub bits: u8,
    /// How many pages they have.
    pub pages: u64,
    /// How many areas they make, where neighbours with equal permissions are one.
    pub areas: u64,
}

impl Extent {
    /// That of no segment.
    pub const EMPTY: Extent = Extent {
        end: 0,
        bits: 0,
        pages: 0,
        areas: 0,
    };
}

/// Whether a segment is one of the memory that a process has. Those of the kernel's addresses aren't.
pub fn is_memory(segment: &ProgramHeader) -> bool
    ensures { result ≡ is_memory segment.now }
{
    segment.p_type == PT_LOAD && segment.p_vaddr < KERNEL_START
}

/// What the segments take of a space with one more, which has pages and begins at the end of the others or after it.
fn with_segment(extent: &Extent, segment: &ProgramHeader) -> Extent
    requires pages { extent.now.pages ≤ 65536 }
    requires areas { extent.now.areas ≤ 1024 }
    requires below { segment_end segment.now ≤ 2 ^ 47 }
    ensures { result ≡ extent_after extent.now segment.now }
{
    let bits = segment.prot().bits();
    let is_new = extent.areas == 0 || segment.p_vaddr != extent.end || bits != extent.bits;
    Extent {
        end: segment.p_vaddr + segment.p_memsz,
        bits,
        pages: extent.pages + segment.p_memsz / PAGE_BYTES,
        areas: extent.areas + u64::from(is_new),
    }
}

/// What is wrong with where a segment stands in memory, after the others.
fn place_fault(extent: &Extent, segment: &ProgramHeader) -> Option<SegmentFault>
    ensures { MatchOption result (StandsAfter extent.now segment.now)
        (λ fault. (size : ℕ) → BreaksSegment size extent.now segment.now fault) }
{
    if segment.p_vaddr % PAGE_BYTES != 0
        || segment.p_memsz % PAGE_BYTES != 0
        || segment.p_memsz == 0
    {
        return Some(SegmentFault::Pages);
    }
    if segment.p_vaddr < extent.end {
        return Some(SegmentFault::Order);
    }
    None
}

/// What is wrong with where the bytes of a segment stand in a file of this size.
fn bytes_fault(segment: &ProgramHeader, size: u64) -> Option<SegmentFault>
    ensures { MatchOption result (HasBytes size segment.now)
        (λ fault. (extent : Extent) → BreaksSegment size extent segment.now fault) }
{
    if segment.p_filesz > segment.p_memsz {
        return Some(SegmentFault::Larger);
    }
    if u128::from(segment.p_offset) + u128::from(segment.p_filesz) > u128::from(size) {
        return Some(SegmentFault::PastEnd);
    }
    None
}

/// What the segments take of a space with one more, in a file of this size.
///
/// # Errors
///
/// The first thing that is wrong with that segment.
fn add_segment(extent: &Extent, segment: &ProgramHeader, size: u64) -> Result<Extent, SegmentFault>
    requires pages { extent.now.pages ≤ 65536 }
    requires areas { extent.now.areas ≤ 1024 }
    ensures found { IfOk result (λ longer. IsSegment size extent.now segment.now
        × (longer ≡ extent_after extent.now segment.now)) }
    ensures fault { IfErr result (BreaksSegment size extent.now segment.now) }
{
    if let Some(fault) = place_fault(extent, segment) {
        return Err(fault);
    }
    if let Some(fault) = bytes_fault(segment, size) {
        return Err(fault);
    }
    if u128::from(segment.p_vaddr) + u128::from(segment.p_memsz) > u128::from(ADDRESS_LIMIT) {
        return Err(SegmentFault::Above);
    }
    let longer = with_segment(extent, segment);
    if longer.pages > MAPPED_PAGE_LIMIT {
        return Err(SegmentFault::TooManyPages);
    }
    if longer.areas > AREA_LIMIT as u64 {
        return Err(SegmentFault::TooManyAreas);
    }
    Ok(longer)
}

/// What the segments of memory among these take of a space, in a file of this size.
///
/// # Errors
///
/// The first segment that a space can't have, and the first thing that is wrong with it.
pub fn check_segments(segments: &[ProgramHeader], size: u64) -> Result<Extent, CoreFault>
    // A space can have them, and this is what they take of it.
    ensures found { IfOk result (λ extent. AreSegments size no_extent (filter is_memory segments.now)
        × (extent ≡ extent_of no_extent (filter is_memory segments.now))) }
    // Those that a space can have are never refused.
    ensures only { AreSegments size no_extent (filter is_memory segments.now) → IsOk result }
    // No other fault is reported than one of a segment.
    ensures fault { IfErr result (BreaksAtSegment size segments.now) }
{
    let mut extent = Extent::EMPTY;
    for (number, segment) in segments.iter().enumerate() {
        if is_memory(segment) {
            match add_segment(&extent, segment, size) {
                Ok(longer) => extent = longer,
                Err(fault) => return Err(CoreFault::Segment { number, fault }),
            }
        }
    }
    Ok(extent)
}
