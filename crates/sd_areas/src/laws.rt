//! Laws of address spaces, each the contract of a function that does nothing.
ghost use Rattle.sd_areas.specs.Laws.{AreasLaw, OneListLaw, CountLaw, LimitLaw, MappedLaw, UnmappedLaw, ProtectedLaw};
ghost use Rattle.sd_areas.specs.Laws.{MemoryLaw};

/// The list of areas that the contracts name is the one of maximal runs.
pub fn areas_law()
    ensures { AreasLaw }
{}

/// A space has one list of areas.
pub fn one_list_law()
    ensures { OneListLaw }
{}

/// The areas of a space have as many pages as it has.
pub fn count_law()
    ensures { CountLaw }
{}

/// A space is past the limit where its maximal runs are over 1,024.
pub fn limit_law()
    ensures { LimitLaw }
{}

/// What `map` does to each page.
pub fn mapped_law()
    ensures { MappedLaw }
{}

/// What `unmap` does to each page.
pub fn unmapped_law()
    ensures { UnmappedLaw }
{}

/// What `protect` does to each page, and what it needs of it.
pub fn protected_law()
    ensures { ProtectedLaw }
{}

/// What a snapshot's memory has at each space and page.
pub fn memory_law()
    ensures { MemoryLaw }
{}
