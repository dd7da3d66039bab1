/// How many bytes a page has.
pub const PAGE_SIZE: usize = 4096;

/// The size of a page as a number of addresses.
pub const PAGE_BYTES: u64 = PAGE_SIZE as u64;

/// Page numbers are below this: addresses are below 2^47.
pub const PAGE_NUMBER_LIMIT: u64 = 1 << 35;

/// How many areas a space can have.
pub const AREA_LIMIT: usize = 1024;

/// The greatest number that a living space can have; the least is 1.
pub const SPACE_LIMIT: u64 = 16;

/// How many pages can be mapped in all spaces together.
pub const MAPPED_PAGE_LIMIT: u64 = 65_536;
