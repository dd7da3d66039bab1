use sd_areas::PAGE_SIZE;

/// How many bytes a sector of a page has.
pub const SECTOR_SIZE: usize = 512;

/// How many sectors a page has.
pub const SECTORS: usize = PAGE_SIZE / SECTOR_SIZE;

/// How many bytes a load or a store can have at most; the least is 1.
pub const ACCESS_LIMIT: usize = 64;

/// How many frames a memory's pool can have at most; the least is 1.
pub const FRAME_LIMIT: usize = 65_536;
