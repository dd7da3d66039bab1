//! How far an image's data pages can reach.

/// How many data pages an image has at most: 16 spaces of 2^35 pages.
pub(crate) const DATA_PAGE_LIMIT: usize = 1 << 39;
