use sd_areas::{PageNo, SpaceId};

/// A page that a pass tested and cleared, and whether it was soft-dirty.
#[derive(Clone, Copy, PartialEq, Eq)]
pub struct Visit {
    pub space: SpaceId,
    pub page: PageNo,
    pub soft_dirty: bool,
}
