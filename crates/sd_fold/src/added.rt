use sd_areas::{PageNo, SpaceId};

/// What was added to a memory so that there is room.
#[derive(Clone, Copy, PartialEq, Eq)]
pub(crate) enum Added {
    /// A space without pages.
    Space(SpaceId),
    /// A page of a space.
    Page(SpaceId, PageNo),
}
