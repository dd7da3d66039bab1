use sd_areas::{PageNo, SpaceId};

/// A mark between the entries of a journal: what the dumper did to the soft-dirty bits.
#[derive(Clone, Copy, Debug, PartialEq, Eq)]
pub enum Mark {
    /// An image got its serial.
    Start(u64),
    /// A page was tested and cleared for an image.
    Visit {
        serial: u64,
        space: SpaceId,
        page: PageNo,
    },
    /// The write of an image's table was taken up.
    Table(u64),
}
