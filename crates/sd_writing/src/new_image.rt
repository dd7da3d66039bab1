use sd_chain::PlacedTable;
use sd_image::Header;

/// An image whose gate is open and synced, as a catalog takes it.
#[derive(Drop)]
pub struct NewImage {
    pub slot: usize,
    pub header: Header,
    pub table: PlacedTable,
}
