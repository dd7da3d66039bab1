use crate::run::Run;
use sd_areas::{Area, SpaceId};

/// What an image says of one space.
#[derive(Drop)]
pub struct SpaceTable {
    pub space: SpaceId,
    pub areas: Vec<Area>,
    pub runs: Vec<Run>,
}

/// The table of an image: its spaces, rising by number.
#[derive(Drop)]
pub struct Table {
    pub spaces: Vec<SpaceTable>,
}
