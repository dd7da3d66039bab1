//! An open image of a catalog.
ghost use Rattle.std.specs.Prelude.{◌≡◌, ◌<◌, ◌↔◌, IfSome, IsNone, Some, map};
ghost use Rattle.sd_image.specs.Table.{listing_of, IsTable};
ghost use Rattle.sd_chain.specs.declared.way.Way.{Way};
ghost use Rattle.sd_chain.specs.Passes.{IsNextOrNone};
ghost use Rattle.sd_chain.specs.Chains.{AreAlike};
ghost use Rattle.sd_chain.specs.Ways.{HasPage};

use crate::passes::{first_from, place_after};
use crate::placed::PlacedTable;
use crate::spot::Spot;
use crate::stretch::Stretch;
use crate::way::Way;
use sd_areas::{PageNo, SpaceId};
use sd_image::{Header, Table};
use std::marker::Model;

/// An open image: its slot, and what its header and its table say.
#[derive(Drop)]
pub struct OpenImage {
    slot: usize,
    header: Header,
    table: PlacedTable,
}

impl Model for OpenImage {
    ghost use Rattle.sd_chain.specs.Catalog.{Opened};

    ghost Value = { Opened };

    ghost view = { λ i. record { slot = i.slot; header = i.header; spaces = i.table } };
}

impl OpenImage {
    /// An image in a slot.
    pub fn new(slot: usize, header: Header, table: PlacedTable) -> Self
        ensures { result ≡ record { slot = slot; header = header; spaces = table } }
    {
        OpenImage {
            slot,
            header,
            table,
        }
    }

    /// The slot that has its file.
    pub fn slot(&self) -> usize
        ensures { result ≡ self.now.slot }
    {
        self.slot
    }

    /// Its header.
    pub fn header(&self) -> &Header
        ensures { result.now ≡ self.now.header }
    {
        &self.header
    }

    /// Its table.
    pub fn table(&self) -> &Table
        ensures { map listing_of result.now.spaces.items ≡ self.now.spaces }
    {
        self.table.table()
    }

    /// How the image has a page, or none where it doesn't list it.
    /// The time grows with the logarithm of the space's runs.
    pub fn way(&self, space: SpaceId, page: PageNo) -> Option<Way>
        ensures { IsTable self.now.header self.now.spaces
            → (way : Way) → (result ≡ Some way) ↔ HasPage self.now.spaces (space, page) way }
    {
        self.table.way(space, page)
    }

    /// How the image has a page and as many after it as it has alike, looked for first near a spot. None where it
    /// doesn't list the page.
    pub(crate) fn stretch(&self, space: SpaceId, page: PageNo, near: Spot) -> Option<Stretch>
        ensures some { IfSome result (λ s. 0 < s.count) }
        ensures alike { IsTable self.now.header self.now.spaces
            → IfSome result (λ s. AreAlike self.now.spaces (space, page) s.way s.count) }
        ensures none { IsTable self.now.header self.now.spaces → IsNone result
            → (way : Way) → HasPage self.now.spaces (space, page) way → ⊥ }
    {
        self.table.stretch(space, page, near)
    }

    /// The first page that the image lists after a place, rising by space and page, or its first page where no place
    /// is given. The time grows with the spaces, and with the logarithm of the runs of each.
    pub fn next_page(&self, after: Option<(SpaceId, PageNo)>) -> Option<(SpaceId, PageNo)>
        ensures { IsTable self.now.header self.now.spaces
            → IsNextOrNone self.now.spaces after result }
    {
        let (space, page) = place_after(after);
        first_from(&self.table.table().spaces, space, page)
    }
}
